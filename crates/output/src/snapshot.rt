// The bytes of the snapshot (01's "end picture"). The place of each part is carried along from part to part (S-3). That no more messages
// wait at a node than it has slots stays a clause (`BoundedCounts`): the state comes from anyone.
ghost use Rattle.std.specs.Prelude.{◌≡◌, ◌+◌, ◌*◌, ◌≤◌, ◌<◌, length};
ghost use Rattle.model.specs.Table.{max_nodes, max_variables};
ghost use Rattle.model.specs.State.{position_at};
ghost use Rattle.model.specs.Output.{messages_bytes, node_bytes, part_start, variables_bytes};
ghost use Rattle.model.specs.Refusal.{snapshot_size};
ghost use Rattle.writing.specs.Writing.{Writes};
ghost use Rattle.memory.specs.Queues.{paired, BoundedCounts};
ghost use Rattle.engine.specs.Engine.{view};
ghost use Rattle.output.specs.Written.{NarrowPositions, shown_bytes};

use engine::State;
use writing::{put_one, put_word, put_words};

// Writes messages: of each the value, then the sender.
fn put_messages(snapshot: &mut [u8], at: usize, values: &[u32], senders: &[u8]) -> usize
    requires values_in_bounds { at + 5 * length values.now ≤ length snapshot.old }
    requires senders_len { length senders.now ≡ length values.now }
    ensures { Writes (messages_bytes (paired values.now senders.now)) snapshot.old at snapshot.new result }
{
    let mut next = at;
    for (&value, &sender) in values.iter().zip(senders) {
        let behind = put_word(snapshot, next, value);
        next = put_one(snapshot, behind, sender);
    }
    next
}

// Writes the part of node n: position, accumulator, message, how many messages wait, and these with their senders. It is handed the place
// of this part, which is the length of all parts before it, and answers that of the next.
fn put_node(snapshot: &mut [u8], at: usize, state: &State, n: usize) -> usize
    requires at_value { at ≡ part_start (view state.now) n }
    requires n_lt_max_nodes { (n < max_nodes) × (at + 90 ≤ length snapshot.old) }
    requires bounded_counts { BoundedCounts state.now.waiting × (position_at (view state.now) n < 256) }
    ensures part { Writes (node_bytes (view state.now) n) snapshot.old (part_start (view state.now) n)
        snapshot.new result }
    ensures place { result ≡ part_start (view state.now) (n + 1) }
{
    let count = state.waiting[n];
    let second = put_one(snapshot, at, (state.position[n] % 256) as u8);
    let third = put_word(snapshot, second, state.accumulator[n]);
    let fourth = put_word(snapshot, third, state.message[n]);
    let messages = put_one(snapshot, fourth, count);
    let first = n * 16;
    let end = first + usize::from(count);
    let values = &state.queue[first..end];
    let senders = &state.sender[first..end];
    put_messages(snapshot, messages, values, senders)
}

// Writes the first variables. It is handed their place, which is the length of the parts of so many nodes, and answers that of the
// snapshot's end.
fn put_variables(
    snapshot: &mut [u8],
    at: usize,
    state: &State,
    nodes: usize,
    variables: usize,
) -> usize
    requires at_value { at ≡ part_start (view state.now) nodes }
    requires variables_le_max_variables { (variables ≤ max_variables) × (at + 4 * variables ≤ length snapshot.old) }
    ensures part { Writes (variables_bytes (view state.now) variables) snapshot.old (part_start (view state.now) nodes)
        snapshot.new result }
    ensures place { result ≡ length (shown_bytes (view state.now) nodes variables) }
{
    put_words(snapshot, at, &state.variable[..variables])
}

// Writes the snapshot of a state: its first nodes and its first variables, as many as are asked for. That the buffer has room for every
// snapshot stays a clause: refusal 11 is the test for it. So do the most nodes and variables: only accepted jobs tell them, and how many.
// Not inlined, so that its loop has registers of its own: in the middle of a run a waiting message takes 2 instructions more.
#[inline(never)]
pub fn put_snapshot(snapshot: &mut [u8], state: &State, nodes: usize, variables: usize) -> usize
    requires snapshot_size_in_bounds { (snapshot_size ≤ length snapshot.old) × (nodes ≤ max_nodes) × (variables ≤ max_variables) }
    requires bounded_counts { BoundedCounts state.now.waiting }
    requires narrow_positions { NarrowPositions (view state.now) }
    ensures { Writes (shown_bytes (view state.now) nodes variables) snapshot.old 0 snapshot.new result }
{
    let mut at = 0;
    for n in 0..nodes {
        at = put_node(snapshot, at, state, n);
    }
    put_variables(snapshot, at, state, nodes, variables)
}
