// The lines of a snapshot (01's "end picture"): its nodes, then its variables.
ghost use Rattle.std.specs.Prelude.{◌≡◌, ◌+◌, ◌*◌, ◌≤◌, length};
ghost use Rattle.writing.specs.Writing.{Writes, joined};
ghost use Rattle.text.specs.Text.{fields};
ghost use Rattle.output.specs.Finding.{next_part, part_at};
ghost use Rattle.lines.specs.Lines.{messages_at, part_line, variable_line, snapshot_lines};

use command::read::operand;
use output::places::next_part;
use text::{put_fields, put_line};
use writing::{put_all, put_one};

// Puts the messages that stand from a place of the snapshot on, each with its sender.
fn put_messages(text: &mut [u8], at: usize, snapshot: &[u8], place: usize, count: usize) -> usize
    requires count_in_bounds { place + 5 * count ≤ length snapshot.now }
    requires count_in_bounds_2 { at + length (fields (messages_at snapshot.now place count)) ≤ length text.old }
    ensures { Writes (fields (messages_at snapshot.now place count)) text.old at text.new result }
{
    let mut next = at;
    for i in 0..count {
        let message = operand(snapshot, place + 5 * i, 4);
        let sender = operand(snapshot, place + 5 * i + 4, 1);
        let numbers = [message as u64, sender as u64];
        next = put_fields(text, next, &numbers);
    }
    next
}

// Puts the line of node n. The place of its part is handed over. That it is this place stays a clause, here and below, as in `next_part`.
fn put_node_line(text: &mut [u8], at: usize, snapshot: &[u8], place: usize, n: usize) -> usize
    requires place_value { place ≡ part_at snapshot.now n }
    requires place_in_bounds { next_part snapshot.now place ≤ length snapshot.now }
    requires n_in_bounds { at + length (part_line snapshot.now n) ≤ length text.old }
    ensures { Writes (part_line snapshot.now n) text.old at text.new result }
{
    let position = operand(snapshot, place, 1);
    let accumulator = operand(snapshot, place + 1, 4);
    let message = operand(snapshot, place + 5, 4);
    let waiting = operand(snapshot, place + 9, 1);
    let numbers = [
        n as u64,
        position as u64,
        accumulator as u64,
        message as u64,
        waiting as u64,
    ];
    let first = put_all(text, at, b"node");
    let messages = put_fields(text, first, &numbers);
    let end = put_messages(text, messages, snapshot, place + 10, waiting as usize);
    put_one(text, end, 10)
}

// Puts the lines of the variables, which stand behind the parts of so many nodes. Their place is handed over.
fn put_variable_lines(
    text: &mut [u8],
    at: usize,
    snapshot: &[u8],
    place: usize,
    nodes: usize,
    variables: usize,
) -> usize
    requires place_value { place ≡ part_at snapshot.now nodes }
    requires variables_in_bounds { place + 4 * variables ≤ length snapshot.now }
    requires variables_in_bounds_2 { at + length (joined (variable_line snapshot.now place) variables) ≤ length text.old }
    ensures { Writes (joined (variable_line snapshot.now place) variables) text.old at text.new result }
{
    let mut next = at;
    for x in 0..variables {
        let value = operand(snapshot, place + 4 * x, 4);
        let numbers = [x as u64, value as u64];
        next = put_line(text, next, b"var", &numbers);
    }
    next
}

// Puts the lines of a snapshot. The place of each node's part is carried along from part to part.
pub fn put_snapshot_lines(
    text: &mut [u8],
    at: usize,
    snapshot: &[u8],
    nodes: usize,
    variables: usize,
) -> usize
    requires variables_in_bounds { part_at snapshot.now nodes + 4 * variables ≤ length snapshot.now }
    requires variables_in_bounds_2 { at + length (snapshot_lines snapshot.now nodes variables) ≤ length text.old }
    ensures { Writes (snapshot_lines snapshot.now nodes variables) text.old at text.new result }
{
    let mut next = at;
    let mut place = 0;
    for n in 0..nodes {
        next = put_node_line(text, next, snapshot, place, n);
        place = next_part(snapshot, place, n);
    }
    put_variable_lines(text, next, snapshot, place, nodes, variables)
}
