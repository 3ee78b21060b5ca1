// What the entries of a trace count: for each node the entries that reach it, and its takings.
ghost use Rattle.std.specs.Prelude.{ℕ, ◌+◌, ◌*◌, ◌^◌, ◌≤◌, ◌<◌, length, get_or};
ghost use Rattle.model.specs.Table.{max_nodes};
ghost use Rattle.model.specs.Tally.{reaches, takes, received, taken};
ghost use Rattle.tables.specs.Bits.{bit_of};
ghost use Rattle.tables.specs.Programs.{Handlers, program_in};
ghost use Rattle.output.specs.Finding.{entry_from};
ghost use Rattle.tally.specs.Counted.{Adds, Numbered};

use command::numbers::NodeNum;
use command::read::operand;
use declared::targets_of;
use output::numbers::Kind;

// Adds one for each target, of those that are the bits of a number, up to its highest. That no count is near its end stays a clause, here and
// below: the caller has the array, and counts from 0. A loop of its own: by `Places` 4,096 sends to 31 nodes take 134 µs in place of 83 µs,
// and to the first four nodes 27 µs in place of 20 µs.
fn add_targets(counts: &mut [u64; 32], targets: u32)
    requires by_index { (n : ℕ) → n < max_nodes → get_or counts.old n 0 < 2 ^ 63 }
    ensures { Adds (bit_of targets) counts.old counts.new }
{
    let end = 32 - targets.leading_zeros();
    let mut ahead = targets;
    for target in 0..end as usize {
        counts[target] += u64::from(ahead % 2);
        ahead /= 2;
    }
}

// Adds what entry k sends: one for each node that it reaches. The entry is read by its place, as the definitions read it, and no more of it
// than is asked for; that the trace has it stays a clause, here and below, for the caller counts them.
fn add_sent(counts: &mut [u64; 32], tables: &[u32], trace: &[u8], k: usize)
    requires k_in_bounds { 7 * k + 7 ≤ length trace.now }
    requires by_index { (n : ℕ) → n < max_nodes → get_or counts.old n 0 < 2 ^ 63 }
    ensures { (hs : Handlers) → Adds
        (λ n. reaches (program_in tables.now hs) n (entry_from trace.now k))
        counts.old counts.new }
{
    let place = 7 * k;
    if trace[place + 1] == Kind::Send.number() {
        let node = NodeNum(operand(trace, place, 1));
        let port = operand(trace, place + 2, 1);
        add_targets(counts, targets_of(tables, node, port));
    }
}

// Adds one for the node that takes a message by entry k, if it does.
fn add_taken(counts: &mut [u64; 32], trace: &[u8], k: usize)
    requires k_in_bounds { 7 * k + 7 ≤ length trace.now }
    requires by_index { (n : ℕ) → n < max_nodes → get_or counts.old n 0 < 2 ^ 63 }
    ensures { Adds (λ n. takes n (entry_from trace.now k)) counts.old counts.new }
{
    let place = 7 * k;
    let node = operand(trace, place, 1) as usize;
    if trace[place + 1] == Kind::Begin.number() && node < 32 {
        counts[node] += 1;
    }
}

// Counts the first entries: what each node received, and what it took. That the trace has so many stays a clause: the caller has just
// divided its length.
pub fn count_entries(
    arrivals: &mut [u64; 32],
    takings: &mut [u64; 32],
    tables: &[u32],
    trace: &[u8],
    turns: usize,
)
    requires turns_in_bounds { 7 * turns ≤ length trace.now }
    requires numbered { Numbered (λ n. 0) arrivals.old × Numbered (λ n. 0) takings.old }
    ensures received { (hs : Handlers) → Numbered
        (received (program_in tables.now hs) (entry_from trace.now) turns) arrivals.new }
    ensures taken { Numbered (taken (entry_from trace.now) turns) takings.new }
{
    for k in 0..turns {
        add_sent(arrivals, tables, trace, k);
        add_taken(takings, trace, k);
    }
}
