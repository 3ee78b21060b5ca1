// The four counts of each node, put one after the other.
ghost use Rattle.std.specs.Prelude.{◌≡◌, ◌*◌, ◌≤◌, length};
ghost use Rattle.model.specs.Table.{max_nodes};
ghost use Rattle.model.specs.Tally.{started};
ghost use Rattle.writing.specs.Writing.{Writes, joined};
ghost use Rattle.tables.specs.Programs.{Handlers, program_in};
ghost use Rattle.tally.specs.Counted.{tally_by};

use command::numbers::NodeNum;
use declared::first_message;
use output::places::{next_part, waiting_in};
use writing::put_all;

// How many first messages a node has.
fn count_started(tables: &[u32], n: NodeNum) -> u64
    ensures { (hs : Handlers) → result ≡ started (program_in tables.now hs) n.0 }
{
    u64::from(first_message(tables, n).is_some())
}

// Writes the counts of the first nodes, four a node: started, received, taken, waiting. The place of each node's part of the snapshot (01's
// "picture") is carried along from part to part. The counts are any slice that has room.
pub fn put_nodes(
    counts: &mut [u64],
    tables: &[u32],
    arrivals: &[u64; 32],
    takings: &[u64; 32],
    snapshot: &[u8],
    nodes: usize,
) -> usize
    requires nodes_le_max_nodes { (nodes ≤ max_nodes) × (4 * nodes ≤ length counts.old) }
    ensures { (hs : Handlers) → Writes
        (joined (tally_by (program_in tables.now hs) arrivals.now takings.now snapshot.now) nodes)
        counts.old 0 counts.new result }
{
    let mut at = 0;
    let mut place = 0;
    for n in 0..nodes {
        let started = count_started(tables, NodeNum(n as u32));
        let waiting = u64::from(waiting_in(snapshot, place));
        let four = [started, arrivals[n], takings[n], waiting];
        at = put_all(counts, at, &four);
        place = next_part(snapshot, place, n);
    }
    at
}
