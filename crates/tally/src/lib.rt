// The tally of a job's nodes (S-12): messages started, received, taken and waiting, counted from the job, the bytes of a trace and those of
// a snapshot (01's "picture"). Any bytes are allowed.
#![tactic(auto)]

mod counting;
pub mod exports;
mod nodes;

ghost use Rattle.std.specs.Prelude.{◌≡◌, ◌≤◌};
ghost use Rattle.model.specs.Table.{max_nodes};
ghost use Rattle.model.specs.Refusal.{decode_job};
ghost use Rattle.writing.specs.Writing.{Writes, joined};
ghost use Rattle.tables.specs.Programs.{Handlers, program_in};
ghost use Rattle.tally.specs.Tallies.{entries_held, tally_in, nodes_told, answered_by, tallies_after};

use command::bytes;
use command::refusal::Refusal;
use counting::count_entries;
use declared::count_of;
use job::decode;
use nodes::put_nodes;
use tables::cells::CELLS;

// Numbers of the counts of 32 nodes, four a node.
pub const COUNTS: usize = 128;

// How many entries of so many turns a trace holds in full.
fn entries_held(turns: u64, trace: &[u8]) -> usize
    ensures { result ≡ entries_held turns trace.now }
{
    let whole = trace.len() / 7;
    turns.min(whole as u64) as usize
}

// Writes the four counts of each of the first nodes to the front of an array, and answers the place after them. That there are at most 32
// nodes stays a clause, here and below: the tables tell it of accepted jobs alone. Turns, trace and snapshot go one by one, as C hands them
// over. Arrivals and takings are two arrays: each is counted by a function that is lent it alone.
pub fn put_counts(
    counts: &mut [u64; COUNTS],
    tables: &[u32],
    turns: u64,
    trace: &[u8],
    snapshot: &[u8],
    nodes: usize,
) -> usize
    requires { nodes ≤ max_nodes }
    ensures { (hs : Handlers) → Writes
        (joined (tally_in (program_in tables.now hs) turns trace.now snapshot.now) nodes)
        counts.old 0 counts.new result }
{
    let mut arrivals = [0u64; 32];
    let mut takings = [0u64; 32];
    let held = entries_held(turns, trace);
    count_entries(&mut arrivals, &mut takings, tables, trace, held);
    put_nodes(counts, tables, &arrivals, &takings, snapshot, nodes)
}

// Tallies a run by its job, how many turns it completed, its trace and its snapshot (01's "picture"): the counts of the job's nodes at the
// front of an array. It answers how many nodes the job has, or its refusal.
pub fn tally(
    job: &[u8],
    turns: u64,
    trace: &[u8],
    snapshot: &[u8],
    counts: &mut [u64; COUNTS],
) -> Result<u32, Refusal>
    ensures told { answered_by result ≡ nodes_told (decode_job job.now) }
    ensures counts { counts.new ≡ tallies_after (decode_job job.now) turns
        trace.now snapshot.now counts.old }
{
    let mut tables = [0u32; CELLS];
    decode(job, &mut tables)?;
    let nodes = count_of(&tables, bytes::NODE);
    put_counts(counts, &tables, turns, trace, snapshot, nodes as usize);
    Ok(nodes)
}
