// What the buffers hold before a run, which byte is changed after it, and whether a run kept what it has to keep.
ghost use Rattle.std.specs.Prelude.{◌≡◌, length};
ghost use Rattle.conformance.specs.Keeping.{fill_byte, filling, is_kept, is_cleared, length_of, snapshot_length, all_kept, keeps};
ghost use Rattle.conformance.specs.Keeping.{change_of, changed_at, changed_last, changed_trace, changed_snapshot, changed_work};

use command::bytes;
use command::refusal::Refusal;
use declared::count_of;
use job::buffers::WORK;
use job::decode;
use output::places::next_part;
use tables::cells::CELLS;
use turns::ending::Ending;

// The bytes at the front of the work buffer that are 0 after a run.
const CLEARED: usize = WORK;

// From one byte of a buffer to the next, the value grows by this, modulo 256.
const STEP: u8 = 31;

// Which byte is changed after a run: the first or the last of the work buffer, the last of the trace or of the snapshot buffer, or none.
// Where a buffer is longer than what a run writes to it, its last byte is one that the run has to keep.
#[derive(Clone, Copy)]
pub enum ChangedByte {
    FirstOfWork,
    LastOfWork,
    LastOfTrace,
    LastOfSnapshot,
    Nothing,
}

impl From<u8> for ChangedByte {
    ghost from_gives = { λ number change. change ≡ change_of number };

    fn from(number: u8) -> ChangedByte {
        match number {
            1 => ChangedByte::FirstOfWork,
            2 => ChangedByte::LastOfWork,
            3 => ChangedByte::LastOfTrace,
            4 => ChangedByte::LastOfSnapshot,
            _ => ChangedByte::Nothing,
        }
    }
}

// Byte i of a buffer that is filled from a seed.
fn fill_byte(seed: u8, i: usize) -> u8
    ensures { result ≡ fill_byte seed i }
{
    seed.wrapping_add(((i % 256) as u8).wrapping_mul(STEP))
}

// Fills a buffer from a seed.
#[tactic(auto, unfolding(crate::specs::Keeping::filling))]
fn fill(buffer: &mut [u8], seed: u8)
    ensures { buffer.new ≡ filling seed (length buffer.old) }
{
    for (i, byte) in buffer.iter_mut().enumerate() {
        *byte = fill_byte(seed, i);
    }
}

// Fills the three buffers.
pub fn fill_all(trace: &mut [u8], snapshot: &mut [u8], work: &mut [u8], seed: u8)
    ensures trace { trace.new ≡ filling seed (length trace.old) }
    ensures snapshot { snapshot.new ≡ filling seed (length snapshot.old) }
    ensures work { work.new ≡ filling seed (length work.old) }
{
    fill(trace, seed);
    fill(snapshot, seed);
    fill(work, seed);
}

// Changes a byte of a buffer, if the buffer has this place. By index: after a write through `get_mut` nothing is known of the slice.
fn change_at(buffer: &mut [u8], at: usize)
    ensures { buffer.new ≡ changed_at buffer.old at }
{
    if at < buffer.len() {
        buffer[at] = buffer[at].wrapping_add(1);
    }
}

// Changes the last byte of a buffer, if the buffer has one.
fn change_last(buffer: &mut [u8])
    ensures { buffer.new ≡ changed_last buffer.old }
{
    change_at(buffer, buffer.len().saturating_sub(1));
}

// Changes the byte that is asked for.
pub fn change_one(trace: &mut [u8], snapshot: &mut [u8], work: &mut [u8], which: ChangedByte)
    ensures trace { trace.new ≡ changed_trace which trace.old }
    ensures snapshot { snapshot.new ≡ changed_snapshot which snapshot.old }
    ensures work { work.new ≡ changed_work which work.old }
{
    match which {
        ChangedByte::FirstOfWork => change_at(work, 0),
        ChangedByte::LastOfWork => change_last(work),
        ChangedByte::LastOfTrace => change_last(trace),
        ChangedByte::LastOfSnapshot => change_last(snapshot),
        ChangedByte::Nothing => {}
    }
}

// Whether a buffer holds from a place on what it was filled with.
fn is_kept(buffer: &[u8], from: usize, seed: u8) -> bool
    ensures { result ≡ is_kept buffer.now from seed }
{
    buffer
        .iter()
        .enumerate()
        .skip(from)
        .all(|(i, byte)| *byte == fill_byte(seed, i))
}

// Whether the front of the work buffer is 0; bytes that it does not have count as 0.
fn is_cleared(work: &[u8]) -> bool
    ensures { result ≡ is_cleared work.now }
{
    work.iter().take(CLEARED).all(|byte| *byte == 0)
}

// The bytes of a snapshot (01's "picture") of these nodes and variables; how many there are, the job alone tells.
#[tactic(auto, using(output::proofs::Finding::part_first))]
fn size_of(snapshot: &[u8], nodes: u32, variables: u32) -> usize
    ensures { result ≡ length_of snapshot.now nodes variables }
{
    let mut place: usize = 0;
    for n in 0..nodes {
        place = next_part(snapshot, place, n as usize);
    }
    place + 4 * (variables as usize)
}

// The bytes of the snapshot of a job; a refused one has no nodes and variables.
fn snapshot_size(job: &[u8], snapshot: &[u8]) -> usize
    ensures { result ≡ snapshot_length job.now snapshot.now }
{
    let mut tables = [0u32; CELLS];
    let _ = decode(job, &mut tables);
    let nodes = count_of(&tables, bytes::NODE);
    let variables = count_of(&tables, bytes::VAR);
    size_of(snapshot, nodes, variables)
}

// Whether the three buffers hold, each from a place on, what they were filled with.
fn all_kept(
    trace: &[u8],
    entries: usize,
    snapshot: &[u8],
    shown: usize,
    work: &[u8],
    cleared: usize,
    seed: u8,
) -> bool
    ensures { result ≡ all_kept trace.now entries snapshot.now shown work.now cleared seed }
{
    is_kept(trace, entries, seed) && is_kept(snapshot, shown, seed) && is_kept(work, cleared, seed)
}

// Whether a run kept what it has to keep: a refusal all three buffers; a run what follows its entries, its snapshot and the cleared bytes,
// and those are 0.
pub fn kept(
    answer: Result<Ending, Refusal>,
    job: &[u8],
    trace: &[u8],
    snapshot: &[u8],
    work: &[u8],
    seed: u8,
) -> bool
    ensures { result ≡ keeps answer job.now trace.now snapshot.now work.now seed }
{
    match answer {
        Err(_) => all_kept(trace, 0, snapshot, 0, work, 0, seed),
        Ok(ending) => {
            let entries = 7 * (ending.turns as usize);
            let shown = snapshot_size(job, snapshot);
            is_cleared(work) && all_kept(trace, entries, snapshot, shown, work, CLEARED, seed)
        }
    }
}
