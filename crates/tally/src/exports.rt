// The entry point for programs in C and Rust (include/leqsumir.h): what is told as three numbers.
ghost use Rattle.std.specs.Prelude.{◌≡◌};
ghost use Rattle.model.specs.Refusal.{decode_job};
ghost use Rattle.tally.specs.Tallies.{answered_by, numbers_told, tally_told, tallies_after};

use crate::{COUNTS, tally};
use command::refusal::Refusal;

// The numbers of an answer. No `From`: neither the `Result` nor the array is a type of this crate.
fn numbers_told(answer: Result<u32, Refusal>) -> [u64; 3]
    ensures { result ≡ numbers_told (answered_by answer) }
{
    match answer {
        Ok(nodes) => [0, 0, u64::from(nodes)],
        Err(r) => [u64::from(r.reason.number()), r.place as u64, 0],
    }
}

// The tally (S-12) of a run of a job, by the number of its turns, its trace and its snapshot (01's "picture"): four counts a node.
pub fn leqsumir_tally(
    job: &[u8],
    turns: u64,
    trace: &[u8],
    snapshot: &[u8],
    counts: &mut [u64; COUNTS],
    answer: &mut [u64; 3],
)
    ensures told { answer.new ≡ tally_told (decode_job job.now) }
    ensures counts { counts.new ≡ tallies_after (decode_job job.now) turns
        trace.now snapshot.now counts.old }
{
    *answer = numbers_told(tally(job, turns, trace, snapshot, counts));
}
