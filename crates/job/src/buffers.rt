// All tests of a job with its buffers.
ghost use Rattle.std.specs.Prelude.{◌≡◌, List, ℕ, ◌<◌, length, None};
ghost use Rattle.model.specs.Command.{Command};
ghost use Rattle.model.specs.Declared.{count_of};
ghost use Rattle.model.specs.Table.{TURN};
ghost use Rattle.model.specs.Refusal.{accepted, decode_job, short_buffer_for};
ghost use Rattle.job.specs.Decoding.{verdict_of, Verdicts, Decides};
ghost use Rattle.job.specs.Scheduling.{sizes_as, budget_refusal, schedule_refusal, decode_by};

use crate::schedule::Schedule;
use crate::{judge_commands, settle};
use command::bytes;
use command::refusal::{Reason, Refusal};
use declared::count_of;
use tables::cells::CELLS;

// The lengths that the snapshot buffer (01's "picture buffer") and the work buffer must have.
pub const SNAPSHOT: usize = 3136;

pub const WORK: usize = 4096;

// The lengths of the three buffers of a run.
#[derive(Clone, Copy)]
pub struct Lengths {
    pub trace: usize,
    pub snapshot: usize,
    pub work: usize,
}

// The largest budget of turns (S-2).
const BUDGET: u64 = 4096;

// The tests 10 to 12: a job of this length, with buffers of these lengths, for so many turns.
fn check_buffers(size: usize, turns: usize, lengths: Lengths) -> Result<(), Refusal>
    requires { turns < 4294967296 }
    ensures { (job : List ℕ) → length job ≡ size → verdict_of result ≡ short_buffer_for job (sizes_as lengths) turns }
{
    let Lengths {
        trace,
        snapshot,
        work,
    } = lengths;
    if trace < 7 * turns {
        return Err(Refusal {
            reason: Reason::ShortTrace,
            place: size,
        });
    }
    if snapshot < SNAPSHOT {
        return Err(Refusal {
            reason: Reason::ShortSnapshot,
            place: size,
        });
    }
    if work < WORK {
        return Err(Refusal {
            reason: Reason::ShortWork,
            place: size,
        });
    }
    Ok(())
}

// Test 13 (S-2): a budget that is 0 or above 4,096.
fn check_budget(schedule: Schedule) -> Result<(), Refusal>
    ensures { verdict_of result ≡ budget_refusal schedule }
{
    match schedule {
        Schedule::Written | Schedule::Dispatched(1..=BUDGET) => Ok(()),
        Schedule::Dispatched(_) => Err(Refusal {
            reason: Reason::BadBudget,
            place: 0,
        }),
    }
}

// The tests 14 (S-2) and 10 to 12 of a job of this length with so many TURN commands, which are its last, with buffers of these lengths.
fn check_schedule(
    schedule: Schedule,
    size: usize,
    turns: u32,
    lengths: Lengths,
) -> Result<(), Refusal>
    requires { budget_refusal schedule ≡ None }
    ensures { (job : List ℕ) (past : List Command) → decode_job job ≡ accepted past → length job ≡ size → count_of TURN past ≡ turns
        → verdict_of result ≡ schedule_refusal schedule job (sizes_as lengths) past }
{
    match schedule {
        Schedule::Written => check_buffers(size, turns as usize, lengths),
        Schedule::Dispatched(budget) => {
            if turns != 0 {
                return Err(Refusal {
                    reason: Reason::WrittenTurn,
                    place: size.saturating_sub(2 * (turns as usize)),
                });
            }
            check_buffers(size, budget as usize, lengths)
        }
    }
}

// All tests, one after the other: the verdict, and the tables of an accepted job.
fn judge_all(
    job: &[u8],
    schedule: Schedule,
    tables: &mut [u32; CELLS],
    lengths: Lengths,
) -> Result<(), Refusal>
    ensures { Verdicts (decode_by schedule job.now (sizes_as lengths)) tables.new result }
{
    check_budget(schedule)?;
    judge_commands(job, tables)?;
    let turns = count_of(tables, bytes::TURN);
    check_schedule(schedule, job.len(), turns, lengths)
}

// The verdict on a job of any length, its turns given in either way, with buffers of any lengths, whatever the tables held before: an
// accepted job leaves its tables, a refused one blank ones.
pub fn judge(
    job: &[u8],
    schedule: Schedule,
    tables: &mut [u32; CELLS],
    lengths: Lengths,
) -> Result<(), Refusal>
    ensures { Decides (decode_by schedule job.now (sizes_as lengths)) tables.new result }
{
    let verdict = judge_all(job, schedule, tables, lengths);
    settle(verdict, tables)
}
