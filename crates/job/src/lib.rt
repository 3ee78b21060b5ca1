// The tests of a job: the walk over all commands, the jumps and the unused permissions, the buffers; and the turns of an accepted job.
#![tactic(auto)]

pub mod buffers;
mod later;
pub mod schedule;
mod walk;

ghost use Rattle.std.specs.Prelude.{◌≡◌, cond, is_ok};
ghost use Rattle.model.specs.Refusal.{decode_job};
ghost use Rattle.tables.specs.Cells.{blank};
ghost use Rattle.job.specs.Decoding.{Verdicts, Decides};

use command::refusal::Refusal;
use later::check_later;
use tables::cells::{CELLS, clear};
use walk::walk;

// The tests 1 to 9, 15 and 19: the verdict on a job, accepted or refused, and the tables of an accepted one.
fn judge_commands(job: &[u8], tables: &mut [u32; CELLS]) -> Result<(), Refusal>
    ensures { Verdicts (decode_job job.now) tables.new result }
{
    let mut uses = [0; uses::CELLS];
    walk(job, tables, &mut uses)?;
    check_later(job, tables, &uses)
}

// Hands a verdict on, and leaves blank tables where it is a refusal.
fn settle(verdict: Result<(), Refusal>, tables: &mut [u32; CELLS]) -> Result<(), Refusal>
    ensures same { result ≡ verdict }
    ensures cleared { tables.new ≡ cond (is_ok verdict) tables.old blank }
{
    if verdict.is_err() {
        clear(tables);
    }
    verdict
}

// The verdict on a job of any length, whatever the tables held before: an accepted job leaves its tables, a refused one blank ones.
pub fn decode(job: &[u8], tables: &mut [u32; CELLS]) -> Result<(), Refusal>
    ensures { Decides (decode_job job.now) tables.new result }
{
    let verdict = judge_commands(job, tables);
    settle(verdict, tables)
}
