// The entry points for programs in C and Rust (include/leqsumir.h): the answer as eight numbers, with the examined total as nine. Each name
// of the C interface has a function of its own.
ghost use Rattle.std.specs.Prelude.{◌≡◌};
ghost use Rattle.model.specs.Result.{trace_after, snapshot_after, work_after};
ghost use Rattle.run.specs.Answers.{told_by, told_in, monitored_with, unmonitored_with};
ghost use Rattle.run.specs.Answers.{monitored_under, unmonitored_under};
ghost use Rattle.run.specs.Exported.{numbers_in, numbers_with};

use crate::answer::Handed;
use crate::{dispatch_monitored, dispatch_unmonitored, run_monitored, run_unmonitored};
use command::refusal::Refusal;
use turns::ending::Ending;

// The numbers of an answer. No `From`: neither the `Result` nor the array is a type of this crate.
fn numbers_in(answer: Result<Ending, Refusal>) -> [u64; 8]
    ensures { result ≡ numbers_in (told_by answer) }
{
    match answer {
        Err(r) => {
            let number = u64::from(r.reason.number());
            [number, r.place as u64, 0, 0, 0, 0, 0, 0]
        }
        Ok(x) => {
            let e = x.attempted();
            [
                0,
                0,
                u64::from(x.stop()),
                u64::from(x.turns),
                u64::from(e.node),
                u64::from(e.kind),
                u64::from(e.number),
                u64::from(e.value),
            ]
        }
    }
}

// The numbers of an answer, and the examined total. No `From`: it is `numbers_in` with one number more.
fn numbers_with(handed: Handed) -> [u64; 9]
    ensures { result ≡ numbers_with (told_by handed.answer) handed.examined }
{
    let [refusal, place, stop, turns, node, kind, number, value] = numbers_in(handed.answer);
    let examined = u64::from(handed.examined);
    [
        refusal, place, stop, turns, node, kind, number, value, examined,
    ]
}

// The monitored run (01's "watched").
pub fn leqsumir_run_monitored(
    job: &[u8],
    trace: &mut [u8],
    snapshot: &mut [u8],
    work: &mut [u8],
    answer: &mut [u64; 8],
)
    ensures told { answer.new ≡ numbers_in
        (told_in (monitored_with job.now trace.old snapshot.old work.old)) }
    ensures trace { trace.new ≡ trace_after
        (monitored_with job.now trace.old snapshot.old work.old) trace.old }
    ensures snapshot { snapshot.new ≡ snapshot_after
        (monitored_with job.now trace.old snapshot.old work.old) snapshot.old }
    ensures work { work.new ≡ work_after
        (monitored_with job.now trace.old snapshot.old work.old) work.old }
{
    *answer = numbers_in(run_monitored(job, trace, snapshot, work));
}

// The unmonitored run (01's "bare").
pub fn leqsumir_run_unmonitored(
    job: &[u8],
    trace: &mut [u8],
    snapshot: &mut [u8],
    work: &mut [u8],
    answer: &mut [u64; 8],
)
    ensures told { answer.new ≡ numbers_in
        (told_in (unmonitored_with job.now trace.old snapshot.old work.old)) }
    ensures trace { trace.new ≡ trace_after
        (unmonitored_with job.now trace.old snapshot.old work.old) trace.old }
    ensures snapshot { snapshot.new ≡ snapshot_after
        (unmonitored_with job.now trace.old snapshot.old work.old) snapshot.old }
    ensures work { work.new ≡ work_after
        (unmonitored_with job.now trace.old snapshot.old work.old) work.old }
{
    *answer = numbers_in(run_unmonitored(job, trace, snapshot, work));
}

// The monitored run (01's "watched") of a job without TURN commands, its turns dispatched with a budget (S-2).
pub fn leqsumir_dispatch_monitored(
    job: &[u8],
    budget: u64,
    trace: &mut [u8],
    snapshot: &mut [u8],
    work: &mut [u8],
    answer: &mut [u64; 9],
)
    ensures told { answer.new ≡ numbers_with
        (told_in (monitored_under budget job.now trace.old snapshot.old work.old).result)
        (monitored_under budget job.now trace.old snapshot.old work.old).examined }
    ensures trace { trace.new ≡ trace_after
        (monitored_under budget job.now trace.old snapshot.old work.old).result
        trace.old }
    ensures snapshot { snapshot.new ≡ snapshot_after
        (monitored_under budget job.now trace.old snapshot.old work.old).result
        snapshot.old }
    ensures work { work.new ≡ work_after
        (monitored_under budget job.now trace.old snapshot.old work.old).result
        work.old }
{
    *answer = numbers_with(dispatch_monitored(job, budget, trace, snapshot, work));
}

// The unmonitored run (01's "bare") of a job without TURN commands, its turns dispatched with a budget.
pub fn leqsumir_dispatch_unmonitored(
    job: &[u8],
    budget: u64,
    trace: &mut [u8],
    snapshot: &mut [u8],
    work: &mut [u8],
    answer: &mut [u64; 9],
)
    ensures told { answer.new ≡ numbers_with
        (told_in (unmonitored_under budget job.now trace.old snapshot.old work.old).result)
        (unmonitored_under budget job.now trace.old snapshot.old work.old).examined }
    ensures trace { trace.new ≡ trace_after
        (unmonitored_under budget job.now trace.old snapshot.old work.old).result
        trace.old }
    ensures snapshot { snapshot.new ≡ snapshot_after
        (unmonitored_under budget job.now trace.old snapshot.old work.old).result
        snapshot.old }
    ensures work { work.new ≡ work_after
        (unmonitored_under budget job.now trace.old snapshot.old work.old).result
        work.old }
{
    *answer = numbers_with(dispatch_unmonitored(job, budget, trace, snapshot, work));
}
