// The run of a job with its buffers, monitored (01's "watched") or unmonitored ("bare"), its turns as written or dispatched (S-2): any
// bytes, any buffers and any budget are allowed.
#![tactic(auto)]

pub mod answer;
pub mod exports;

ghost use Rattle.std.specs.Prelude.{◌≡◌};
ghost use Rattle.model.specs.Result.{sizes_of, trace_after, snapshot_after, work_after};
ghost use Rattle.run.specs.Answers.{told_by, told_in, buffers, handed_with, monitored_with, unmonitored_with};
ghost use Rattle.run.specs.Answers.{monitored_under, unmonitored_under};
ghost use Rattle.run.specs.Delivered.{AcceptedWith, DeliversRun};

use answer::Handed;
use command::refusal::Refusal;
use handlers::load::load;
use job::buffers::{Lengths, WORK, judge};
use job::schedule::{Order, Schedule};
use tables::cells::CELLS;
use turns::ending::{CountedEnding, Ending};
use turns::run_turns;
use writing::put_zeros;

// The run of an accepted job: how it ended and what was examined; its trace and its snapshot (01's "picture") at the front of their
// buffers, zeros at that of the work buffer.
fn run_accepted(
    job: &[u8],
    order: Order,
    tables: &[u32; CELLS],
    trace: &mut [u8],
    snapshot: &mut [u8],
    work: &mut [u8],
) -> CountedEnding
    requires { AcceptedWith order.schedule job.now tables.now (sizes_of (buffers trace.old snapshot.old work.old)) }
    ensures { DeliversRun order.schedule order.monitored job.now
        (buffers trace.old snapshot.old work.old)
        (buffers trace.new snapshot.new work.new) result }
{
    load(job, work);
    let made = run_turns(job, tables, work, order, trace, snapshot);
    put_zeros(work, WORK);
    made
}

// The run of any job with any buffers, as an order asks for it. A bool of it says by which rule, and no closure: the definitions choose by
// it too (`rule_of`). Trace, snapshot and work buffer go one by one, as C hands them over.
pub fn run(
    job: &[u8],
    order: Order,
    trace: &mut [u8],
    snapshot: &mut [u8],
    work: &mut [u8],
) -> Handed
    ensures told { told_by result.answer ≡ told_in
        (handed_with order.schedule order.monitored job.now trace.old snapshot.old work.old).result }
    ensures examined { result.examined ≡
        (handed_with order.schedule order.monitored job.now trace.old snapshot.old work.old).examined }
    ensures trace { trace.new ≡ trace_after
        (handed_with order.schedule order.monitored job.now trace.old snapshot.old work.old).result
        trace.old }
    ensures snapshot { snapshot.new ≡ snapshot_after
        (handed_with order.schedule order.monitored job.now trace.old snapshot.old work.old).result
        snapshot.old }
    ensures work { work.new ≡ work_after
        (handed_with order.schedule order.monitored job.now trace.old snapshot.old work.old).result
        work.old }
{
    let lengths = Lengths {
        trace: trace.len(),
        snapshot: snapshot.len(),
        work: work.len(),
    };
    let mut tables = [0u32; CELLS];
    if let Err(refusal) = judge(job, order.schedule, &mut tables, lengths) {
        return Handed {
            answer: Err(refusal),
            examined: 0,
        };
    }
    let made = run_accepted(job, order, &tables, trace, snapshot, work);
    Handed {
        answer: Ok(made.ending),
        examined: made.examined,
    }
}

// The monitored run (01's "watched"). The four entry points differ in a word: they are the names that README gives and C calls.
pub fn run_monitored(
    job: &[u8],
    trace: &mut [u8],
    snapshot: &mut [u8],
    work: &mut [u8],
) -> Result<Ending, Refusal>
    ensures told { told_by result ≡
        told_in (monitored_with job.now trace.old snapshot.old work.old) }
    ensures trace { trace.new ≡ trace_after
        (monitored_with job.now trace.old snapshot.old work.old) trace.old }
    ensures snapshot { snapshot.new ≡ snapshot_after
        (monitored_with job.now trace.old snapshot.old work.old) snapshot.old }
    ensures work { work.new ≡ work_after
        (monitored_with job.now trace.old snapshot.old work.old) work.old }
{
    run(job, Schedule::Written.monitored(), trace, snapshot, work).answer
}

// The unmonitored run (01's "bare").
pub fn run_unmonitored(
    job: &[u8],
    trace: &mut [u8],
    snapshot: &mut [u8],
    work: &mut [u8],
) -> Result<Ending, Refusal>
    ensures told { told_by result ≡
        told_in (unmonitored_with job.now trace.old snapshot.old work.old) }
    ensures trace { trace.new ≡ trace_after
        (unmonitored_with job.now trace.old snapshot.old work.old) trace.old }
    ensures snapshot { snapshot.new ≡ snapshot_after
        (unmonitored_with job.now trace.old snapshot.old work.old) snapshot.old }
    ensures work { work.new ≡ work_after
        (unmonitored_with job.now trace.old snapshot.old work.old) work.old }
{
    run(job, Schedule::Written.unmonitored(), trace, snapshot, work).answer
}

// The monitored run (01's "watched") of a job without TURN commands, its turns dispatched with a budget.
pub fn dispatch_monitored(
    job: &[u8],
    budget: u64,
    trace: &mut [u8],
    snapshot: &mut [u8],
    work: &mut [u8],
) -> Handed
    ensures told { told_by result.answer ≡
        told_in (monitored_under budget job.now trace.old snapshot.old work.old).result }
    ensures examined { result.examined ≡
        (monitored_under budget job.now trace.old snapshot.old work.old).examined }
    ensures trace { trace.new ≡ trace_after
        (monitored_under budget job.now trace.old snapshot.old work.old).result
        trace.old }
    ensures snapshot { snapshot.new ≡ snapshot_after
        (monitored_under budget job.now trace.old snapshot.old work.old).result
        snapshot.old }
    ensures work { work.new ≡ work_after
        (monitored_under budget job.now trace.old snapshot.old work.old).result
        work.old }
{
    let schedule = Schedule::Dispatched(budget);
    run(job, schedule.monitored(), trace, snapshot, work)
}

// The unmonitored run (01's "bare") of a job without TURN commands, its turns dispatched with a budget.
pub fn dispatch_unmonitored(
    job: &[u8],
    budget: u64,
    trace: &mut [u8],
    snapshot: &mut [u8],
    work: &mut [u8],
) -> Handed
    ensures told { told_by result.answer ≡
        told_in (unmonitored_under budget job.now trace.old snapshot.old work.old).result }
    ensures examined { result.examined ≡
        (unmonitored_under budget job.now trace.old snapshot.old work.old).examined }
    ensures trace { trace.new ≡ trace_after
        (unmonitored_under budget job.now trace.old snapshot.old work.old).result
        trace.old }
    ensures snapshot { snapshot.new ≡ snapshot_after
        (unmonitored_under budget job.now trace.old snapshot.old work.old).result
        snapshot.old }
    ensures work { work.new ≡ work_after
        (unmonitored_under budget job.now trace.old snapshot.old work.old).result
        work.old }
{
    let schedule = Schedule::Dispatched(budget);
    run(job, schedule.unmonitored(), trace, snapshot, work)
}
