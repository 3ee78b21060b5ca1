// The static library of the entry points, for programs in C and Rust (include/leqsumir.h): each calls the function of the same name in
// the crate run, and promises what that one does. One function for each name of the C interface.
#![tactic(auto)]

ghost use Rattle.std.specs.Prelude.{◌≡◌};
ghost use Rattle.model.specs.Result.{trace_after, snapshot_after, work_after};
ghost use Rattle.run.specs.Answers.{told_in, monitored_with, unmonitored_with};
ghost use Rattle.run.specs.Answers.{monitored_under, unmonitored_under};
ghost use Rattle.run.specs.Exported.{numbers_in, numbers_with};

use run::exports;

// The monitored run (01's "watched").
#[unsafe(no_mangle)]
pub extern "C" fn leqsumir_run_monitored(
    job: &[u8],
    trace: &mut [u8],
    snapshot: &mut [u8],
    work: &mut [u8],
    answer: &mut [u64; 8],
)
    ensures told { answer.new ≡ numbers_in
        (told_in (monitored_with job.now trace.old snapshot.old work.old)) }
    ensures trace { trace.new ≡ trace_after
        (monitored_with job.now trace.old snapshot.old work.old) trace.old }
    ensures snapshot { snapshot.new ≡ snapshot_after
        (monitored_with job.now trace.old snapshot.old work.old) snapshot.old }
    ensures work { work.new ≡ work_after
        (monitored_with job.now trace.old snapshot.old work.old) work.old }
{
    exports::leqsumir_run_monitored(job, trace, snapshot, work, answer);
}

// The unmonitored run (01's "bare").
#[unsafe(no_mangle)]
pub extern "C" fn leqsumir_run_unmonitored(
    job: &[u8],
    trace: &mut [u8],
    snapshot: &mut [u8],
    work: &mut [u8],
    answer: &mut [u64; 8],
)
    ensures told { answer.new ≡ numbers_in
        (told_in (unmonitored_with job.now trace.old snapshot.old work.old)) }
    ensures trace { trace.new ≡ trace_after
        (unmonitored_with job.now trace.old snapshot.old work.old) trace.old }
    ensures snapshot { snapshot.new ≡ snapshot_after
        (unmonitored_with job.now trace.old snapshot.old work.old) snapshot.old }
    ensures work { work.new ≡ work_after
        (unmonitored_with job.now trace.old snapshot.old work.old) work.old }
{
    exports::leqsumir_run_unmonitored(job, trace, snapshot, work, answer);
}

// The monitored run (01's "watched") of a job without TURN commands, its turns dispatched with a budget (S-2).
#[unsafe(no_mangle)]
pub extern "C" fn leqsumir_dispatch_monitored(
    job: &[u8],
    budget: u64,
    trace: &mut [u8],
    snapshot: &mut [u8],
    work: &mut [u8],
    answer: &mut [u64; 9],
)
    ensures told { answer.new ≡ numbers_with
        (told_in (monitored_under budget job.now trace.old snapshot.old work.old).result)
        (monitored_under budget job.now trace.old snapshot.old work.old).examined }
    ensures trace { trace.new ≡ trace_after
        (monitored_under budget job.now trace.old snapshot.old work.old).result
        trace.old }
    ensures snapshot { snapshot.new ≡ snapshot_after
        (monitored_under budget job.now trace.old snapshot.old work.old).result
        snapshot.old }
    ensures work { work.new ≡ work_after
        (monitored_under budget job.now trace.old snapshot.old work.old).result
        work.old }
{
    exports::leqsumir_dispatch_monitored(job, budget, trace, snapshot, work, answer);
}

// The unmonitored run (01's "bare") of a job without TURN commands, its turns dispatched with a budget.
#[unsafe(no_mangle)]
pub extern "C" fn leqsumir_dispatch_unmonitored(
    job: &[u8],
    budget: u64,
    trace: &mut [u8],
    snapshot: &mut [u8],
    work: &mut [u8],
    answer: &mut [u64; 9],
)
    ensures told { answer.new ≡ numbers_with
        (told_in (unmonitored_under budget job.now trace.old snapshot.old work.old).result)
        (unmonitored_under budget job.now trace.old snapshot.old work.old).examined }
    ensures trace { trace.new ≡ trace_after
        (unmonitored_under budget job.now trace.old snapshot.old work.old).result
        trace.old }
    ensures snapshot { snapshot.new ≡ snapshot_after
        (unmonitored_under budget job.now trace.old snapshot.old work.old).result
        snapshot.old }
    ensures work { work.new ≡ work_after
        (unmonitored_under budget job.now trace.old snapshot.old work.old).result
        work.old }
{
    exports::leqsumir_dispatch_unmonitored(job, budget, trace, snapshot, work, answer);
}
