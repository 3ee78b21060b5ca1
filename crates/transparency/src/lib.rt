// Both runs of a job compared (01's "Watched beside bare"), each with buffers of its own.
#![tactic(auto)]

ghost use Rattle.run.specs.Answers.{told_by, buffers, call, Monitored, Unmonitored};
ghost use Rattle.transparency.specs.Claims.{Transparent};

use command::refusal::Refusal;
use run::{run_monitored, run_unmonitored};
use turns::ending::Ending;

// The two answers. If both runs accept the job, they part exactly if the monitored one ends with stop 1, and then after as many turns as
// it has completed.
#[derive(Clone, Copy)]
pub struct Both {
    pub monitored: Result<Ending, Refusal>,
    pub unmonitored: Result<Ending, Refusal>,
}

// The monitored run, and the unmonitored one. Their buffers are lent one by one, as the entry points take them.
pub fn run_both(
    job: &[u8],
    trace: &mut [u8],
    snapshot: &mut [u8],
    work: &mut [u8],
    unmonitored_trace: &mut [u8],
    unmonitored_snapshot: &mut [u8],
    unmonitored_work: &mut [u8],
) -> Both
    ensures monitored { Monitored job.now
        (call (buffers trace.old snapshot.old work.old)
        (buffers trace.new snapshot.new work.new) (told_by result.monitored)) }
    ensures unmonitored { Unmonitored job.now
        (call (buffers unmonitored_trace.old unmonitored_snapshot.old unmonitored_work.old)
        (buffers unmonitored_trace.new unmonitored_snapshot.new unmonitored_work.new)
        (told_by result.unmonitored)) }
    ensures compared { Transparent job.now
        (call (buffers trace.old snapshot.old work.old)
        (buffers trace.new snapshot.new work.new) (told_by result.monitored))
        (call (buffers unmonitored_trace.old unmonitored_snapshot.old unmonitored_work.old)
        (buffers unmonitored_trace.new unmonitored_snapshot.new unmonitored_work.new)
        (told_by result.unmonitored)) }
{
    let monitored = run_monitored(job, trace, snapshot, work);
    let unmonitored = run_unmonitored(
        job,
        unmonitored_trace,
        unmonitored_snapshot,
        unmonitored_work,
    );
    Both {
        monitored,
        unmonitored,
    }
}
