// How the turns of a run are given; the turns of an accepted job are its last commands, 2 bytes each.
ghost use Rattle.std.specs.Prelude.{◌≡◌, None, true, false};
ghost use Rattle.job.specs.Prepared.{turn_in};
ghost use Rattle.job.specs.Scheduling.{budget_refusal, turns_by};

use command::bytes;
use command::numbers::NodeNum;
use declared::count_of;

// How the turns of a run are given: as the TURN commands of the job, or chosen by the dispatcher (S-2), with a budget of turns. Two names and
// no `Option` of a budget: claims go by them (`SecretCallsHold`). That a budget passed test 13 stays a clause (`budget_refusal`): the entry points
// take any.
#[derive(Clone, Copy)]
pub enum Schedule {
    Written,
    Dispatched(u64),
}

// What a run is asked to be: how its turns are given, and monitored (01's "watched") or unmonitored ("bare").
#[derive(Clone, Copy)]
pub struct Order {
    pub schedule: Schedule,
    pub monitored: bool,
}

impl Schedule {
    // A monitored run, its turns given in this way.
    pub fn monitored(self) -> Order
        ensures schedule { result.schedule ≡ self }
        ensures monitored { result.monitored ≡ true }
    {
        Order {
            schedule: self,
            monitored: true,
        }
    }

    // An unmonitored run, its turns given in this way.
    pub fn unmonitored(self) -> Order
        ensures schedule { result.schedule ≡ self }
        ensures monitored { result.monitored ≡ false }
    {
        Order {
            monitored: false,
            ..self.monitored()
        }
    }
}

// The node of turn k, counted from 0, of the job that the tables stand for; node 0 after the last turn.
pub fn turn_at(job: &[u8], tables: &[u32], k: u32) -> NodeNum
    ensures { result.0 ≡ turn_in job.now tables.now k }
{
    let count = count_of(tables, bytes::TURN) as usize;
    let first = job.len().saturating_sub(2 * count);
    let at = first + 2 * (k as usize) + 1;
    NodeNum(u32::from(job.get(at).copied().unwrap_or(0)))
}

// How many turns a run may make: those of the job that the tables stand for, or the budget.
pub fn turns_in(schedule: Schedule, tables: &[u32]) -> u32
    requires { budget_refusal schedule ≡ None }
    ensures { result ≡ turns_by schedule tables.now }
{
    match schedule {
        Schedule::Written => count_of(tables, bytes::TURN),
        Schedule::Dispatched(budget) => budget as u32,
    }
}
