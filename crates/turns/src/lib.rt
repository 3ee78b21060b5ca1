// The turns of a job, one after the other.
#![tactic(auto)]

pub mod ending;

ghost use Rattle.std.specs.Prelude.{◌≡◌, List, ◌*◌, ◌≤◌, length, None};
ghost use Rattle.model.specs.Table.{NODE, VAR, max_nodes, max_variables};
ghost use Rattle.model.specs.Command.{Command};
ghost use Rattle.model.specs.Program.{program_of};
ghost use Rattle.model.specs.Refusal.{accepted, decode_job, snapshot_size};
ghost use Rattle.tables.specs.Tables.{count_in};
ghost use Rattle.memory.specs.Queues.{BoundedCounts};
ghost use Rattle.memory.specs.Ready.{ready_count_in};
ghost use Rattle.job.specs.Scheduling.{budget_refusal, turns_by};
ghost use Rattle.chooser.specs.Choosing.{choice_of};
ghost use Rattle.writing.specs.Writing.{Writes};
ghost use Rattle.engine.specs.Engine.{view};
ghost use Rattle.output.specs.Written.{NarrowPositions, shown_bytes};
ghost use Rattle.turns.specs.Runs.{Loaded, choice_by, run_of, RunsAs};

use chooser::{Choice, choose};
use command::bytes;
use declared::count_of;
use ending::{CountedEnding, Ending, Halt};
use engine::{State, start};
use handlers::fetch::fetch;
use job::schedule::{Order, Schedule, turn_at, turns_in};
use output::numbers::Numbers;
use output::snapshot::put_snapshot;
use output::trace::put_entry;

// Whose turn k is: the node of the job's TURN k, for which nobody is examined, or the dispatcher's choice, going round from a number on; the
// ready count tells whether there is one.
fn choice_of(
    job: &[u8],
    tables: &[u32],
    schedule: Schedule,
    k: u32,
    from: u32,
    state: &State,
) -> Choice
    requires tables_bound { count_in tables.now NODE ≤ 32 }
    requires from_bound { from ≤ count_in tables.now NODE }
    requires ready_value { state.now.ready ≡ ready_count_in state.now.position state.now.waiting (count_in tables.now NODE) }
    ensures { choice_of result ≡ choice_by schedule job.now tables.now k from state.now.position state.now.waiting }
{
    match schedule {
        Schedule::Written => Choice {
            node: Some(turn_at(job, tables, k)),
            examined: 0,
        },
        Schedule::Dispatched(_) => {
            let nodes = count_of(tables, bytes::NODE);
            choose(&state.position, &state.waiting, state.ready, nodes, from)
        }
    }
}

// Writes the snapshot (01's "picture") of a state: its declared nodes and variables. What is asked of state and tables stays in clauses:
// their types do not promise it.
fn put_state(snapshot: &mut [u8], state: &State, tables: &[u32]) -> usize
    requires room { snapshot_size ≤ length snapshot.old }
    requires few { (count_in tables.now NODE ≤ max_nodes) × (count_in tables.now VAR ≤ max_variables) }
    requires bounded_counts { BoundedCounts state.now.waiting }
    requires narrow_positions { NarrowPositions (view state.now) }
    ensures { Writes (shown_bytes (view state.now) (count_in tables.now NODE) (count_in tables.now VAR)) snapshot.old 0 snapshot.new result }
{
    let nodes = count_of(tables, bytes::NODE) as usize;
    let variables = count_of(tables, bytes::VAR) as usize;
    put_snapshot(snapshot, state, nodes, variables)
}

// The run of an accepted job from the start to its last turn or a stop, as an order asks for it: how it ended and what was examined,
// its entries in the trace, and the snapshot of its last state.
pub fn run_turns(
    job: &[u8],
    tables: &[u32],
    work: &[u8],
    order: Order,
    trace: &mut [u8],
    snapshot: &mut [u8],
) -> CountedEnding
    requires loaded { Loaded job.now tables.now work.now }
    requires schedule_value { budget_refusal order.schedule ≡ None }
    requires tables_in_bounds { (7 * turns_by order.schedule tables.now ≤ length trace.old) × (snapshot_size ≤ length snapshot.old) }
    ensures { (past : List Command) → decode_job job.now ≡ accepted past
        → RunsAs (program_of past) (run_of order.schedule order.monitored past) trace.old snapshot.old
        trace.new snapshot.new result }
{
    let mut state = start(tables);
    let mut halt = Halt::RanOut;
    let mut turns: u32 = 0;
    let mut examined: u32 = 0;
    let mut from: u32 = 0;
    let mut at: usize = 0;
    let last = turns_in(order.schedule, tables);
    for k in 0..last {
        let choice = choice_of(job, tables, order.schedule, k, from, &state);
        examined += choice.examined;
        let Some(n) = choice.node else {
            halt = Halt::NobodyReady;
            break;
        };
        from = n.0 + 1;
        let fetched = fetch(job, tables, work, n, state.position[n.0 as usize]);
        let turned = state.turn(tables, fetched, n, order.monitored);
        state = turned.state;
        match turned.outcome {
            Ok(entry) => {
                at = put_entry(trace, at, Numbers::from(entry));
                turns += 1;
            }
            Err(stop) => {
                halt = Halt::Stopped(stop);
                break;
            }
        }
    }
    let ending = Ending { halt, turns };
    put_state(snapshot, &state, tables);
    CountedEnding { ending, examined }
}
