// A job that is run, and the lines of its run.
#![tactic(auto)]

ghost use Rattle.std.specs.Prelude.{◌+◌, ◌*◌, ◌≤◌, ◌≡◌, cond, length, Some, None};
ghost use Rattle.model.specs.Table.{max_nodes};
ghost use Rattle.model.specs.Refusal.{decode_job, IsAccepted};
ghost use Rattle.model.specs.Result.{trace_after, snapshot_after, work_after};
ghost use Rattle.run.specs.Answers.{handed_with};
ghost use Rattle.writing.specs.Writing.{Writes, placed};
ghost use Rattle.tables.specs.Programs.{Handlers, program_in};
ghost use Rattle.turns.specs.Endings.{answer_of};
ghost use Rattle.output.specs.Finding.{part_at};
ghost use Rattle.printing.specs.Printing.{nodes_in, variables_in, tally_lines, ended_lines, total_lines, lines_by};
ghost use Rattle.printing.specs.Printing.{text_size, has_room, said_by, said_of, place_after};

use command::bytes;
use command::refusal::Refusal;
use declared::count_of;
use job::decode;
use job::schedule::{Order, Schedule};
use lines::answer::AnswerNumbers;
use lines::tallies::put_tally_lines;
use lines::{put_examined, put_refusal, put_run};
use run::run;
use tables::cells::CELLS;
use tally::{COUNTS, put_counts};
use turns::ending::Ending;

// Bytes of text that are enough for the lines of every run.
pub const TEXT: usize = 131072;

// A run that is printed: the place after its lines, and its answer.
#[derive(Clone, Copy)]
pub struct Printed {
    pub end: usize,
    pub answer: Result<Ending, Refusal>,
}

// Puts the lines of the tallies of the first nodes (S-12). That there are at most 32 stays a clause: any number may be asked for.
fn put_tallies(
    text: &mut [u8],
    at: usize,
    tables: &[u32],
    turns: u64,
    trace: &[u8],
    snapshot: &[u8],
    nodes: usize,
) -> usize
    requires nodes_le_max_nodes { nodes ≤ max_nodes }
    requires nodes_in_bounds { (hs : Handlers) → at + length
        (tally_lines (program_in tables.now hs) turns trace.now snapshot.now nodes) ≤ length text.old }
    ensures { (hs : Handlers) → Writes
        (tally_lines (program_in tables.now hs) turns trace.now snapshot.now nodes)
        text.old at text.new result }
{
    let mut counts = [0u64; COUNTS];
    put_counts(&mut counts, tables, turns, trace, snapshot, nodes);
    put_tally_lines(text, at, &counts, nodes)
}

// Puts the lines of the run of an accepted job, which says how many nodes and variables the snapshot shows, and those of its tallies.
fn put_ended(
    text: &mut [u8],
    at: usize,
    ending: Ending,
    job: &[u8],
    trace: &[u8],
    snapshot: &[u8],
) -> usize
    requires accepted { IsAccepted (decode_job job.now) }
    requires turns_in_bounds { 7 * ending.turns ≤ length trace.now }
    requires job_in_bounds { part_at snapshot.now (nodes_in job.now) + 4 * variables_in job.now ≤ length snapshot.now }
    requires snapshot_in_bounds { at + length (ended_lines job.now (answer_of ending) trace.now snapshot.now) ≤ length text.old }
    ensures { Writes
        (ended_lines job.now (answer_of ending) trace.now snapshot.now)
        text.old at text.new result }
{
    let mut tables = [0u32; CELLS];
    let _ = decode(job, &mut tables);
    let nodes = count_of(&tables, bytes::NODE) as usize;
    let variables = count_of(&tables, bytes::VAR) as usize;
    let turns = u64::from(ending.turns);
    let answer = AnswerNumbers::from(ending);
    let next = put_run(text, at, answer, trace, snapshot, nodes, variables);
    put_tallies(text, next, &tables, turns, trace, snapshot, nodes)
}

// Puts the line of the examined total, if the turns were dispatched.
fn put_total(text: &mut [u8], at: usize, schedule: Schedule, examined: u32) -> usize
    requires { at + length (total_lines schedule examined) ≤ length text.old }
    ensures { Writes (total_lines schedule examined) text.old at text.new result }
{
    match schedule {
        Schedule::Written => at,
        Schedule::Dispatched(_) => put_examined(text, at, examined),
    }
}

// Whether a text has room from a place on for what any run prints.
fn has_room(text: &[u8], at: usize) -> bool
    ensures { result ≡ has_room text.now at }
{
    TEXT <= text.len().saturating_sub(at)
}

// Runs a job as an order asks for it, and puts the lines of its run into the text. If the text has no room for what a run may print, it
// answers None, and nothing is run or changed. Trace, snapshot and work buffer are lent one by one, as `run` takes them.
pub fn run_to_text(
    text: &mut [u8],
    at: usize,
    job: &[u8],
    order: Order,
    trace: &mut [u8],
    snapshot: &mut [u8],
    work: &mut [u8],
) -> Option<Printed>
    ensures end { place_after at result ≤ at + text_size }
    ensures answer { said_by result ≡ cond (has_room text.old at)
        (Some (said_of at order.schedule job.now
        (handed_with order.schedule order.monitored job.now trace.old snapshot.old work.old))) None }
    ensures text { text.new ≡ cond (has_room text.old at)
        (placed text.old at (lines_by order.schedule job.now
        (handed_with order.schedule order.monitored job.now trace.old snapshot.old work.old)))
        text.old }
    ensures trace { trace.new ≡ cond (has_room text.old at)
        (trace_after
        (handed_with order.schedule order.monitored job.now trace.old snapshot.old work.old).result
        trace.old) trace.old }
    ensures snapshot { snapshot.new ≡ cond (has_room text.old at)
        (snapshot_after
        (handed_with order.schedule order.monitored job.now trace.old snapshot.old work.old).result
        snapshot.old) snapshot.old }
    ensures work { work.new ≡ cond (has_room text.old at)
        (work_after
        (handed_with order.schedule order.monitored job.now trace.old snapshot.old work.old).result
        work.old) work.old }
{
    if !has_room(text, at) {
        return None;
    }
    let handed = run(job, order, trace, snapshot, work);
    let answer = handed.answer;
    match answer {
        Err(refusal) => {
            let number = refusal.reason.number();
            let end = put_refusal(text, at, number, refusal.place);
            Some(Printed { end, answer })
        }
        Ok(ending) => {
            let next = put_ended(text, at, ending, job, trace, snapshot);
            let end = put_total(text, next, order.schedule, handed.examined);
            Some(Printed { end, answer })
        }
    }
}
