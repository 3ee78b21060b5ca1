// The lines that a run prints, put into a text.
#![tactic(auto)]

pub mod answer;
mod snapshot;
pub mod tallies;
mod trace;

ghost use Rattle.std.specs.Prelude.{◌+◌, ◌*◌, ◌≤◌, length};
ghost use Rattle.writing.specs.Writing.{Writes};
ghost use Rattle.output.specs.Finding.{part_at};
ghost use Rattle.lines.specs.Lines.{answer_with, end_line, examined_line, run_lines, refused_line};

use answer::AnswerNumbers;
use snapshot::put_snapshot_lines;
use text::put_line;
use trace::put_entry_lines;

// Puts the line of a refusal: `refused`, number, place. The number is any number and no `Reason`, as a file keeps it.
pub fn put_refusal(text: &mut [u8], at: usize, number: u8, place: usize) -> usize
    requires { at + length (refused_line number place) ≤ length text.old }
    ensures { Writes (refused_line number place) text.old at text.new result }
{
    let numbers = [number as u64, place as u64];
    put_line(text, at, b"refused", &numbers)
}

// Puts the line of an answer: `end`, stop, turns, attempted entry.
fn put_end(text: &mut [u8], at: usize, answer: AnswerNumbers) -> usize
    requires { at + length (end_line (answer_with answer)) ≤ length text.old }
    ensures { Writes (end_line (answer_with answer)) text.old at text.new result }
{
    let x = answer.attempted;
    let numbers = [
        answer.stop as u64,
        answer.turns as u64,
        x.node as u64,
        x.kind as u64,
        x.number as u64,
        x.value as u64,
    ];
    put_line(text, at, b"end", &numbers)
}

// Puts the line of the examined total (S-2): `examined`, total.
pub fn put_examined(text: &mut [u8], at: usize, examined: u32) -> usize
    requires { at + length (examined_line examined) ≤ length text.old }
    ensures { Writes (examined_line examined) text.old at text.new result }
{
    let numbers = [examined as u64];
    put_line(text, at, b"examined", &numbers)
}

// Puts the lines of a run that left this trace and this snapshot (01's "picture"): entries, answer, nodes, variables. How many of these there
// are is handed over beside the snapshot: the job alone tells it. That the snapshot has the variables behind the parts stays a clause, for
// it may be any snapshot.
pub fn put_run(
    text: &mut [u8],
    at: usize,
    answer: AnswerNumbers,
    trace: &[u8],
    snapshot: &[u8],
    nodes: usize,
    variables: usize,
) -> usize
    requires turns_in_bounds { 7 * answer.turns ≤ length trace.now }
    requires variables_in_bounds { part_at snapshot.now nodes + 4 * variables ≤ length snapshot.now }
    requires variables_in_bounds_2 { at + length (run_lines (answer_with answer) trace.now snapshot.now nodes variables) ≤ length text.old }
    ensures { Writes (run_lines (answer_with answer) trace.now snapshot.now nodes variables) text.old at
        text.new result }
{
    let turns = answer.turns as usize;
    let end = put_entry_lines(text, at, trace, turns);
    let first = put_end(text, end, answer);
    put_snapshot_lines(text, first, snapshot, nodes, variables)
}
