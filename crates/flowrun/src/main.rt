// Reads a job from standard input, runs it monitored (01's "watched"), or unmonitored with the last argument `bare`, and prints the lines
// of its run. With the arguments `dispatch` and a budget its turns are dispatched (S-2), and the last line is the examined total.
#![tactic(auto)]

ghost use Rattle.std.specs.Prelude.{◌≤◌, ◌≡◌, IfOk, length};
ghost use Rattle.model.specs.Refusal.{sizes, snapshot_size, work_size};
ghost use Rattle.writing.specs.Writing.{Writes};
ghost use Rattle.run.specs.Answers.{handed_for};
ghost use Rattle.flowrun.specs.Numbers.{number_as};
ghost use Rattle.printing.specs.Printing.{lines_by, text_size};

use job::buffers::{SNAPSHOT, WORK};
use job::schedule::{Order, Schedule};
use printing::{TEXT, run_to_text};
use std::env::{Env, FillError};
use std::io;
use std::io::{Eprint, Print, Read};

// The bytes that are read at most: one more than a job may have, so that a longer one is refused for its length.
const JOB: usize = 16385;

// The bytes of the trace buffer: 7 for each of 4,096 turns.
const TRACE: usize = 28672;

// The words that the arguments may be, besides a budget.
const BARE: &[u8] = b"bare";

const DISPATCH: &[u8] = b"dispatch";

// The digits that a budget may have at most.
const DIGITS: usize = 9;

// The number that the digits of a word are; none if there are no digits, too many, or another byte among them. This is no `parse`, which
// takes a `+` before the digits, and a word's bytes only as a `str`: with both seen to before, it would be no plainer.
fn number_in(word: &[u8]) -> Option<u64>
    ensures { result ≡ number_as word.now }
{
    if word.is_empty() || DIGITS < word.len() {
        return None;
    }
    let mut value: u64 = 0;
    for digit in word {
        if !digit.is_ascii_digit() {
            return None;
        }
        value = value * 10 + u64::from(*digit - b'0');
    }
    Some(value)
}

// How many arguments there are, the program's name among them.
fn argument_count(arguments: &impl Env) -> usize {
    (0..usize::MAX)
        .find(|&i| matches!(arguments.arg(i, &mut [0u8; 1]), Err(FillError::NotPresent)))
        .unwrap_or(usize::MAX)
}

// Copies an argument to the front of a room, and answers it; the empty word if it is missing or longer than the room.
fn argument<'a>(arguments: &impl Env, at: usize, room: &'a mut [u8]) -> &'a [u8]
    ensures { length result.now ≤ length room.old }
{
    let size = arguments.arg(at, room).unwrap_or(0);
    &room[..size]
}

// The run with its turns given in this way: monitored if no argument is left from the next one on, unmonitored if `bare` alone is left.
fn asked_after(
    arguments: &impl Env,
    schedule: Schedule,
    next: usize,
    count: usize,
) -> Option<Order> {
    let mut room = [0u8; 8];
    let monitored = match count.saturating_sub(next) {
        0 => true,
        1 if argument(arguments, next, &mut room) == BARE => false,
        _ => return None,
    };
    Some(Order {
        schedule,
        monitored,
    })
}

// What the arguments ask for: turns as written, or with `dispatch` and a budget dispatched ones.
fn asked(arguments: &impl Env) -> Option<Order> {
    let count = argument_count(arguments);
    let mut room = [0u8; 16];
    if argument(arguments, 1, &mut room) != DISPATCH {
        return asked_after(arguments, Schedule::Written, 1, count);
    }
    let budget = number_in(argument(arguments, 2, &mut room))?;
    asked_after(arguments, Schedule::Dispatched(budget), 3, count)
}

// Reads to the front of a buffer, until the buffer is full, the input ends or a read fails. This is no `read_exact`, which does not say how
// many bytes it has read where the input ends before the buffer is full. It is not one loop with `conformance`'s `read_full`, to which an
// ended input and a failed read are both none.
fn read_job(reader: &mut impl Read, job: &mut [u8]) -> io::Result<usize>
    ensures { IfOk result (λ size. size ≤ length job.old) }
{
    let mut size: usize = 0;
    while size < job.len() {
        let count = reader.read(&mut job[size..])?;
        if count == 0 {
            break;
        }
        size += count;
    }
    Ok(size)
}

// Puts the lines of a job's run at the front of the text, and answers the place after them.
fn put_lines(text: &mut [u8; TEXT], job: &[u8], order: Order) -> usize
    ensures end { result ≤ text_size }
    ensures text { Writes
        (lines_by order.schedule job.now
        (handed_for order.schedule order.monitored job.now (sizes 28672 snapshot_size work_size)))
        text.old 0 text.new result }
{
    let mut trace = [0u8; TRACE];
    let mut snapshot = [0u8; SNAPSHOT];
    let mut work = [0u8; WORK];
    let printed = run_to_text(text, 0, job, order, &mut trace, &mut snapshot, &mut work);
    printed.map_or(0, |run| run.end)
}

// Says on standard error why there are no lines. Where even that cannot be written, nothing is left to say.
fn complain(rt: &impl Eprint, message: &str) {
    let _ = rt.eprintln(message);
}

// Prints the lines of a job's run.
fn print_lines(rt: &(impl Print + Eprint), job: &[u8], order: Order) {
    let mut text = [0u8; TEXT];
    let end = put_lines(&mut text, job, order);
    if rt.write_all(&text[..end]).is_err() {
        complain(rt, "flowrun: cannot write the lines");
    }
}

// Runs the job that the reader gives and prints its lines.
fn print(rt: &(impl Print + Eprint), reader: &mut impl Read, order: Order) {
    let mut job = [0u8; JOB];
    match read_job(reader, &mut job) {
        Ok(size) => print_lines(rt, &job[..size], order),
        Err(_) => complain(rt, "flowrun: cannot read the job"),
    }
}

fn main(rt: HostRuntime) {
    match asked(&rt) {
        Some(order) => print(&rt, &mut rt.stdin(), order),
        None => complain(&rt, "usage: flowrun [dispatch BUDGET] [bare]"),
    }
}
