// Runs the jobs on standard input one after the other, and prints for each the lines of its run, then `kept` if the run left every other
// byte of its buffers as it was and its work buffer cleared, else `changed`. After some runs it changes a byte itself, in the stored runs
// one that the run has to keep or to clear: then `changed` has to be printed.
#![tactic(auto)]

mod buffers;
mod input;

ghost use Rattle.std.specs.Prelude.{◌+◌, ◌≤◌, length};
ghost use Rattle.writing.specs.Writing.{Writes};
ghost use Rattle.conformance.specs.Keeping.{verdict_line};

use buffers::{change_one, fill_all, kept};
use input::{Head, LONGEST_JOB, LONGEST_SNAPSHOT, LONGEST_TRACE, LONGEST_WORK, read_run};
use printing::{Printed, run_to_text};
use std::io::{Print, Read};
use writing::put_all;

// The bytes of text of one run at most, and of all that wait to be written.
const LINES: usize = 131080;

const TEXT: usize = 262144;

// Puts the line that says whether a run kept its buffers.
fn put_verdict(text: &mut [u8], at: usize, keeps: bool) -> usize
    requires { at + 8 ≤ length text.old }
    ensures { Writes (verdict_line keeps) text.old at text.new result }
{
    if keeps {
        put_all(text, at, b"kept\n")
    } else {
        put_all(text, at, b"changed\n")
    }
}

// Fills the buffers, runs a job with them, changes a byte if the head asks for it, puts the run's lines and the line that says whether the
// buffers were kept, and answers the place after them. Trace, snapshot and work buffer are lent one by one, here and in `buffers`, as
// `run_to_text` takes them.
fn conform(
    head: Head,
    job: &[u8],
    trace: &mut [u8],
    snapshot: &mut [u8],
    work: &mut [u8],
    text: &mut [u8],
    at: usize,
) -> usize
    requires { at + 131080 ≤ length text.old }
    ensures { result ≤ at + 131080 }
{
    fill_all(trace, snapshot, work, head.seed);
    let printed = run_to_text(text, at, job, head.order, trace, snapshot, work);
    match printed {
        Some(Printed { end, answer }) => {
            change_one(trace, snapshot, work, head.change);
            let keeps = kept(answer, job, trace, snapshot, work, head.seed);
            put_verdict(text, end, keeps)
        }
        None => at,
    }
}

// Writes text to the standard output. Where that fails, the runs go on.
fn write_out(rt: &impl Print, text: &[u8]) {
    let _ = rt.write_all(text);
}

// Writes the text out if that of one more run may not fit after it, and answers where that goes.
fn make_room(rt: &impl Print, text: &[u8], at: usize) -> usize
    requires { (at ≤ length text.now) × (131080 ≤ length text.now) }
    ensures { result + 131080 ≤ length text.now }
{
    if at <= text.len() - LINES {
        return at;
    }
    write_out(rt, &text[..at]);
    0
}

// Runs one job after another, with room for the largest lengths, and answers where the text that still waits ends. A proved loop has to
// end, and nothing says that the input does: the rounds are as many as no input uses up.
fn conform_all(rt: &impl Print, reader: &mut impl Read, text: &mut [u8; TEXT]) -> usize
    ensures { result ≤ 262144 }
{
    let mut job = [0u8; LONGEST_JOB];
    let mut trace = [0u8; LONGEST_TRACE];
    let mut snapshot = [0u8; LONGEST_SNAPSHOT];
    let mut work = [0u8; LONGEST_WORK];
    let mut at: usize = 0;
    for _ in 0..u64::MAX {
        let Some(head) = read_run(reader, &mut job) else {
            break;
        };
        let end = conform(
            head,
            &job[..head.job],
            &mut trace[..head.lengths.trace],
            &mut snapshot[..head.lengths.snapshot],
            &mut work[..head.lengths.work],
            text,
            at,
        );
        at = make_room(rt, text, end);
    }
    at
}

// Runs all jobs and writes the rest of the text.
fn main(rt: HostRuntime) {
    let mut text = [0u8; TEXT];
    let end = conform_all(&rt, &mut rt.stdin(), &mut text);
    write_out(&rt, &text[..end]);
}
