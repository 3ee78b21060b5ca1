// The runs that a reader gives: of each a head of 12 bytes, then the job's bytes.
ghost use Rattle.std.specs.Prelude.{◌≤◌, IfSome, IsTrue, length};
ghost use Rattle.conformance.specs.Input.{HeadFits};

use crate::buffers::ChangedByte;
use job::buffers::Lengths;
use job::schedule::{Order, Schedule};
use std::io::Read;

// What a run is asked to be, which byte is changed after it, what its buffers hold before it, and the lengths of its job and its buffers.
#[derive(Clone, Copy)]
pub struct Head {
    pub order: Order,
    pub change: ChangedByte,
    pub seed: u8,
    pub job: usize,
    pub lengths: Lengths,
}

// The largest lengths.
pub const LONGEST_JOB: usize = 16400;

pub const LONGEST_TRACE: usize = 28800;

pub const LONGEST_SNAPSHOT: usize = 3200;

pub const LONGEST_WORK: usize = 16500;

// The number of two bytes, lowest first.
fn pair(low: u8, high: u8) -> u16 {
    u16::from_le_bytes([low, high])
}

// What the first byte of a head asks a run to be: dispatched with this budget from 16 on, monitored if it is even.
fn order_of(flags: u8, budget: u16) -> Order {
    let schedule = if flags < 16 {
        Schedule::Written
    } else {
        Schedule::Dispatched(u64::from(budget))
    };
    Order {
        schedule,
        monitored: flags % 2 == 0,
    }
}

// Fills a buffer; none if the input ends before it is full, or a read fails. This is no `read_exact`, which tries an interrupted read again:
// here the runs are over at one. It is not one loop with `flowrun`'s `read_job`, to which an ended input is a count of bytes, and a failed
// read an error.
fn read_full(reader: &mut impl Read, buffer: &mut [u8]) -> Option<()> {
    let mut size: usize = 0;
    while size < buffer.len() {
        let count = reader.read(&mut buffer[size..]).ok()?;
        if count == 0 {
            return None;
        }
        size += count;
    }
    Some(())
}

// Reads a head; at the end of the input, be it inside a head, there is none.
fn read_head(reader: &mut impl Read) -> Option<Head> {
    let mut head = [0u8; 12];
    read_full(reader, &mut head)?;
    Some(Head {
        order: order_of(head[0], pair(head[10], head[11])),
        change: ChangedByte::from(head[0] / 2 % 8),
        seed: head[1],
        job: usize::from(pair(head[2], head[3])),
        lengths: Lengths {
            trace: usize::from(pair(head[4], head[5])),
            snapshot: usize::from(pair(head[6], head[7])),
            work: usize::from(pair(head[8], head[9])),
        },
    })
}

// Whether every length is at most the largest.
fn is_short(head: Head) -> bool
    ensures { IsTrue result → HeadFits head }
{
    head.job <= LONGEST_JOB
        && head.lengths.trace <= LONGEST_TRACE
        && head.lengths.snapshot <= LONGEST_SNAPSHOT
        && head.lengths.work <= LONGEST_WORK
}

// Reads the next run, its job into the front of the buffer. The runs are over where the input ends, be it inside a run, and at a length
// above the largest.
pub fn read_run(reader: &mut impl Read, job: &mut [u8]) -> Option<Head>
    requires { 16400 ≤ length job.old }
    ensures { IfSome result HeadFits }
{
    let head = read_head(reader)?;
    if !is_short(head) {
        return None;
    }
    read_full(reader, &mut job[..head.job])?;
    Some(head)
}
