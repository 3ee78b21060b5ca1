// Reading one command of a job.
ghost use Rattle.std.specs.Prelude.{◌≡◌, cond, ◌+◌, ◌<◌, ◌≤◌, eqb, length, get_or};
ghost use Rattle.model.specs.Table.{BODY, operands_of, list_of};
ghost use Rattle.model.specs.Command.{number_at, end_at, read_command};
ghost use Rattle.command.specs.Rows.{unpacked, Finds};
ghost use Rattle.command.specs.Reading.{ParsesAs, Reaches, Extends, others_at, head_in, IsWidth};

use crate::bytes;
use crate::numbers::NodeNum;
use crate::refusal::{Reason, Refusal};
use crate::table::{look_up, unpack};

// A command that was read: its place in the job, its packed row of the table, its byte and group, and its operands, 0 where it has none. That
// row and group are those of its byte stays a clause (`Known`): `notes::note` takes any command.
#[derive(Clone, Copy)]
pub struct Command {
    pub place: usize,
    pub row: u64,
    pub byte: u8,
    pub group: u8,
    pub first: u32,
    pub second: u32,
    pub third: u32,
    pub fourth: u32,
}

// The operands of a command after its first, 0 where it has none.
#[derive(Clone, Copy)]
struct Others {
    second: u32,
    third: u32,
    fourth: u32,
}

// What is read at a place: a command, and the place after it.
#[derive(Clone, Copy)]
pub struct Parsed {
    pub command: Command,
    pub next: usize,
}

// What a further pass over a job needs of a command: its byte and group, its first operand, and the place after it.
#[derive(Clone, Copy)]
pub struct Head {
    pub byte: u8,
    pub group: u8,
    pub first: u32,
    pub next: usize,
}

// What is known of a command before its operands are read: its packed row, and the place after it.
#[derive(Clone, Copy)]
struct Extent {
    row: u64,
    next: usize,
}

// The operand of a width at a place, lowest byte first.
pub fn operand(job: &[u8], at: usize, width: u8) -> u32
    requires { (at + width ≤ length job.now) × IsWidth width }
    ensures { result ≡ number_at job.now at width }
{
    if width == 4 {
        return u32::from_le_bytes([job[at], job[at + 1], job[at + 2], job[at + 3]]);
    }
    if width == 1 {
        return u32::from(job[at]);
    }
    0
}

// The extent of the command at a place, by what looking its byte up found: refused by 2 if it is none, by 3 if its operands run past the
// end.
fn extent_of(job: &[u8], at: usize, found: Option<u64>) -> Result<Extent, Refusal>
    requires { (at < length job.now) × Finds (get_or job.now at 0) found }
    ensures { Extends job.now at result }
{
    let Some(row) = found else {
        return Err(Refusal {
            reason: Reason::UnknownByte,
            place: at,
        });
    };
    let shape = unpack(row);
    let next = at + 1 + (shape.length as usize);
    if job.len() < next {
        return Err(Refusal {
            reason: Reason::CutShort,
            place: at,
        });
    }
    Ok(Extent { row, next })
}

// The operands after the first of a whole command, 0 where there is none. Most commands have none.
fn read_others(job: &[u8], at: usize, row: u64) -> Others
    requires { Reaches job.now at row (end_at at (list_of (operands_of (get_or job.now at 0)))) }
    ensures { result ≡ others_at job.now at (unpacked row) }
{
    let shape = unpack(row);
    if shape.length == shape.first_width {
        return Others {
            second: 0,
            third: 0,
            fourth: 0,
        };
    }
    let second_at = at + 1 + (shape.first_width as usize);
    let third_at = second_at + (shape.second_width as usize);
    let fourth_at = third_at + (shape.third_width as usize);
    let second = operand(job, second_at, shape.second_width);
    let third = operand(job, third_at, shape.third_width);
    let fourth = operand(job, fourth_at, shape.fourth_width);
    Others {
        second,
        third,
        fourth,
    }
}

// The command at a place, or its refusal. That the place is inside the job stays a clause, here and for all that look at a place: whoever asks
// has just tested it.
pub fn read_command(job: &[u8], at: usize) -> Result<Parsed, Refusal>
    requires { at < length job.now }
    ensures { ParsesAs job.now at result }
{
    let byte = job[at];
    let extent = extent_of(job, at, look_up(byte))?;
    let row = extent.row;
    let next = extent.next;
    let shape = unpack(row);
    let first = operand(job, at + 1, shape.first_width);
    let others = read_others(job, at, row);
    let command = Command {
        place: at,
        row,
        byte,
        group: shape.group,
        first,
        second: others.second,
        third: others.third,
        fourth: others.fourth,
    };
    Ok(Parsed { command, next })
}

// The head of the command at a place; none where the command is refused by 2 or 3.
pub fn read_head(job: &[u8], at: usize) -> Option<Head>
    requires { at < length job.now }
    ensures { result ≡ head_in (read_command job.now at) }
{
    let byte = job[at];
    let extent = extent_of(job, at, look_up(byte)).ok()?;
    let shape = unpack(extent.row);
    let first = operand(job, at + 1, shape.first_width);
    Some(Head {
        byte,
        group: shape.group,
        first,
        next: extent.next,
    })
}

// The node of the open handler, after a command.
pub fn open_after(c: Head, opened: NodeNum) -> NodeNum
    ensures { result.0 ≡ cond (eqb c.byte BODY) c.first opened.0 }
{
    if c.byte == bytes::BODY {
        return NodeNum(c.first);
    }
    opened
}
