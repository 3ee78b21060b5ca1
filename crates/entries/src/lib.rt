// Trace entries: what a handler command leaves, whether the lists permit it, and what a stop shows of it.
#![tactic(auto)]

ghost use Rattle.std.specs.Prelude.{◌≡◌, cond, get_or};
ghost use Rattle.tables.specs.Tables.{shared_in};
ghost use Rattle.entries.specs.Entries.{LeavesEvent, Judges, Redacts};

use allowlists::{may_call, may_read, may_write};
use command::instruction::Instruction;
use command::numbers::{FunNum, NodeNum, VarNum};
use declared::is_shared;
use memory::variables::variable_at;

// What a turn does, each kind with its own numbers; the first of Begin is the sender of the message.
#[derive(Clone, Copy)]
pub enum Event {
    Other,
    Begin(u8, u32),
    Finish,
    Read(VarNum, u32),
    Write(VarNum, u32),
    Call(FunNum, u32),
    Send(u32, u32),
}

// A trace entry.
#[derive(Clone, Copy)]
pub struct Entry {
    pub node: NodeNum,
    pub event: Event,
}

// A stop, with what was attempted: an entry that the lists do not permit, a node that is idle with an empty queue, a send with a full
// target.
#[derive(Clone, Copy)]
pub enum Stop {
    Forbidden(Entry),
    Unready(NodeNum),
    Full(Entry),
}

// The event of reading a variable: a shared one's shows. It and the next are two functions: with one that is handed the event, a turn takes
// 6 instructions more (1,353.4 against 1,347.0), and a judged call up to 131 (2,230.8 against 2,100.0).
fn read_of(tables: &[u32], x: VarNum, variable: &[u32]) -> Event
    ensures { result ≡ cond (shared_in tables.now x.0) (Event.Read x (get_or variable.now x.0 0)) Event.Other }
{
    if is_shared(tables, x) {
        let value = variable_at(variable, x);
        Event::Read(x, value)
    } else {
        Event::Other
    }
}

// The event of writing a variable: a shared one's shows.
fn write_of(tables: &[u32], x: VarNum, value: u32) -> Event
    ensures { result ≡ cond (shared_in tables.now x.0) (Event.Write x value) Event.Other }
{
    if is_shared(tables, x) {
        Event::Write(x, value)
    } else {
        Event::Other
    }
}

// The event that a handler command leaves, by the accumulator and the variables before it.
pub fn event_of(
    tables: &[u32],
    instruction: Instruction,
    accumulator: u32,
    variable: &[u32],
) -> Event
    ensures { LeavesEvent tables.now instruction accumulator variable.now result }
{
    match instruction {
        Instruction::Get(x) => read_of(tables, x, variable),
        Instruction::Put(x) => write_of(tables, x, accumulator),
        Instruction::Plus(x) => read_of(tables, x, variable),
        Instruction::Send(port) => Event::Send(port, accumulator),
        Instruction::Call(f) => Event::Call(f, accumulator),
        _ => Event::Other,
    }
}

// Whether the lists permit a node's event.
pub fn is_permitted(tables: &[u32], n: NodeNum, event: Event) -> bool
    ensures { Judges tables.now n.0 event result }
{
    match event {
        Event::Read(x, _) => may_read(tables, n, x),
        Event::Write(x, _) => may_write(tables, n, x),
        Event::Call(f, argument) => may_call(tables, n, f, argument),
        _ => true,
    }
}

// The event as a stop shows it: a read without its value.
pub fn redact(event: Event) -> Event
    ensures { Redacts event result }
{
    if let Event::Read(x, _) = event {
        Event::Read(x, 0)
    } else {
        event
    }
}
