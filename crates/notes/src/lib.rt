// Noting one more command: what it declares, by its kind, then its count and its group.
#![tactic(auto)]

mod chains;
mod commands;

ghost use Rattle.std.specs.Prelude.{◌≡◌};
ghost use Rattle.command.specs.Reading.{command_of};
ghost use Rattle.notes.specs.Notes.{Notes};
ghost use Rattle.tables.specs.Writes.{command_writes, one_more, written};

use chains::{note_range, note_reply};
use command::bytes;
use command::numbers::{FunNum, NodeNum};
use command::read::Command;
use commands::{note_body, note_function, note_handler, note_node, note_start, note_variable};
use declared::count_of;
use tables::cells;
use tables::cells::{mark, put};

// One more, for a number below 65,536; others stay.
pub(crate) fn one_more(n: u32) -> u32
    ensures { result ≡ one_more n }
{
    if n < 65536 {
        return n + 1;
    }
    n
}

// Notes what a command says besides its byte and group: nothing, for FLOW and TURN.
fn note_content(tables: &mut [u32], c: Command)
    ensures { tables.new ≡ written tables.old (command_writes tables.old (command_of c)) }
{
    let first = c.first as usize;
    let second = c.second as usize;
    let node = NodeNum(c.first);
    let function = FunNum(c.second);
    let byte = c.byte;
    match byte {
        bytes::NODE => note_node(tables),
        bytes::VAR => note_variable(tables, c),
        bytes::FUN => note_function(tables, c),
        bytes::REPLY => note_reply(tables, FunNum(c.first), c.second, c.third),
        bytes::WIRE => mark(tables, cells::WIRES, first * 4 + second, c.third as usize),
        bytes::ANY => mark(tables, cells::CALLS, first, second),
        bytes::ARG => note_range(tables, byte, node, function, c.third, c.third),
        bytes::READ => mark(tables, cells::READS, first, second),
        bytes::WRITE => mark(tables, cells::WRITES, first, second),
        bytes::SPAN => note_range(tables, byte, node, function, c.third, c.fourth),
        bytes::BODY => note_body(tables, node),
        bytes::START => note_start(tables, node, c.second),
        _ => note_handler(tables, byte),
    }
}

// Notes a command that passed the tests: the tables then stand for one command more.
pub fn note(tables: &mut [u32], c: Command)
    ensures { Notes tables.old c tables.new }
{
    let have = count_of(tables, c.byte);
    note_content(tables, c);
    put(tables, cells::COUNTS, c.byte as usize, one_more(have));
    put(tables, cells::PROGRESS, 0, c.group as u32);
}
