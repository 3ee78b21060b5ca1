// What the tables say of permissions, each under its own kind of number; what the questions share is `marked`. Tables and numbers
// are handed over one by one: each question has its own numbers.
#![tactic(auto)]

ghost use Rattle.std.specs.Prelude.{◌≡◌};
ghost use Rattle.tables.specs.Tables.{read_in, write_in, any_in, listed_in, in_range_in, call_in};

use command::numbers::{FunNum, NodeNum, VarNum};
use declared::last_range;
use items::{Question, find};
use tables::cells;
use tables::cells::marked;

// Whether a node may read a variable.
pub fn may_read(tables: &[u32], n: NodeNum, x: VarNum) -> bool
    ensures { result ≡ read_in tables.now n.0 x.0 }
{
    marked(tables, cells::READS, n.0 as usize, x.0 as usize)
}

// Whether a node may write a variable.
pub fn may_write(tables: &[u32], n: NodeNum, x: VarNum) -> bool
    ensures { result ≡ write_in tables.now n.0 x.0 }
{
    marked(tables, cells::WRITES, n.0 as usize, x.0 as usize)
}

// Whether a node may call a function with all arguments.
pub fn may_call_any(tables: &[u32], n: NodeNum, f: FunNum) -> bool
    ensures { result ≡ any_in tables.now n.0 f.0 }
{
    marked(tables, cells::CALLS, n.0 as usize, f.0 as usize)
}

// Whether there is a command with this byte, ARG or SPAN, node, function, and lowest and highest argument.
pub fn is_listed(tables: &[u32], byte: u8, n: NodeNum, f: FunNum, low: u32, high: u32) -> bool
    ensures { result ≡ listed_in tables.now byte n.0 f.0 low high }
{
    let question = Question::Is(u32::from(byte), low, high);
    find(tables, last_range(tables, n, f) as usize, question).is_some()
}

// Whether a range of a node and a function holds an argument.
fn is_in_range(tables: &[u32], n: NodeNum, f: FunNum, argument: u32) -> bool
    ensures { result ≡ in_range_in tables.now n.0 f.0 argument }
{
    let last = last_range(tables, n, f) as usize;
    find(tables, last, Question::Holds(argument)).is_some()
}

// Whether a node may call a function with this argument.
pub fn may_call(tables: &[u32], n: NodeNum, f: FunNum, argument: u32) -> bool
    ensures { result ≡ call_in tables.now n.0 f.0 argument }
{
    may_call_any(tables, n, f) || is_in_range(tables, n, f, argument)
}
