// The bytes of the trace.
ghost use Rattle.std.specs.Prelude.{◌+◌, ◌≤◌, length};
ghost use Rattle.model.specs.Output.{entry_bytes};
ghost use Rattle.writing.specs.Writing.{Writes};
ghost use Rattle.output.specs.Written.{entry_with, Narrow};

use crate::numbers::Numbers;
use writing::{put_one, put_word};

// Writes an entry as 7 bytes.
pub fn put_entry(trace: &mut [u8], at: usize, x: Numbers) -> usize
    requires { (at + 7 ≤ length trace.old) × Narrow (entry_with x) }
    ensures { Writes (entry_bytes (entry_with x)) trace.old at trace.new result }
{
    let kind = put_one(trace, at, (x.node % 256) as u8);
    let number = put_one(trace, kind, (x.kind % 256) as u8);
    let value = put_one(trace, number, (x.number % 256) as u8);
    put_word(trace, value, x.value)
}
