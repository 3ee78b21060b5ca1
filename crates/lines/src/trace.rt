// The lines of the entries of a trace. Entry k is read by its place, 7 k, as the definitions read it: by chunks, a proof would have to say
// where each one lies. The tally reads three bytes of an entry and the lines all seven, so they share no reader of entries.
ghost use Rattle.std.specs.Prelude.{◌+◌, ◌*◌, ◌≤◌, length};
ghost use Rattle.writing.specs.Writing.{Writes, joined};
ghost use Rattle.lines.specs.Lines.{entry_line};

use command::read::operand;
use text::{put_decimal, put_fields};
use writing::put_one;

// Puts the line of entry k: node, kind, number, value. That the trace has entry k stays a clause, for all that read an entry: whoever asks
// counts them.
fn put_entry_line(text: &mut [u8], at: usize, trace: &[u8], k: usize) -> usize
    requires k_in_bounds { 7 * k + 7 ≤ length trace.now }
    requires k_in_bounds_2 { at + length (entry_line trace.now k) ≤ length text.old }
    ensures { Writes (entry_line trace.now k) text.old at text.new result }
{
    let place = 7 * k;
    let node = operand(trace, place, 1);
    let kind = operand(trace, place + 1, 1);
    let number = operand(trace, place + 2, 1);
    let value = operand(trace, place + 3, 4);
    let numbers = [kind as u64, number as u64, value as u64];
    let first = put_decimal(text, at, node as u64);
    let end = put_fields(text, first, &numbers);
    put_one(text, end, 10)
}

// Puts the lines of the first entries.
pub fn put_entry_lines(text: &mut [u8], at: usize, trace: &[u8], turns: usize) -> usize
    requires turns_in_bounds { 7 * turns ≤ length trace.now }
    requires turns_in_bounds_2 { at + length (joined (entry_line trace.now) turns) ≤ length text.old }
    ensures { Writes (joined (entry_line trace.now) turns) text.old at text.new result }
{
    let mut next = at;
    for k in 0..turns {
        next = put_entry_line(text, next, trace, k);
    }
    next
}
