// Numbers and lines, put into a text from one place to the next: each function answers the place after what it put. That the text has room
// for it stays a clause of each: it asks for the length of its own words and numbers.
#![tactic(auto)]

ghost use Rattle.std.specs.Prelude.{◌+◌, ◌≤◌, length};
ghost use Rattle.writing.specs.Writing.{Writes};
ghost use Rattle.text.specs.Text.{decimal, field, fields, line};

use writing::{put_all, put_one};

// Puts a number in decimal.
pub fn put_decimal(text: &mut [u8], at: usize, number: u64) -> usize
    requires { at + length (decimal number) ≤ length text.old }
    ensures { Writes (decimal number) text.old at text.new result }
{
    let mut digits = [0u8; 20];
    let count = io::decimal(number, &mut digits);
    put_all(text, at, &digits[..count])
}

// Puts a number after another field: a space, then the number.
fn put_field(text: &mut [u8], at: usize, number: u64) -> usize
    requires { at + length (field number) ≤ length text.old }
    ensures { Writes (field number) text.old at text.new result }
{
    let next = put_one(text, at, 32);
    put_decimal(text, next, number)
}

// Puts numbers after another field. A loop of its own beside that of `writing::put_words`: one loop for both would take the function
// that puts a number, with a clause on it that says as much as both loops.
pub fn put_fields(text: &mut [u8], at: usize, numbers: &[u64]) -> usize
    requires { at + length (fields numbers.now) ≤ length text.old }
    ensures { Writes (fields numbers.now) text.old at text.new result }
{
    let mut next = at;
    for &number in numbers {
        next = put_field(text, next, number);
    }
    next
}

// Puts a line: a word, the numbers after it, a line feed.
pub fn put_line(text: &mut [u8], at: usize, word: &[u8], numbers: &[u64]) -> usize
    requires { at + length (line word.now numbers.now) ≤ length text.old }
    ensures { Writes (line word.now numbers.now) text.old at text.new result }
{
    let first = put_all(text, at, word);
    let end = put_fields(text, first, numbers);
    put_one(text, end, 10)
}
