// Items, what is kept of ARG, SPAN and REPLY commands: how many there are, and the search along a chain of them.
#![tactic(auto)]

ghost use Rattle.std.specs.Prelude.{◌≡◌, cond, ltb};
ghost use Rattle.tables.specs.Items.{item, found_item, second_of};
ghost use Rattle.tables.specs.Tables.{item_count_in, chain_in};
ghost use Rattle.items.specs.Asking.{asked};

use tables::cells;
use tables::cells::entry;

// How many items there are.
pub fn count(tables: &[u32]) -> u32
    ensures { result ≡ item_count_in tables.now }
{
    entry(tables, cells::PROGRESS, 2)
}

// What is asked of an item: whether a range holds an argument, whether it is that of a command with this byte, low and high, or whether a
// reply is to an argument.
#[derive(Clone, Copy)]
pub enum Question {
    Holds(u32),
    Is(u32, u32, u32),
    To(u32),
}

// Whether an item fits a question.
fn fits(q: Question, byte: u32, first: u32, second: u32) -> bool
    ensures { result ≡ asked q (item byte first second) }
{
    match q {
        Question::Holds(v) => (first..=second).contains(&v),
        Question::Is(b, l, h) => byte == b && first == l && second == h,
        Question::To(v) => first == v,
    }
}

// Where the search goes on: at the item before, which has a lower number; 0 ends it.
fn go_back(at: usize, before: usize) -> usize
    ensures { result ≡ cond (ltb before at) before 0 }
{
    if before < at {
        return before;
    }
    0
}

// The second number of the first item that fits a question, from the last one of a chain back, which is given by its number plus 1, or 0 if
// there is none. A chain goes by the numbers of items in the tables: no heap, fixed memory.
pub fn find(tables: &[u32], last: usize, q: Question) -> Option<u32>
    ensures { result ≡ second_of (found_item (asked q) (chain_in tables.now last last)) }
{
    let mut at = last;
    while 0 < at {
        let i = at - 1;
        let link = entry(tables, cells::ITEM_LINK, i);
        let first = entry(tables, cells::ITEM_FIRST, i);
        let second = entry(tables, cells::ITEM_SECOND, i);
        if fits(q, link / 65536, first, second) {
            return Some(second);
        }
        at = go_back(at, (link % 65536) as usize);
    }
    None
}
