// What an ARG, a SPAN or a REPLY writes to the tables: an item, at the end of its chain.
ghost use Rattle.std.specs.Prelude.{◌≡◌, true, ◌∷◌};
ghost use Rattle.model.specs.Table.{REPLY};
ghost use Rattle.tables.specs.Items.{item};
ghost use Rattle.tables.specs.Tables.{item_count_in, last_range_in, last_reply_in};
ghost use Rattle.tables.specs.Writes.{written, range_write, reply_write, item_writes};

use crate::one_more;
use command::bytes;
use command::numbers::{FunNum, NodeNum};
use declared::{last_range, last_reply};
use tables::cells;
use tables::cells::{put, put_half};

// One more range: the last of its node and function, with its lowest and highest argument.
pub(crate) fn note_range(tables: &mut [u32], byte: u8, n: NodeNum, f: FunNum, low: u32, high: u32)
    ensures { tables.new ≡ written tables.old (range_write tables.old true n.0 f.0
        ∷ item_writes true (item_count_in tables.old) (last_range_in tables.old n.0 f.0) (item byte low high)) }
{
    let number = items::count(tables);
    let before = last_range(tables, n, f);
    let place = (n.0 as usize) * 32 + (f.0 as usize);
    put_half(tables, cells::LAST_RANGE, place, one_more(number));
    note_item(tables, number, before, byte, low, high);
}

// One more reply: the last of its function, with argument and answer.
pub(crate) fn note_reply(tables: &mut [u32], f: FunNum, argument: u32, answer: u32)
    ensures { tables.new ≡ written tables.old (reply_write tables.old true f.0
        ∷ item_writes true (item_count_in tables.old) (last_reply_in tables.old f.0) (item REPLY argument answer)) }
{
    let number = items::count(tables);
    let before = last_reply(tables, f);
    put(tables, cells::LAST_REPLY, f.0 as usize, one_more(number));
    note_item(tables, number, before, bytes::REPLY, argument, answer);
}

// One more item: its numbers, its byte, and the item before it in its chain.
fn note_item(tables: &mut [u32], number: u32, before: u32, byte: u8, first: u32, second: u32)
    ensures { tables.new ≡ written tables.old (item_writes true number before (item byte first second)) }
{
    let place = number as usize;
    let link = (byte as u32) * 65536 + before % 65536;
    put(tables, cells::ITEM_FIRST, place, first);
    put(tables, cells::ITEM_SECOND, place, second);
    put(tables, cells::ITEM_LINK, place, link);
    put(tables, cells::PROGRESS, 2, one_more(number));
}
