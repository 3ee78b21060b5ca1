// Loading the handlers of an accepted job: the places of their commands go into the work buffer, 2 bytes a command, 64 commands a node.
ghost use Rattle.std.specs.Prelude.{◌≡◌, cond, ◌+◌, ◌<◌, eqb};
ghost use Rattle.model.specs.Table.{BODY};
ghost use Rattle.command.specs.Rows.{is_handler_byte};
ghost use Rattle.model.specs.Refusal.{decode_job};
ghost use Rattle.handlers.specs.Loading.{slot_of, stored, loaded};
ghost use Rattle.model.specs.Refusal.{commands_of, IsAccepted};

use crate::slot_of;
use command::bytes;
use command::numbers::NodeNum;
use command::read::{Head, open_after, read_head};
use writing::put_all;

// Stores a place in the slot of a node's command, if it fits: two bytes, lowest byte first; what is above them is lost.
fn store(work: &mut [u8], n: NodeNum, i: u32, place: usize)
    ensures { work.new ≡ stored work.old (slot_of n.0 i) place }
{
    let at = slot_of(n, i);
    if at + 2 <= work.len() {
        put_all(work, at, &place.to_le_bytes()[..2]);
    }
}

// Stores the place of a command in its slot, if it is a handler command.
fn keep(work: &mut [u8], opened: NodeNum, index: u32, c: Head, place: usize)
    ensures { work.new ≡ cond (is_handler_byte c.byte)
        (stored work.old (slot_of opened.0 index) place) work.old }
{
    if bytes::is_handler(c.byte) {
        store(work, opened, index, place);
    }
}

// The position of the next command in the open handler, after a command.
fn index_after(c: Head, index: u32) -> u32
    requires { index < 65536 }
    ensures { result ≡ cond (eqb c.byte BODY) 0 (cond (is_handler_byte c.byte) (index + 1) index) }
{
    if c.byte == bytes::BODY {
        return 0;
    }
    if bytes::is_handler(c.byte) {
        return index + 1;
    }
    index
}

// Loads the handlers of an accepted job: up to the first command of a group above 4, since no handler command stands behind it. The
// place goes on by the length of each command, so no range has it; nor has it an iterator: what is known of the commands so far stands in
// the loop's invariants, and an iterator's clause would have to say it of all of them at once.
pub fn load(job: &[u8], work: &mut [u8])
    requires { IsAccepted (decode_job job.now) }
    ensures { work.new ≡ loaded work.old (commands_of (decode_job job.now)) }
{
    let mut at = 0;
    let mut opened = NodeNum(0);
    let mut index: u32 = 0;
    while at < job.len() {
        let Some(c) = read_head(job, at) else {
            return;
        };
        if bytes::HANDLER_GROUP < c.group {
            return;
        }
        keep(work, opened, index, c, at);
        index = index_after(c, index);
        opened = open_after(c, opened);
        at = c.next;
    }
}
