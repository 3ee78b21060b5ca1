// Fetching the commands of handlers: their places from the work buffer, the commands from the job.
ghost use Rattle.std.specs.Prelude.{◌≡◌, ◌⊎◌, ◌<◌, None};
ghost use Rattle.command.specs.Instructions.{instruction_of, fetched_of, command_in};
ghost use Rattle.handlers.specs.Loading.{slot_in, handlers_in};

use crate::slot_of;
use command::instruction::{Instruction, read_instruction};
use command::numbers::NodeNum;
use declared::length_of;

// What the slot of a node's command stands for, SKIP where there is no slot, and no `Option`: that is what is promised of any bytes; inside
// the handlers of a loaded job, its command.
fn read_slot(job: &[u8], work: &[u8], n: NodeNum, position: u32) -> Instruction
    ensures { instruction_of result ≡ slot_in job.now work.now n.0 position }
{
    let at = slot_of(n, position);
    let Some([low, high]) = work.get(at..at + 2) else {
        return Instruction::Skip;
    };
    let place = u16::from_le_bytes([*low, *high]);
    read_instruction(job, usize::from(place))
}

// What stands at a position of a node's handler. Where a command stands, the next position can be counted.
pub fn fetch(
    job: &[u8],
    tables: &[u32],
    work: &[u8],
    n: NodeNum,
    position: u32,
) -> Option<Instruction>
    ensures fetched { fetched_of result ≡
        command_in (handlers_in job.now tables.now work.now n.0) position }
    ensures countable { (fetched_of result ≡ None) ⊎ (position < 4294967295) }
{
    if position < length_of(tables, n) {
        return Some(read_slot(job, work, n, position));
    }
    None
}
