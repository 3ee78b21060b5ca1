// The walk over the commands of a job: the tests 1 to 8 and 15.
ghost use Rattle.std.specs.Prelude.{◌≡◌, List, [], ◌≤◌, ◌<◌, length};
ghost use Rattle.model.specs.Command.{Command as Past, read_command, whole};
ghost use Rattle.model.specs.Refusal.{decode};
ghost use Rattle.model.specs.Valid.{Valid};
ghost use Rattle.command.specs.Reading.{command_of, Known};
ghost use Rattle.tables.specs.Stands.{Stands};
ghost use Rattle.uses.specs.Uses.{Uses};
ghost use Rattle.job.specs.Decoding.{Continues, Walks};

use command::read::{Parsed, read_command};
use command::refusal::{Reason, Refusal};
use declared::open_node;
use notes::note;
use tables::cells::{CELLS, clear};
use uses::note_use;
use violations::violation_of;

// Admits the command that was read at a place: it is refused there, or it is noted together with what it uses, and the place of the next
// command is answered.
fn admit(
    job: &[u8],
    at: usize,
    read: Parsed,
    tables: &mut [u32],
    uses: &mut [u32],
) -> Result<usize, Refusal>
    requires at_in_bounds { (at < length job.now) × (length job.now ≤ 16384) }
    requires at_value { (read_command job.now at ≡ whole (command_of read.command) read.next) × Known read.command }
    ensures { (past : List Past) → Stands tables.old past → Uses uses.old past → Valid past
        → length past ≤ at → Continues job.now at past tables.new uses.new result }
{
    let c = read.command;
    if let Some(reason) = violation_of(tables, c) {
        return Err(Refusal { reason, place: at });
    }
    let opened = open_node(tables);
    note(tables, c);
    note_use(uses, opened, c.byte, c.first);
    Ok(read.next)
}

// One step: the command at a place. It answers the place of the next one, or the refusal of the job.
fn advance(job: &[u8], at: usize, tables: &mut [u32], uses: &mut [u32]) -> Result<usize, Refusal>
    requires { (at < length job.now) × (length job.now ≤ 16384) }
    ensures { (past : List Past) → Stands tables.old past → Uses uses.old past → Valid past
        → length past ≤ at → Continues job.now at past tables.new uses.new result }
{
    let read = read_command(job, at)?;
    admit(job, at, read, tables, uses)
}

// The tests 1 to 8 and 15: the verdict, the tables of an accepted job, and what its handlers use. The place goes on by the length of each
// command, so no range has it.
pub(crate) fn walk(job: &[u8], tables: &mut [u32; CELLS], uses: &mut [u32]) -> Result<(), Refusal>
    requires { Uses uses.old [] }
    ensures { Walks (decode job.now) tables.new uses.new result }
{
    clear(tables);
    if job.is_empty() | (16384 < job.len()) {
        return Err(Refusal {
            reason: Reason::Length,
            place: 0,
        });
    }
    let mut at = 0;
    while at < job.len() {
        at = advance(job, at, tables, uses)?;
    }
    Ok(())
}
