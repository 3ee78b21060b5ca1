// What the handlers of a job use: by node, the variables that its handler reads and writes, and the functions that it calls. The cells are
// the decoder's own: no run has them. One array and no heap: the tables' laws of reading and writing serve it too.
#![tactic(auto)]

ghost use Rattle.std.specs.Prelude.{◌≡◌, ◌||◌, eqb};
ghost use Rattle.model.specs.Table.{ANY, ARG, SPAN};
ghost use Rattle.tables.specs.Writes.{written};
ghost use Rattle.uses.specs.Uses.{use_writes, unused_in};

use command::bytes;
use command::numbers::NodeNum;
use tables::cells::{Section, mark, marked};

pub const CELLS: usize = 192;

// 64 bits a node, 32 a cell, by variable or function: 1 if the handler reads it, writes it, calls it.
const READ_USES: Section = Section(0, 64);

const WRITE_USES: Section = Section(64, 64);

const CALL_USES: Section = Section(128, 64);

// Notes what a command in the handler of a node uses: a variable or a function, or nothing.
pub fn note_use(uses: &mut [u32], n: NodeNum, byte: u8, x: u32)
    ensures { uses.new ≡ written uses.old (use_writes uses.old n.0 byte x) }
{
    let row = n.0 as usize;
    let column = x as usize;
    match byte {
        bytes::GET | bytes::PLUS => mark(uses, READ_USES, row, column),
        bytes::PUT => mark(uses, WRITE_USES, row, column),
        bytes::CALL => mark(uses, CALL_USES, row, column),
        _ => {}
    }
}

// Whether the byte is that of a permission to call.
fn permits_call(byte: u8) -> bool
    ensures { result ≡ (eqb byte ANY || (eqb byte ARG || eqb byte SPAN)) }
{
    matches!(byte, bytes::ANY | bytes::ARG | bytes::SPAN)
}

// Whether a permission with this byte, of a node and a variable or a function, is one that the node's handler has no command for.
pub fn is_unused(uses: &[u32], byte: u8, n: NodeNum, x: u32) -> bool
    ensures { result ≡ unused_in uses.now byte n.0 x }
{
    let row = n.0 as usize;
    let column = x as usize;
    match byte {
        bytes::READ => !marked(uses, READ_USES, row, column),
        bytes::WRITE => !marked(uses, WRITE_USES, row, column),
        _ => permits_call(byte) & !marked(uses, CALL_USES, row, column),
    }
}
