// What a command writes to the tables, where it is more than a mark and no item.
ghost use Rattle.std.specs.Prelude.{◌≡◌, cond, ◌-◌};
ghost use Rattle.model.specs.Table.{FLOW, NODE, VAR, FUN};
ghost use Rattle.command.specs.Rows.{is_handler_byte};
ghost use Rattle.tables.specs.Cells.{put_in};
ghost use Rattle.tables.specs.Tables.{count_in, open_in, flow_in, length_in, flow_cells, scope_cells, owner_cells, start_cells, answer_cells};
ghost use Rattle.tables.specs.Tables.{length_cells, progress_cells, body_cells, started_cells, first_cells, message_cells};
ghost use Rattle.tables.specs.Writes.{one_more};

use crate::one_more;
use command::bytes;
use command::numbers::NodeNum;
use command::read::Command;
use declared::{count_of, flow_of, length_of, open_node};
use tables::cells;
use tables::cells::put;

// The next node is one of the last flow.
pub(crate) fn note_node(tables: &mut [u32])
    ensures { tables.new ≡ put_in tables.old flow_cells (count_in tables.old NODE)
        (count_in tables.old FLOW - 1) }
{
    let flows = count_of(tables, bytes::FLOW);
    let nodes = count_of(tables, bytes::NODE) as usize;
    put(tables, cells::FLOW, nodes, flows.saturating_sub(1));
}

// Scope, owner and start of the next variable.
pub(crate) fn note_variable(tables: &mut [u32], c: Command)
    ensures { tables.new ≡
        put_in (put_in (put_in tables.old scope_cells (count_in tables.old VAR) c.first)
        owner_cells (count_in tables.old VAR) c.second)
        start_cells (count_in tables.old VAR) c.third }
{
    let number = count_of(tables, bytes::VAR) as usize;
    put(tables, cells::SCOPE, number, c.first);
    put(tables, cells::OWNER, number, c.second);
    put(tables, cells::INITIAL, number, c.third);
}

// The answer of the next function.
pub(crate) fn note_function(tables: &mut [u32], c: Command)
    ensures { tables.new ≡ put_in tables.old answer_cells (count_in tables.old FUN) c.first }
{
    let functions = count_of(tables, bytes::FUN) as usize;
    put(tables, cells::ANSWER, functions, c.first);
}

// The handler of a node is open, and the node has a BODY.
pub(crate) fn note_body(tables: &mut [u32], n: NodeNum)
    ensures { tables.new ≡ put_in (put_in tables.old progress_cells 1 n.0) body_cells n.0 1 }
{
    put(tables, cells::PROGRESS, 1, n.0);
    put(tables, cells::BODY, n.0 as usize, 1);
}

// One command more in the open handler, if the byte is that of a handler command.
pub(crate) fn note_handler(tables: &mut [u32], byte: u8)
    ensures { tables.new ≡ cond (is_handler_byte byte)
        (put_in tables.old length_cells (open_in tables.old)
        (one_more (length_in tables.old (open_in tables.old)))) tables.old }
{
    if bytes::is_handler(byte) {
        let opened = open_node(tables);
        let len = length_of(tables, opened);
        put(tables, cells::LENGTH, opened.0 as usize, one_more(len));
    }
}

// The flow of a node has a START, and so has the node, with its message.
pub(crate) fn note_start(tables: &mut [u32], n: NodeNum, message: u32)
    ensures { tables.new ≡
        put_in (put_in (put_in tables.old started_cells (flow_in tables.old n.0) 1)
        first_cells n.0 1) message_cells n.0 message }
{
    let flow = flow_of(tables, n);
    let node = n.0 as usize;
    put(tables, cells::STARTED, flow.0 as usize, 1);
    put(tables, cells::FIRST, node, 1);
    put(tables, cells::MESSAGE, node, message);
}
