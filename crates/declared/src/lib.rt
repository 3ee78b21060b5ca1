// What the tables say of flows, nodes, variables, functions and their answers, wires, handlers, first messages, and where the items of a
// node or a function are, each under its own kind of number; what the questions share is `entry`, `flagged`, `marked` and `half`. Tables
// and numbers are handed over one by one: each question has its own numbers.
#![tactic(auto)]

ghost use Rattle.std.specs.Prelude.{◌≡◌, ℕ, ◌<◌, is_some, option_to_list};
ghost use Rattle.model.specs.Table.{max_nodes};
ghost use Rattle.model.specs.Declared.{is_seen};
ghost use Rattle.tables.specs.Bits.{bit_of};
ghost use Rattle.declared.specs.Scopes.{scope_of};
ghost use Rattle.tables.specs.Tables.{count_in, group_in, open_in, flow_in, start_in, shared_in, sees_in, length_in, body_in, started_at};
ghost use Rattle.tables.specs.Tables.{firsts_in, wired_in, last_range_in, last_reply_in, reply_in, answer_in};

use command::numbers::{FlowNum, FunNum, NodeNum, VarNum};
use items::{Question, find};
use tables::cells;
use tables::cells::{entry, flagged, half, marked, marks_of};

// Where a variable belongs, by the numbers of 01: to one node, to one flow, or to the whole job.
#[derive(Clone, Copy, PartialEq, Eq)]
pub enum Scope {
    Node,
    Flow,
    Global,
}

impl From<u32> for Scope {
    ghost from_gives = { λ number scope. scope ≡ scope_of number };

    fn from(number: u32) -> Scope {
        match number {
            0 => Scope::Node,
            1 => Scope::Flow,
            _ => Scope::Global,
        }
    }
}

// How many commands have this byte.
pub fn count_of(tables: &[u32], byte: u8) -> u32
    ensures { result ≡ count_in tables.now byte }
{
    entry(tables, cells::COUNTS, usize::from(byte))
}

// The highest group so far.
pub fn group(tables: &[u32]) -> u32
    ensures { result ≡ group_in tables.now }
{
    entry(tables, cells::PROGRESS, 0)
}

// The node whose handler was opened last.
pub fn open_node(tables: &[u32]) -> NodeNum
    ensures { result.0 ≡ open_in tables.now }
{
    NodeNum(entry(tables, cells::PROGRESS, 1))
}

// The flow of a node.
pub fn flow_of(tables: &[u32], n: NodeNum) -> FlowNum
    ensures { result.0 ≡ flow_in tables.now n.0 }
{
    FlowNum(entry(tables, cells::FLOW, n.0 as usize))
}

// The start of a variable.
pub fn start_of(tables: &[u32], x: VarNum) -> u32
    ensures { result ≡ start_in tables.now x.0 }
{
    entry(tables, cells::INITIAL, x.0 as usize)
}

// The last reply of a function: its number among the items plus 1, or 0 if there is none. A number and no `Option`: the next item takes it as
// it is.
pub fn last_reply(tables: &[u32], f: FunNum) -> u32
    ensures { result ≡ last_reply_in tables.now f.0 }
{
    entry(tables, cells::LAST_REPLY, f.0 as usize)
}

// The answer of the reply of a function to an argument, if there is one. A function without replies costs no search.
fn reply_to(tables: &[u32], f: FunNum, argument: u32) -> Option<u32>
    ensures { result ≡ reply_in tables.now f.0 argument }
{
    let last = last_reply(tables, f) as usize;
    if last == 0 {
        return None;
    }
    find(tables, last, Question::To(argument))
}

// Whether a function has a reply to an argument.
pub fn has_reply(tables: &[u32], f: FunNum, argument: u32) -> bool
    ensures { result ≡ is_some (reply_in tables.now f.0 argument) }
{
    reply_to(tables, f, argument).is_some()
}

// The answer of a function to an argument: that of its reply, and without one FUN's.
pub fn answer_of(tables: &[u32], f: FunNum, argument: u32) -> u32
    ensures { result ≡ answer_in tables.now f.0 argument }
{
    reply_to(tables, f, argument).unwrap_or_else(|| entry(tables, cells::ANSWER, f.0 as usize))
}

// Whether a variable is shared.
pub fn is_shared(tables: &[u32], x: VarNum) -> bool
    ensures { result ≡ shared_in tables.now x.0 }
{
    let scope = entry(tables, cells::SCOPE, x.0 as usize);
    Scope::from(scope) != Scope::Node
}

// Whether a variable of this scope and owner is seen by a node of this flow.
fn is_seen(scope: u32, owner: u32, n: NodeNum, f: FlowNum) -> bool
    ensures { result ≡ is_seen scope owner n.0 f.0 }
{
    match Scope::from(scope) {
        Scope::Node => owner == n.0,
        Scope::Flow => owner == f.0,
        Scope::Global => true,
    }
}

// Whether a node sees a variable.
pub fn sees(tables: &[u32], n: NodeNum, x: VarNum) -> bool
    ensures { result ≡ sees_in tables.now n.0 x.0 }
{
    let i = x.0 as usize;
    let scope = entry(tables, cells::SCOPE, i);
    let owner = entry(tables, cells::OWNER, i);
    let flow = flow_of(tables, n);
    is_seen(scope, owner, n, flow)
}

// How many commands the handler of a node has.
pub fn length_of(tables: &[u32], n: NodeNum) -> u32
    ensures { result ≡ length_in tables.now n.0 }
{
    entry(tables, cells::LENGTH, n.0 as usize)
}

// Whether a node has a BODY.
pub fn has_body(tables: &[u32], n: NodeNum) -> bool
    ensures { result ≡ body_in tables.now n.0 }
{
    flagged(tables, cells::BODY, n.0 as usize)
}

// Whether some node of a flow has a START.
pub fn has_start(tables: &[u32], f: FlowNum) -> bool
    ensures { result ≡ started_at tables.now f.0 }
{
    flagged(tables, cells::STARTED, f.0 as usize)
}

// The first message of a node, which waits at it at the start, if it has one.
pub fn first_message(tables: &[u32], n: NodeNum) -> Option<u32>
    ensures { option_to_list result ≡ firsts_in tables.now n.0 }
{
    let i = n.0 as usize;
    flagged(tables, cells::FIRST, i).then(|| entry(tables, cells::MESSAGE, i))
}

// Whether a port is wired to a target.
pub fn is_wired(tables: &[u32], n: NodeNum, port: u32, target: NodeNum) -> bool
    ensures { result ≡ wired_in tables.now n.0 port target.0 }
{
    let row = (n.0 as usize) * 4 + (port as usize);
    port < 4 && marked(tables, cells::WIRES, row, target.0 as usize)
}

// The targets of a port, as the bits of a number: bit k is 1 if the port is wired to node k.
pub fn targets_of(tables: &[u32], n: NodeNum, port: u32) -> u32
    ensures { (k : ℕ) → k < max_nodes → bit_of result k ≡ wired_in tables.now n.0 port k }
{
    if port < 4 {
        let row = (n.0 as usize) * 4 + (port as usize);
        return marks_of(tables, cells::WIRES, row);
    }
    0
}

// The last range of a node and a function: its number among the items plus 1, or 0 if there is none, as of a last reply.
pub fn last_range(tables: &[u32], n: NodeNum, f: FunNum) -> u32
    ensures { result ≡ last_range_in tables.now n.0 f.0 }
{
    if f.0 < 32 {
        return half(
            tables,
            cells::LAST_RANGE,
            (n.0 as usize) * 32 + (f.0 as usize),
        );
    }
    0
}
