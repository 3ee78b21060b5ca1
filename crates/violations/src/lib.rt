// The tests 4 to 8 and 15 of a command, by the tables of those before it. That tables stand for these commands (`Stands`), and what is
// known of the command (`Known`, `Plain`), stays in the clauses, as `Valid` and `Uses` do in `job`: the commands before are known to the proof
// alone, and the tables come from anyone.
#![tactic(auto)]

ghost use Rattle.std.specs.Prelude.{◌≡◌, cond, ◌||◌, ◌-◌, List, eqb};
ghost use Rattle.model.specs.Table.{REPLY, READ, WRITE, GET, PUT, PLUS, is_range_byte};
ghost use Rattle.model.specs.Command.{Command as Past};
ghost use Rattle.model.specs.Refusal.{exceeds_count, no_owner, names_nothing, undeclared, out_of_reach, repeated, empty_span};
ghost use Rattle.model.specs.Refusal.{violation};
ghost use Rattle.model.specs.Valid.{Plain};
ghost use Rattle.command.specs.Rows.{kind_of, kind_meant};
ghost use Rattle.command.specs.Reading.{command_of, Known};
ghost use Rattle.tables.specs.Tables.{count_in, item_count_in};
ghost use Rattle.tables.specs.Stands.{Stands};
ghost use Rattle.violations.specs.Tests.{counts_as, counts_in, number_if};

use command::bytes;
use command::numbers::{FunNum, NodeNum, VarNum};
use command::read::Command;
use command::refusal::Reason;
use command::table::{OperandKind, unpack};
use declared::Scope;

// How many flows, nodes, variables and functions are declared.
#[derive(Clone, Copy)]
struct Counts {
    flows: u32,
    nodes: u32,
    variables: u32,
    functions: u32,
}

// What the tables count.
fn counts_of(tables: &[u32]) -> Counts
    ensures { counts_as result ≡ counts_in tables.now }
{
    let flows = declared::count_of(tables, bytes::FLOW);
    let nodes = declared::count_of(tables, bytes::NODE);
    let variables = declared::count_of(tables, bytes::VAR);
    let functions = declared::count_of(tables, bytes::FUN);
    Counts {
        flows,
        nodes,
        variables,
        functions,
    }
}

// How many ranges there are: the items that are no replies.
fn range_count(tables: &[u32]) -> u32
    ensures { result ≡ item_count_in tables.now - count_in tables.now REPLY }
{
    let all = items::count(tables);
    let replies = declared::count_of(tables, bytes::REPLY);
    all.saturating_sub(replies)
}

// How many commands count to the largest count of this byte: ARG and SPAN share theirs.
fn counted(tables: &[u32], byte: u8) -> u32
    ensures { result ≡ cond (is_range_byte byte) (item_count_in tables.now - count_in tables.now REPLY)
        (count_in tables.now byte) }
{
    match byte {
        bytes::ARG | bytes::SPAN => range_count(tables),
        _ => declared::count_of(tables, byte),
    }
}

// 5: a largest count would be passed.
fn exceeds_count(tables: &[u32], c: Command) -> bool
    requires { Known c }
    ensures { (past : List Past) → Stands tables.now past → result ≡ exceeds_count past (command_of c) }
{
    let shape = unpack(c.row);
    let most = shape.most;
    let have = counted(tables, c.byte);
    let opened = declared::open_node(tables);
    let inside = declared::length_of(tables, opened);
    let handler = bytes::is_handler(c.byte);
    ((most != 0) & (most <= have)) | (handler & (64 <= inside))
}

// The owner of a variable of this scope is not declared.
fn has_no_owner(d: Counts, scope: u32, x: u32) -> bool
    ensures { result ≡ no_owner (counts_as d) scope x }
{
    match Scope::from(scope) {
        Scope::Node => d.nodes <= x,
        Scope::Flow => d.flows <= x,
        Scope::Global => x != 0,
    }
}

// An operand whose kind has this digit names nothing that is declared or allowed.
fn names_nothing(d: Counts, scope: u32, digit: u8, x: u32) -> bool
    ensures { result ≡ names_nothing (counts_as d) scope (kind_meant (kind_of digit)) x }
{
    match OperandKind::from(digit) {
        OperandKind::Scope => 2 < x,
        OperandKind::Owner => has_no_owner(d, scope, x),
        OperandKind::Node => d.nodes <= x,
        OperandKind::Port => 3 < x,
        OperandKind::Target => d.nodes <= x,
        OperandKind::Function => d.functions <= x,
        OperandKind::Variable => d.variables <= x,
        _ => false,
    }
}

// 6: a NODE before every FLOW, a handler command before every BODY, or an operand that names nothing.
fn is_undeclared(tables: &[u32], c: Command) -> bool
    requires { Known c }
    ensures { (past : List Past) → Stands tables.now past → result ≡ undeclared past (command_of c) }
{
    let shape = unpack(c.row);
    let d = counts_of(tables);
    let bodies = declared::count_of(tables, bytes::BODY);
    ((c.byte == bytes::NODE) & (d.flows == 0))
        || (bytes::is_handler(c.byte) & (bodies == 0))
        || names_nothing(d, c.first, shape.first_kind, c.first)
        || (shape.length != shape.first_width
            && (names_nothing(d, c.first, shape.second_kind, c.second)
                || names_nothing(d, c.first, shape.third_kind, c.third)
                || names_nothing(d, c.first, shape.fourth_kind, c.fourth)))
}

// The handler commands that name a variable.
fn uses_variable(b: u8) -> bool
    ensures { result ≡ ((eqb b GET || eqb b PUT) || eqb b PLUS) }
{
    matches!(b, bytes::GET | bytes::PUT | bytes::PLUS)
}

// The permissions that name a variable.
fn is_access(b: u8) -> bool
    ensures { result ≡ (eqb b READ || eqb b WRITE) }
{
    matches!(b, bytes::READ | bytes::WRITE)
}

// 7: a wire into another flow, a handler command with a variable that its node does not see, READ or WRITE of a variable unseen or
// not shared.
fn is_out_of_reach(tables: &[u32], c: Command) -> bool
    ensures { (past : List Past) → Stands tables.now past → result ≡ out_of_reach past (command_of c) }
{
    if c.byte == bytes::WIRE {
        let from = declared::flow_of(tables, NodeNum(c.first));
        let to = declared::flow_of(tables, NodeNum(c.third));
        return from != to;
    }
    if uses_variable(c.byte) {
        let opened = declared::open_node(tables);
        let seen = declared::sees(tables, opened, VarNum(c.first));
        return !seen;
    }
    if is_access(c.byte) {
        let seen = declared::sees(tables, NodeNum(c.first), VarNum(c.second));
        let shared = declared::is_shared(tables, VarNum(c.second));
        return !seen | !shared;
    }
    false
}

// 8: the same WIRE or permission again, a node's second BODY, a flow's second START, a second REPLY of a function to an argument.
fn is_repeated(tables: &[u32], c: Command) -> bool
    ensures { (past : List Past) → Stands tables.now past → Plain (command_of c) → result ≡ repeated past (command_of c) }
{
    let n = NodeNum(c.first);
    let b = c.byte;
    match b {
        bytes::REPLY => declared::has_reply(tables, FunNum(c.first), c.second),
        bytes::WIRE => declared::is_wired(tables, n, c.second, NodeNum(c.third)),
        bytes::ANY => allowlists::may_call_any(tables, n, FunNum(c.second)),
        bytes::ARG => allowlists::is_listed(tables, b, n, FunNum(c.second), c.third, c.third),
        bytes::READ => allowlists::may_read(tables, n, VarNum(c.second)),
        bytes::WRITE => allowlists::may_write(tables, n, VarNum(c.second)),
        bytes::SPAN => allowlists::is_listed(tables, b, n, FunNum(c.second), c.third, c.fourth),
        bytes::BODY => declared::has_body(tables, n),
        bytes::START => {
            let flow = declared::flow_of(tables, n);
            declared::has_start(tables, flow)
        }
        _ => false,
    }
}

// The first of the tests 7, 8 and 15 that refuses a command, if one does. 15: the low of a SPAN is above its high.
fn late_violation(tables: &[u32], c: Command) -> Option<Reason>
    ensures { (past : List Past) → Stands tables.now past → Plain (command_of c)
        → number_if result ≡ cond (out_of_reach past (command_of c)) 7 (cond (repeated past (command_of c)) 8 (cond (empty_span (command_of c)) 15 0)) }
{
    if is_out_of_reach(tables, c) {
        return Some(Reason::OutOfReach);
    }
    let repeated = is_repeated(tables, c);
    let empty = c.byte == bytes::SPAN && c.fourth < c.third;
    if repeated {
        return Some(Reason::Repeated);
    }
    if empty {
        return Some(Reason::EmptySpan);
    }
    None
}

// The first of the tests 4 to 8 and 15 that refuses a command, if one does.
pub fn violation_of(tables: &[u32], c: Command) -> Option<Reason>
    requires { Known c }
    ensures { (past : List Past) → Stands tables.now past → Plain (command_of c)
        → number_if result ≡ violation past (command_of c) }
{
    let group = c.group as u32;
    if group < declared::group(tables) {
        return Some(Reason::LowerGroup);
    }
    if exceeds_count(tables, c) {
        return Some(Reason::CountExceeded);
    }
    if is_undeclared(tables, c) {
        return Some(Reason::Undeclared);
    }
    late_violation(tables, c)
}
