// What one turn of a node comes to, planned from numbers before anything is changed.
#![tactic(auto)]

ghost use Rattle.std.specs.Prelude.{◌≡◌, ◌⊎◌, not, ◌&&◌, ◌<◌, get_or, None, Ok, Err};
ghost use Rattle.model.specs.Permission.{permitted};
ghost use Rattle.model.specs.State.{message_from, idle};
ghost use Rattle.command.specs.Instructions.{fetched_of};
ghost use Rattle.tables.specs.Programs.{Handlers, program_in};
ghost use Rattle.entries.specs.Entries.{entry_for};
ghost use Rattle.memory.specs.declared.Change.TheVariants.{Nothing};
ghost use Rattle.memory.specs.Ready.{ReadyCounted};
ghost use Rattle.plans.specs.Plans.{plan, entry_by, Blocks, PlansCommand, PlansTurn, IdlesAtEnd, PlansReady};

use command::instruction::Instruction;
use command::numbers::NodeNum;
use effects::effect_of;
use entries::{Entry, Event, Stop, event_of, is_permitted, redact};
use memory::queues::has_full;
use memory::ready::ready_with;
use memory::{Change, IDLE, Registers};

// A turn: the node's registers after it, its change, its outcome, and how many nodes are ready after it (S-4).
#[derive(Clone, Copy)]
pub struct Plan {
    pub registers: Registers,
    pub change: Change,
    pub outcome: Result<Entry, Stop>,
    pub ready: u32,
}

// Whether a handler command is a send with a full target.
fn blocks(tables: &[u32], n: NodeNum, instruction: Instruction, waiting: &[u8; 32]) -> bool
    ensures { Blocks tables.now n.0 instruction waiting.now result }
{
    if let Instruction::Send(port) = instruction {
        has_full(tables, n, port, waiting)
    } else {
        false
    }
}

// Whether the run is monitored and the lists do not permit the event.
fn is_forbidden(tables: &[u32], n: NodeNum, monitored: bool, event: Event) -> bool
    ensures { (hs : Handlers) → result ≡ (monitored && not (permitted (program_in tables.now hs) (entry_for n.0 event))) }
{
    monitored && !is_permitted(tables, n, event)
}

impl Plan {
    // The plan of a turn that leaves its entry: the node's registers, the change and the ready count are new.
    fn made(n: NodeNum, event: Event, registers: Registers, change: Change, ready: u32) -> Plan
        ensures { result ≡ plan registers change (Ok (entry_by n event)) ready }
    {
        let outcome = Ok(Entry { node: n, event });
        Plan {
            registers,
            change,
            outcome,
            ready,
        }
    }

    // The plan of a turn that is stopped: registers and ready count are as before it, and nothing changes.
    fn stopped(registers: Registers, stop: Stop, ready: u32) -> Plan
        ensures { result ≡ plan registers Nothing (Err stop) ready }
    {
        let outcome = Err(stop);
        Plan {
            registers,
            change: Change::Nothing,
            outcome,
            ready,
        }
    }
}

// The turn of a node at a handler command: forbidden, a target full, or made. What the command does, and how many nodes are ready after
// it, is worked out first, and stands only in the plan of a turn that is made.
fn decide<'a>(
    tables: &[u32],
    n: NodeNum,
    monitored: bool,
    instruction: Instruction,
    registers: Registers,
    waiting: &'a [u8; 32],
    variable: &'a [u32],
    position: &'a [u32; 32],
    ready: u32,
) -> Plan
    requires position_bound { registers.position < 4294967295 }
    requires ready_counted { ReadyCounted tables.now n.0 position.now waiting.now ready }
    requires position_value { registers.position ≡ get_or position.now n.0 0 }
    requires not_registers_position { ¬ (registers.position ≡ idle) }
    ensures plans_command { PlansCommand tables.now n monitored instruction registers waiting.now
        variable.now result }
    ensures ready { ¬ (result.registers.position ≡ idle)
        → PlansReady tables.now n.0 position.now waiting.now result }
{
    let event = event_of(tables, instruction, registers.accumulator, variable);
    let effect = effect_of(tables, instruction, registers, variable);
    let change = effect.change;
    let counted = ready_with(ready, tables, n, change, position, waiting);
    if is_forbidden(tables, n, monitored, event) {
        let event = redact(event);
        let entry = Entry { node: n, event };
        return Plan::stopped(registers, Stop::Forbidden(entry), ready);
    }
    if blocks(tables, n, instruction, waiting) {
        let entry = Entry { node: n, event };
        return Plan::stopped(registers, Stop::Full(entry), ready);
    }
    Plan::made(n, event, effect.registers, change, counted)
}

// The turn of a node, by what stands in its handler at its position, its registers, the message in its first slot with its sender, how many
// messages wait at each node, the variables, the positions of all nodes and how many are ready. A node that begins was ready and is; one
// that finishes is no longer, unless a message waits at it. What is handed over one by one are parts of the state, which lies above: with a
// struct of what is lent, every clause would be longer. That the next position can be counted stays a clause, as in `effects`. `monitored`
// is a bool and no closure: by it the definitions choose the rule (`rule_of`).
pub fn plan_turn<'a>(
    tables: &[u32],
    fetched: Option<Instruction>,
    n: NodeNum,
    monitored: bool,
    registers: Registers,
    oldest: u32,
    sender: u8,
    waiting: &'a [u8; 32],
    variable: &'a [u32],
    position: &'a [u32; 32],
    ready: u32,
) -> Plan
    requires fact { (fetched_of fetched ≡ None) ⊎ (registers.position < 4294967295) }
    requires ready_counted { ReadyCounted tables.now n.0 position.now waiting.now ready }
    requires position_value { registers.position ≡ get_or position.now n.0 0 }
    ensures plans_turn { PlansTurn tables.now fetched n monitored registers (message_from sender oldest) waiting.now
        variable.now result }
    ensures ready { IdlesAtEnd fetched registers.position result.registers.position
        → PlansReady tables.now n.0 position.now waiting.now result }
{
    let i = n.0 as usize;
    if registers.position == IDLE {
        if waiting[i] == 0 {
            return Plan::stopped(registers, Stop::Unready(n), ready);
        }
        let begun = Registers {
            position: 0,
            accumulator: 0,
            message: oldest,
        };
        return Plan::made(n, Event::Begin(sender, oldest), begun, Change::Take, ready);
    }
    match fetched {
        Some(instruction) => {
            decide(
                tables,
                n,
                monitored,
                instruction,
                registers,
                waiting,
                variable,
                position,
                ready,
            )
        }
        None => {
            let idle = Registers {
                position: IDLE,
                accumulator: 0,
                message: 0,
            };
            let left = if waiting[i] == 0 { ready - 1 } else { ready };
            Plan::made(n, Event::Finish, idle, Change::Nothing, left)
        }
    }
}
