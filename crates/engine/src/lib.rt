// The engine: the state of a run, its start, and one turn.
#![tactic(auto)]

ghost use Rattle.std.specs.Prelude.{◌≡◌, ◌⊎◌, ◌≤◌, ◌<◌, get_or, None};
ghost use Rattle.model.specs.Table.{NODE};
ghost use Rattle.command.specs.Instructions.{fetched_of};
ghost use Rattle.tables.specs.Tables.{count_in};
ghost use Rattle.memory.specs.Queues.{BoundedCounts};
ghost use Rattle.memory.specs.Ready.{Among};
ghost use Rattle.engine.specs.Engine.{CountsReady, Starts, Turns};

use command::bytes;
use command::instruction::Instruction;
use command::numbers::NodeNum;
use declared::count_of;
use entries::{Entry, Stop};
use memory::queues::{change_queues, fill_queues};
use memory::ready::count_ready;
use memory::variables::{change_variable, fill_variables};
use memory::{IDLE, Registers, START_SENDER};
use plans::plan_turn;

// The state of a run: of each node the position in its handler, the accumulator (01's "hand"), the message being handled and how many
// messages wait; the waiting messages of all nodes, 16 slots a node, oldest first, and their senders; the variables; how many nodes are
// ready (S-4). Arrays of one size for every job: no heap, fixed memory. Positions lie apart from accumulators and messages, since
// `chooser::choose` and `memory::ready` are lent the positions alone; values lie apart from senders, since both together take 8 bytes in an
// array: the state would grow from 3,236 bytes to 4,772, and a turn copies it three times. That no more messages wait at a node than it has
// slots, and that the ready count is that of its nodes, stay clauses (`BoundedCounts`, `CountsReady`): `ready_count` takes any state.
#[derive(Drop)]
pub struct State {
    pub position: [u32; 32],
    pub accumulator: [u32; 32],
    pub message: [u32; 32],
    pub waiting: [u8; 32],
    pub queue: [u32; 512],
    pub sender: [u8; 512],
    pub variable: [u32; 64],
    pub ready: u32,
}

// What a turn hands back: the state after it, and its entry or stop.
#[derive(Drop)]
pub struct Turned {
    pub state: State,
    pub outcome: Result<Entry, Stop>,
}

// Every node is idle, its accumulator and message 0; the queues hold the START values, each slot as sent by START; the variables hold
// their starts; the ready nodes are counted. That there are at most 32 nodes stays a clause: the tables tell it of accepted jobs alone.
pub fn start(tables: &[u32]) -> State
    requires { count_in tables.now NODE ≤ 32 }
    ensures { Starts tables.now result }
{
    let mut s = State {
        position: [IDLE; 32],
        accumulator: [0; 32],
        message: [0; 32],
        waiting: [0; 32],
        queue: [0; 512],
        sender: [START_SENDER; 512],
        variable: [0; 64],
        ready: 0,
    };
    fill_queues(&mut s.queue, &mut s.waiting, tables);
    let nodes = count_of(tables, bytes::NODE);
    s.ready = count_ready(&s.position, &s.waiting, nodes);
    fill_variables(&mut s.variable, tables);
    s
}

impl State {
    // The ready count: what a display asks for after every turn.
    pub fn ready_count(&self) -> u32
        ensures { result ≡ self.now.ready }
    {
        self.ready
    }

    // One turn of a node, by the tables and by what stands in its handler at its position: planned first, and then carried out. That the
    // next position can be counted stays a clause, as in `effects`; `monitored` is a bool, by which the definitions choose (`rule_of`).
    pub fn turn(
        mut self,
        tables: &[u32],
        fetched: Option<Instruction>,
        n: NodeNum,
        monitored: bool,
    ) -> Turned
        requires bounded_counts { BoundedCounts self.waiting }
        requires among { Among tables.now n.0 }
        requires fact { (fetched_of fetched ≡ None) ⊎ (get_or self.position n.0 0 < 4294967295) }
        requires counts_ready { CountsReady tables.now self }
        ensures { Turns tables.now fetched n.0 monitored self result }
    {
        let i = n.0 as usize;
        let position = self.position[i];
        let accumulator = self.accumulator[i];
        let message = self.message[i];
        let oldest = self.queue[i * 16];
        let sender = self.sender[i * 16];
        let ready = self.ready;
        let registers = Registers {
            position,
            accumulator,
            message,
        };
        let plan = plan_turn(
            tables,
            fetched,
            n,
            monitored,
            registers,
            oldest,
            sender,
            &self.waiting,
            &self.variable,
            &self.position,
            ready,
        );
        let next = plan.registers;
        let change = plan.change;
        change_queues(
            &mut self.queue,
            &mut self.sender,
            &mut self.waiting,
            tables,
            n,
            change,
            accumulator,
        );
        change_variable(&mut self.variable, change, accumulator);
        self.position[i] = next.position;
        self.accumulator[i] = next.accumulator;
        self.message[i] = next.message;
        self.ready = plan.ready;
        Turned {
            state: self,
            outcome: plan.outcome,
        }
    }
}
