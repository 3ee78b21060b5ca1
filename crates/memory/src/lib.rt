// The parts of a run's state: a node's registers, the queues with their senders, which nodes are ready, the variables; what they hold at
// the start, and what a turn changes in them.
#![tactic(auto)]

pub mod queues;
pub mod ready;
pub mod variables;

use command::numbers::VarNum;

// The position of a node that is idle: a number, as the definitions and the snapshot have it.
pub const IDLE: u32 = 255;

// The sender of a START value: a number, as the definitions and the snapshot have it.
pub const START_SENDER: u8 = 255;

// A node's registers: the position in its handler, the accumulator (01's "hand") and the message being handled.
#[derive(Clone, Copy)]
pub struct Registers {
    pub position: u32,
    pub accumulator: u32,
    pub message: u32,
}

// What a turn changes besides its node's registers: its queue, the queues of a port's targets, or a variable.
#[derive(Clone, Copy)]
pub enum Change {
    Nothing,
    Take,
    Send(u32),
    Store(VarNum),
}
