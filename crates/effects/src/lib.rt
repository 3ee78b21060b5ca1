// Effects: what handler commands do, worked out from numbers before anything is changed.
#![tactic(auto)]

ghost use Rattle.std.specs.Prelude.{◌≡◌, ◌<◌};
ghost use Rattle.effects.specs.Effects.{Performs, effect};

use command::instruction::Instruction;
use declared::answer_of;
use memory::variables::variable_at;
use memory::{Change, Registers};

// An effect: the node's registers after a handler command, and the command's change.
#[derive(Clone, Copy)]
pub struct Effect {
    pub registers: Registers,
    pub change: Change,
}

// The effect of a command after which the node stands at a position with an accumulator.
fn continue_at(own: Registers, position: u32, accumulator: u32, change: Change) -> Effect
    ensures { result ≡ effect position accumulator own.message change }
{
    let registers = Registers {
        position,
        accumulator,
        ..own
    };
    Effect { registers, change }
}

// The effect of a handler command. ADD and PLUS add by the supplied wrapping add, as 01 asks. That the next position can be counted stays a
// clause: a type of registers could not tell it, for a jump leads to any number.
pub fn effect_of(
    tables: &[u32],
    instruction: Instruction,
    own: Registers,
    variable: &[u32],
) -> Effect
    requires { own.position < 4294967295 }
    ensures { Performs tables.now instruction own variable.now result }
{
    let next = own.position + 1;
    let a = own.accumulator;
    match instruction {
        Instruction::Set(value) => continue_at(own, next, value, Change::Nothing),
        Instruction::Take => continue_at(own, next, own.message, Change::Nothing),
        Instruction::Get(x) => continue_at(own, next, variable_at(variable, x), Change::Nothing),
        Instruction::Put(x) => continue_at(own, next, a, Change::Store(x)),
        Instruction::Add(value) => continue_at(
            own,
            next,
            std::num::wrapping_add_u32(a, value),
            Change::Nothing,
        ),
        Instruction::Plus(x) => {
            let value = variable_at(variable, x);
            continue_at(
                own,
                next,
                std::num::wrapping_add_u32(a, value),
                Change::Nothing,
            )
        }
        Instruction::JumpZero(target) => {
            if a == 0 {
                return continue_at(own, target, a, Change::Nothing);
            }
            continue_at(own, next, a, Change::Nothing)
        }
        Instruction::Jump(target) => continue_at(own, target, a, Change::Nothing),
        Instruction::Send(port) => continue_at(own, next, a, Change::Send(port)),
        Instruction::Call(f) => continue_at(own, next, answer_of(tables, f, a), Change::Nothing),
        Instruction::Skip => continue_at(own, next, a, Change::Nothing),
    }
}
