// The commands of a handler, each with its operand.
ghost use Rattle.std.specs.Prelude.{◌≡◌};
ghost use Rattle.command.specs.Instructions.{instruction_of, recognised, instruction_from};

use crate::bytes;
use crate::numbers::{FunNum, VarNum};
use crate::read::operand;
use crate::table::{row_of, unpack};

#[derive(Clone, Copy)]
pub enum Instruction {
    Set(u32),
    Take,
    Get(VarNum),
    Put(VarNum),
    Add(u32),
    Plus(VarNum),
    JumpZero(u32),
    Jump(u32),
    Send(u32),
    Call(FunNum),
    Skip,
}

// The handler command with this byte and operand; SKIP for a byte that is none.
pub fn instruction_of(byte: u8, x: u32) -> Instruction
    ensures { instruction_of result ≡ recognised byte x }
{
    match byte {
        bytes::SET => Instruction::Set(x),
        bytes::TAKE => Instruction::Take,
        bytes::GET => Instruction::Get(VarNum(x)),
        bytes::PUT => Instruction::Put(VarNum(x)),
        bytes::ADD => Instruction::Add(x),
        bytes::PLUS => Instruction::Plus(VarNum(x)),
        bytes::JUMPZ => Instruction::JumpZero(x),
        bytes::JUMP => Instruction::Jump(x),
        bytes::SEND => Instruction::Send(x),
        bytes::CALL => Instruction::Call(FunNum(x)),
        _ => Instruction::Skip,
    }
}

// The handler command at a place of a job, by the row of its byte; SKIP where none is read, and no `Option`: that is what
// is promised of any bytes. It has one operand at most.
pub fn read_instruction(job: &[u8], at: usize) -> Instruction
    ensures { instruction_of result ≡ instruction_from job.now at }
{
    let Some(&byte) = job.get(at) else {
        return Instruction::Skip;
    };
    if !bytes::is_handler(byte) {
        return Instruction::Skip;
    }
    let Some(row) = row_of(byte) else {
        return Instruction::Skip;
    };
    let shape = unpack(row);
    let width = shape.first_width;
    if job.len() < at + 1 + (width as usize) {
        return Instruction::Skip;
    }
    let x = operand(job, at + 1, width);
    instruction_of(byte, x)
}
