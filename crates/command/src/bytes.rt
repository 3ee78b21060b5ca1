// The command bytes. Numbers and no enum: the format names them, the tables count by them, tests go by ranges of them, and every definition
// speaks of the byte.
ghost use Rattle.std.specs.Prelude.{◌≡◌};
ghost use Rattle.command.specs.Rows.{is_handler_byte};

pub const FLOW: u8 = 0x01;

pub const NODE: u8 = 0x02;

pub const VAR: u8 = 0x10;

pub const FUN: u8 = 0x11;

pub const REPLY: u8 = 0x12;

pub const WIRE: u8 = 0x20;

pub const ANY: u8 = 0x30;

pub const ARG: u8 = 0x31;

pub const READ: u8 = 0x32;

pub const WRITE: u8 = 0x33;

pub const SPAN: u8 = 0x34;

pub const BODY: u8 = 0x40;

pub const SET: u8 = 0x41;

pub const TAKE: u8 = 0x42;

pub const GET: u8 = 0x43;

pub const PUT: u8 = 0x44;

pub const ADD: u8 = 0x45;

pub const PLUS: u8 = 0x46;

pub const JUMPZ: u8 = 0x47;

pub const JUMP: u8 = 0x48;

pub const SEND: u8 = 0x49;

pub const CALL: u8 = 0x4A;

pub const SKIP: u8 = 0x4B;

pub const START: u8 = 0x50;

pub const TURN: u8 = 0x60;

// The group of the permissions. Groups are numbers and no enum: test 4 asks which of two is lower.
pub const PERMISSION_GROUP: u8 = 3;

// The group of BODY and the handler commands; no later group has a command of a handler.
pub const HANDLER_GROUP: u8 = 4;

// Whether the byte is that of a handler command: 41 SET to 4B SKIP.
pub fn is_handler(byte: u8) -> bool
    ensures { result ≡ is_handler_byte byte }
{
    (SET..=SKIP).contains(&byte)
}
