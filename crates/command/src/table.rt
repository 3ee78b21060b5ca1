// The command table: each command byte with its group, the widths and kinds of its operands, and its largest count.
ghost use Rattle.std.specs.Prelude.{◌≡◌};
ghost use Rattle.command.specs.Rows.{kind_of, unpacked, row_in, Finds};

// What an operand is, by the name in its column of the paper's table; absent where the command has none.
#[derive(Clone, Copy)]
pub enum OperandKind {
    Absent,
    Scope,
    Owner,
    Node,
    Port,
    Target,
    Function,
    Variable,
    Start,
    Answer,
    Value,
    Jump,
    Low,
    High,
    Argument,
}

// How many commands there are.
const ROW_COUNT: usize = 25;

// The rows, one number each: a table of structs is copied to the stack wherever it is used, which takes 81 instructions a look, and a search
// through numbers becomes a jump table. The columns, in hexadecimal digits: the largest count over the whole job, 0 for none (4); the kinds of the
// operands, the first one first (4); their widths (4); their length, the sum of these (1); the group (1); the byte (2).
const ROWS: [u64; ROW_COUNT] = [
    0x0008_0000_0000_0_0_01, // FLOW
    0x0020_0000_0000_0_0_02, // NODE
    0x0040_1280_1140_6_1_10, // VAR
    0x0020_9000_4000_4_1_11, // FUN
    0x0080_6E90_1440_9_1_12, // REPLY
    0x0000_3450_1110_3_2_20, // WIRE
    0x0000_3600_1100_2_3_30, // ANY
    0x0100_36A0_1140_6_3_31, // ARG
    0x0000_3700_1100_2_3_32, // READ
    0x0000_3700_1100_2_3_33, // WRITE
    0x0100_36CD_1144_A_3_34, // SPAN
    0x0000_3000_1000_1_4_40, // BODY
    0x0000_A000_4000_4_4_41, // SET
    0x0000_0000_0000_0_4_42, // TAKE
    0x0000_7000_1000_1_4_43, // GET
    0x0000_7000_1000_1_4_44, // PUT
    0x0000_A000_4000_4_4_45, // ADD
    0x0000_7000_1000_1_4_46, // PLUS
    0x0000_B000_1000_1_4_47, // JUMPZ
    0x0000_B000_1000_1_4_48, // JUMP
    0x0000_4000_1000_1_4_49, // SEND
    0x0000_6000_1000_1_4_4A, // CALL
    0x0000_0000_0000_0_4_4B, // SKIP
    0x0000_3A00_1400_5_5_50, // START
    0x1000_3000_1000_1_6_60, // TURN
];

// The columns of a row; the kinds are digits, and the `From` of `OperandKind` says which kind each stands for.
#[derive(Clone, Copy)]
pub struct Row {
    pub byte: u8,
    pub group: u8,
    pub length: u8,
    pub first_width: u8,
    pub second_width: u8,
    pub third_width: u8,
    pub fourth_width: u8,
    pub first_kind: u8,
    pub second_kind: u8,
    pub third_kind: u8,
    pub fourth_kind: u8,
    pub most: u32,
}

// The kind that a digit stands for. It is asked where a kind is needed: with all four in a row, decoding a TURN takes 22 instructions more.
impl From<u8> for OperandKind {
    ghost from_gives = { λ digit kind. kind ≡ kind_of digit };

    fn from(digit: u8) -> OperandKind {
        match digit {
            1 => OperandKind::Scope,
            2 => OperandKind::Owner,
            3 => OperandKind::Node,
            4 => OperandKind::Port,
            5 => OperandKind::Target,
            6 => OperandKind::Function,
            7 => OperandKind::Variable,
            8 => OperandKind::Start,
            9 => OperandKind::Answer,
            10 => OperandKind::Value,
            11 => OperandKind::Jump,
            12 => OperandKind::Low,
            13 => OperandKind::High,
            14 => OperandKind::Argument,
            _ => OperandKind::Absent,
        }
    }
}

// The columns of a packed row.
pub fn unpack(row: u64) -> Row
    ensures { result ≡ unpacked row }
{
    Row {
        byte: (row % 0x100) as u8,
        group: (row / 0x100 % 0x10) as u8,
        length: (row / 0x1000 % 0x10) as u8,
        first_width: (row / 0x1000_0000 % 0x10) as u8,
        second_width: (row / 0x100_0000 % 0x10) as u8,
        third_width: (row / 0x10_0000 % 0x10) as u8,
        fourth_width: (row / 0x1_0000 % 0x10) as u8,
        first_kind: (row / 0x1000_0000_0000 % 0x10) as u8,
        second_kind: (row / 0x100_0000_0000 % 0x10) as u8,
        third_kind: (row / 0x10_0000_0000 % 0x10) as u8,
        fourth_kind: (row / 0x1_0000_0000 % 0x10) as u8,
        most: (row / 0x1_0000_0000_0000 % 0x1_0000) as u32,
    }
}

// The first of some rows with this byte.
fn row_in(rows: &[u64], byte: u8) -> Option<u64>
    ensures { result ≡ row_in rows.now byte }
{
    for row in rows {
        if (*row % 0x100) as u8 == byte {
            return Some(*row);
        }
    }
    None
}

// The packed row of a command byte; none for a byte that is no command.
pub fn row_of(byte: u8) -> Option<u64>
    ensures { Finds byte result }
{
    let rows = ROWS;
    row_in(&rows, byte)
}

// The same, for the reader of commands. It does not call `row_of`: the compiler inlines a function that has the rows into one caller only,
// and with one function for both a turn takes 14 instructions more.
pub fn look_up(byte: u8) -> Option<u64>
    ensures { Finds byte result }
{
    let table = ROWS;
    row_in(&table, byte)
}
