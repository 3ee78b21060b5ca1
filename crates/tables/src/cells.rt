// All tables lie in one array of cells, a section each. A cell that was not noted is 0, and so is what lies outside a section. One
// array and no struct of arrays: one law of reading and of writing serves every section, and fixed memory is cleared in one step. Array,
// section and place go one by one: the places differ from question to question.
ghost use Rattle.std.specs.Prelude.{◌≡◌, ℕ, ◌+◌, ◌<◌, length};
ghost use Rattle.tables.specs.Bits.{bit_of};
ghost use Rattle.tables.specs.Cells.{cell_count, entry_in, put_in, flag_in, mark_in, mark_at, half_in, put_half, blank};

use crate::bits::{half_of, is_set, with_bit, with_half};

pub const CELLS: usize = 2720;

// A section: its first cell, and how many cells it has.
#[derive(Clone, Copy)]
pub struct Section(pub u16, pub u16);

// By command byte: how many commands.
pub const COUNTS: Section = Section(0, 128);
// The highest group so far, the node of the open handler, and how many items there are.
pub const PROGRESS: Section = Section(128, 32);
// By node: its flow.
pub const FLOW: Section = Section(160, 32);
// By variable: its scope, owner and start.
pub const SCOPE: Section = Section(192, 64);

pub const OWNER: Section = Section(256, 64);

pub const INITIAL: Section = Section(320, 64);
// By function: FUN's answer, and its last reply.
pub const ANSWER: Section = Section(384, 32);

pub const LAST_REPLY: Section = Section(416, 32);
// By node: how many commands its handler has, and 1 if it has a BODY.
pub const LENGTH: Section = Section(448, 32);

pub const BODY: Section = Section(480, 32);
// By flow: 1 if it has a START.
pub const STARTED: Section = Section(512, 32);
// By node: 1 if it has a START, and its first message.
pub const FIRST: Section = Section(544, 32);

pub const MESSAGE: Section = Section(576, 32);
// By item, an ARG, SPAN or REPLY command: its lowest and highest argument, or argument and answer; its byte with the item before it.
pub const ITEM_FIRST: Section = Section(608, 384);

pub const ITEM_SECOND: Section = Section(992, 384);

pub const ITEM_LINK: Section = Section(1376, 384);
// 64 bits a node, 32 a cell, by variable or function: 1 if there is a READ, a WRITE, an ANY.
pub const READS: Section = Section(1760, 64);

pub const WRITES: Section = Section(1824, 64);

pub const CALLS: Section = Section(1888, 64);
// 64 bits a port, 4 ports a node, by target: 1 if there is a WIRE.
pub const WIRES: Section = Section(1952, 256);
// Half a cell a function, 32 functions a node: its last range.
pub const LAST_RANGE: Section = Section(2208, 512);

// Cell i of a section.
#[tactic(auto, unfolding(crate::specs::Cells::entry_in))]
pub fn entry(tables: &[u32], s: Section, i: usize) -> u32
    ensures { result ≡ entry_in tables.now s i }
{
    let base = usize::from(s.0);
    let size = usize::from(s.1);
    if i < size {
        return tables.get(base + i).copied().unwrap_or(0);
    }
    0
}

// Sets cell i of a section: by index, since after a write through `get_mut` a proof knows nothing of the slice.
#[tactic(auto, unfolding(crate::specs::Cells::put_in))]
pub fn put(tables: &mut [u32], s: Section, i: usize, x: u32)
    ensures { tables.new ≡ put_in tables.old s i x }
{
    let base = usize::from(s.0);
    let size = usize::from(s.1);
    if i < size && base + i < tables.len() {
        tables[base + i] = x;
    }
}

// Whether cell i of a section is not 0.
#[tactic(auto, unfolding(crate::specs::Cells::flag_in))]
pub fn flagged(tables: &[u32], s: Section, i: usize) -> bool
    ensures { result ≡ flag_in tables.now s i }
{
    entry(tables, s, i) != 0
}

// Whether there is a mark at a row and a column of a section with 64 marks a row, 32 a cell.
#[tactic(auto, unfolding(crate::specs::Cells::mark_in))]
pub fn marked(tables: &[u32], s: Section, row: usize, column: usize) -> bool
    ensures { result ≡ mark_in tables.now s row column }
{
    row < 128
        && column < 64
        && is_set(
            entry(tables, s, row * 2 + column / 32),
            (column % 32) as u32,
        )
}

// The first 32 marks of a row of such a section, as the bits of a number.
pub fn marks_of(tables: &[u32], s: Section, row: usize) -> u32
    ensures { (k : ℕ) → k < 32 → bit_of result k ≡ mark_in tables.now s row k }
{
    if row < 128 {
        return entry(tables, s, row * 2);
    }
    0
}

// Makes a mark at a row and a column of such a section.
#[tactic(auto, unfolding(crate::specs::Cells::mark_at))]
pub fn mark(tables: &mut [u32], s: Section, row: usize, column: usize)
    ensures { tables.new ≡ mark_at tables.old s row column }
{
    if row < 128 && column < 64 {
        let i = row * 2 + column / 32;
        let marks = entry(tables, s, i);
        put(tables, s, i, with_bit(marks, (column % 32) as u32));
    }
}

// Half i of a section with two halves a cell.
pub fn half(tables: &[u32], s: Section, i: usize) -> u32
    ensures { result ≡ half_in tables.now s i }
{
    let x = entry(tables, s, i / 2);
    half_of(x, i)
}

// Sets half i of such a section.
pub fn put_half(tables: &mut [u32], s: Section, i: usize, h: u32)
    ensures { tables.new ≡ put_half tables.old s i h }
{
    let x = entry(tables, s, i / 2);
    put(tables, s, i / 2, with_half(x, i, h));
}

// Makes every cell 0.
pub fn clear(tables: &mut [u32; CELLS])
    ensures { tables.new ≡ blank }
{
    tables.fill(0);
}
