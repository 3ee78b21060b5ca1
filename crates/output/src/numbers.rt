// Entries in document 01's numbers.
ghost use Rattle.std.specs.Prelude.{◌≡◌};
ghost use Rattle.model.specs.Turn.{entry};
ghost use Rattle.entries.specs.Entries.{numbers_of};
ghost use Rattle.output.specs.Written.{entry_with, kind_number};

use entries::{Entry, Event};

// The kinds of entries; the numbers are 01's.
#[derive(Clone, Copy)]
pub enum Kind {
    Other = 0,
    Begin = 1,
    Finish = 2,
    Read = 3,
    Write = 4,
    Call = 5,
    Send = 6,
}

impl Kind {
    // The number of the kind.
    pub fn number(self) -> u8
        ensures { result ≡ kind_number self }
    {
        self as u8
    }
}

// Node, kind, number and value, as trace and lines show them: the kind is 01's number, or any other that a file keeps.
#[derive(Clone, Copy)]
pub struct Numbers {
    pub node: u32,
    pub kind: u32,
    pub number: u32,
    pub value: u32,
}

// These numbers together.
fn numbered(node: u32, kind: Kind, number: u32, value: u32) -> Numbers
    ensures { entry_with result ≡ entry node (kind_number kind) number value }
{
    Numbers {
        node,
        kind: u32::from(kind.number()),
        number,
        value,
    }
}

// The numbers of an entry.
impl From<Entry> for Numbers {
    ghost from_gives = { λ entry result. entry_with result ≡ numbers_of entry };

    fn from(entry: Entry) -> Numbers {
        let node = entry.node.0;
        match entry.event {
            Event::Other => numbered(node, Kind::Other, 0, 0),
            Event::Begin(sender, message) => numbered(
                node,
                Kind::Begin,
                u32::from(sender),
                message,
            ),
            Event::Finish => numbered(node, Kind::Finish, 0, 0),
            Event::Read(x, value) => numbered(node, Kind::Read, x.0, value),
            Event::Write(x, value) => numbered(node, Kind::Write, x.0, value),
            Event::Call(f, argument) => numbered(node, Kind::Call, f.0, argument),
            Event::Send(port, value) => numbered(node, Kind::Send, port, value),
        }
    }
}
