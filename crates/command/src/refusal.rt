// Refusals.
ghost use Rattle.std.specs.Prelude.{◌≡◌};
ghost use Rattle.command.specs.Refusals.{number_of};

// Which test turns a job away; the numbers are 01's, and those of S-2 (13 and 14), S-5 (15) and S-7 (19).
#[derive(Clone, Copy)]
pub enum Reason {
    Length = 1,
    UnknownByte = 2,
    CutShort = 3,
    LowerGroup = 4,
    CountExceeded = 5,
    Undeclared = 6,
    OutOfReach = 7,
    Repeated = 8,
    FarJump = 9,
    ShortTrace = 10,
    ShortSnapshot = 11,
    ShortWork = 12,
    BadBudget = 13,
    WrittenTurn = 14,
    EmptySpan = 15,
    UnusedPermission = 19,
}

impl Reason {
    // The number of the refusal.
    pub fn number(self) -> u8
        ensures { result ≡ number_of self }
    {
        self as u8
    }
}

// Why a job is turned away: the test that it fails, and the place.
#[derive(Clone, Copy)]
pub struct Refusal {
    pub reason: Reason,
    pub place: usize,
}
