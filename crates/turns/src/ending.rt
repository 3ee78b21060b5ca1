// How a run ends.
ghost use Rattle.std.specs.Prelude.{◌≡◌};
ghost use Rattle.output.specs.Written.{entry_with};
ghost use Rattle.turns.specs.Endings.{answer_of};

use command::numbers::NodeNum;
use entries::{Entry, Event, Stop};
use output::numbers::Numbers;

// Why a run is over: its turns ran out, a turn was stopped, or nobody was ready (S-2).
#[derive(Clone, Copy)]
pub enum Halt {
    RanOut,
    Stopped(Stop),
    NobodyReady,
}

// How a run ended: why it is over, and the completed turns.
#[derive(Clone, Copy)]
pub struct Ending {
    pub halt: Halt,
    pub turns: u32,
}

// How a run ended, and how many nodes were examined for its choices: none, where its turns are written.
#[derive(Clone, Copy)]
pub struct CountedEnding {
    pub ending: Ending,
    pub examined: u32,
}

impl Ending {
    // The number of the stop.
    pub fn stop(self) -> u32
        ensures { result ≡ (answer_of self).stop }
    {
        match self.halt {
            Halt::RanOut => 0,
            Halt::Stopped(Stop::Forbidden(_)) => 1,
            Halt::Stopped(Stop::Unready(_)) => 2,
            Halt::Stopped(Stop::Full(_)) => 3,
            Halt::NobodyReady => 4,
        }
    }

    // The numbers of the attempted entry: of a node that was not ready there is no more than the node, and all are 0 if no turn was stopped.
    pub fn attempted(self) -> Numbers
        ensures { entry_with result ≡ (answer_of self).attempted }
    {
        let event = Event::Other;
        match self.halt {
            Halt::Stopped(Stop::Forbidden(entry) | Stop::Full(entry)) => Numbers::from(entry),
            Halt::Stopped(Stop::Unready(node)) => Numbers::from(Entry { node, event }),
            _ => Numbers::from(Entry {
                node: NodeNum(0),
                event,
            }),
        }
    }
}
