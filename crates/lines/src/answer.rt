// The answer of a run in document 01's numbers, as its line shows it.
ghost use Rattle.std.specs.Prelude.{◌≡◌};
ghost use Rattle.turns.specs.Endings.{answer_of};
ghost use Rattle.lines.specs.Lines.{answer_with};

use output::numbers::Numbers;
use turns::ending::Ending;

// Stop, completed turns and attempted entry: any numbers, also those that an exported call wrote or a file keeps.
#[derive(Clone, Copy)]
pub struct AnswerNumbers {
    pub stop: u32,
    pub turns: u32,
    pub attempted: Numbers,
}

// The numbers of an ending.
impl From<Ending> for AnswerNumbers {
    ghost from_gives = { λ ending result. answer_with result ≡ answer_of ending };

    fn from(ending: Ending) -> AnswerNumbers {
        AnswerNumbers {
            stop: ending.stop(),
            turns: ending.turns,
            attempted: ending.attempted(),
        }
    }
}
