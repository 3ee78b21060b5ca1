// The handlers of an accepted job: the work buffer holds the place of each of their commands, and a command is read from the job when it is
// fetched. Nothing else knows where a command lies.
#![tactic(auto)]

pub mod fetch;
pub mod load;

ghost use Rattle.std.specs.Prelude.{◌≡◌};
ghost use Rattle.handlers.specs.Loading.{slot_of};

use command::numbers::NodeNum;

// The slot of a node's command: 64 commands a node, 2 bytes a command.
pub(crate) fn slot_of(n: NodeNum, i: u32) -> usize
    ensures { result ≡ slot_of n.0 i }
{
    ((n.0 as usize) * 64 + (i as usize)) * 2
}
