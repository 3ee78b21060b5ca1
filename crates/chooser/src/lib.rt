// The dispatcher's choice (S-2): the first ready node, going round by number. Positions, counts and ready count are lent one by one: they
// are fields of the state, which lies above.
#![tactic(auto)]

ghost use Rattle.std.specs.Prelude.{◌≡◌, ◌≤◌};
ghost use Rattle.memory.specs.Ready.{ready_count_in};
ghost use Rattle.chooser.specs.Choosing.{choose_in, choice_of, wrapped_to};

use command::numbers::NodeNum;
use memory::ready::is_ready;

// A choice: the node that was chosen, if there is one, and how many nodes were examined for it.
#[derive(Clone, Copy)]
pub struct Choice {
    pub node: Option<NodeNum>,
    pub examined: u32,
}

// A number up to that of the nodes, as a node: after the last one comes node 0.
fn wrapped(n: u32, nodes: u32) -> u32
    ensures { result ≡ wrapped_to nodes n }
{
    if n < nodes {
        return n;
    }
    0
}

// The first ready node of so many, going round from a number on. If the ready count is 0 it is nobody, and no node is examined (S-4); else
// each is examined in turn until one is ready: a loop that yields the node by break, as 01 asks. That there are at most 32 nodes, and
// that the ready count is theirs, stays a clause: any numbers may be handed over.
pub fn choose(position: &[u32; 32], waiting: &[u8; 32], ready: u32, nodes: u32, from: u32) -> Choice
    requires nodes_bound { (nodes ≤ 32) × (from ≤ nodes) }
    requires ready_value { ready ≡ ready_count_in position.now waiting.now nodes }
    ensures { choice_of result ≡ choose_in position.now waiting.now nodes from }
{
    if ready == 0 {
        return Choice {
            node: None,
            examined: 0,
        };
    }
    let mut n = wrapped(from, nodes);
    let mut examined: u32 = 0;
    let node = loop {
        examined += 1;
        if is_ready(position, waiting, n) {
            break NodeNum(n);
        }
        n = wrapped(n + 1, nodes);
    };
    Choice {
        node: Some(node),
        examined,
    }
}
