// Which nodes are ready (S-2), and how many (S-4). Positions and counts are lent one by one: they are fields of the state, which lies
// above. That there are at most 32 nodes, and so many ready ones, stays a clause: any number may be handed over.
ghost use Rattle.std.specs.Prelude.{◌≡◌, ◌+◌, ◌≤◌, ◌<◌};
ghost use Rattle.tables.specs.Tables.{wired_in};
ghost use Rattle.memory.specs.Ready.{ready_in, ready_count_in, woken_in, woken_by};

use crate::{Change, IDLE};
use command::numbers::NodeNum;
use declared::targets_of;
use tables::bits::Places;

// Whether a node is ready: it is, unless it is idle with an empty queue.
pub fn is_ready(position: &[u32; 32], waiting: &[u8; 32], n: u32) -> bool
    requires { n < 32 }
    ensures { result ≡ ready_in position.now waiting.now n }
{
    let i = n as usize;
    position[i] != IDLE || waiting[i] != 0
}

// How many of so many nodes are ready.
pub fn count_ready(position: &[u32; 32], waiting: &[u8; 32], nodes: u32) -> u32
    requires { nodes ≤ 32 }
    ensures { result ≡ ready_count_in position.now waiting.now nodes }
{
    let mut count = 0;
    for n in 0..nodes {
        if is_ready(position, waiting, n) {
            count += 1;
        }
    }
    count
}

// How many targets of a node's port a message wakes: those that are not ready.
fn woken(tables: &[u32], n: NodeNum, port: u32, position: &[u32; 32], waiting: &[u8; 32]) -> u32
    ensures { result ≡ woken_in (wired_in tables.now n.0 port) position.now waiting.now }
{
    Places(targets_of(tables, n, port))
        .filter(|k| !is_ready(position, waiting, *k as u32))
        .count() as u32
}

// The ready count with the nodes that a change of a node wakes.
pub fn ready_with(
    ready: u32,
    tables: &[u32],
    n: NodeNum,
    change: Change,
    position: &[u32; 32],
    waiting: &[u8; 32],
) -> u32
    requires { ready ≤ 32 }
    ensures { result ≡ ready + woken_by (wired_in tables.now n.0) position.now waiting.now change }
{
    if let Change::Send(port) = change {
        return ready + woken(tables, n, port, position, waiting);
    }
    ready
}
