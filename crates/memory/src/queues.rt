// The waiting messages of all nodes: their values in one flat array of 16 slots a node, their senders in a second one beside it, and how many
// messages wait at each node. The arrays are lent one by one: they are fields of the state, which lies above.
ghost use Rattle.std.specs.Prelude.{◌≡◌, false, map, ◌<◌, length, get_or};
ghost use Rattle.model.specs.Table.{max_nodes};
ghost use Rattle.model.specs.State.{start_sender, message_from, tabulate};
ghost use Rattle.tables.specs.Tables.{wired_in, firsts_in};
ghost use Rattle.memory.specs.Queues.{count_at, Holds, BringsOnly, full, stored, counted};
ghost use Rattle.memory.specs.Changes.{Possible, slots_after, counts_after};

use crate::Change;
use command::numbers::NodeNum;
use declared::{first_message, is_wired, targets_of};
use tables::bits::Places;

// The queues hold the START values.
pub fn fill_queues(queue: &mut [u32; 512], waiting: &mut [u8; 32], tables: &[u32])
    ensures queues { Holds waiting.new (map (message_from start_sender) queue.new)
        (tabulate max_nodes (λ n. map (message_from start_sender) (firsts_in tables.now n))) }
    ensures slots { BringsOnly (λ n. message_from start_sender (get_or (firsts_in tables.now n) 0 0))
        (map (message_from start_sender) queue.old) (map (message_from start_sender) queue.new) }
    ensures size { length queue.new ≡ 512 }
{
    for n in 0..32 {
        if let Some(value) = first_message(tables, NodeNum(n as u32)) {
            queue[n * 16] = value;
            waiting[n] = 1;
        } else {
            waiting[n] = 0;
        }
    }
}

// Whether 16 messages wait at some target of a node's port.
pub fn has_full(tables: &[u32], n: NodeNum, port: u32, waiting: &[u8; 32]) -> bool
    ensures { result ≡ full (wired_in tables.now n.0 port) (count_at waiting.now) }
{
    (0..32).any(|k| 16 <= waiting[k] && is_wired(tables, n, port, NodeNum(k as u32)))
}

// The value goes to the first free slot of each target of a node's port, with the node as its sender, and one message more waits there.
fn deliver(
    queue: &mut [u32; 512],
    sender: &mut [u8; 512],
    waiting: &mut [u8; 32],
    tables: &[u32],
    n: NodeNum,
    port: u32,
    value: u32,
)
    requires n_bound { n.0 < 32 }
    requires waiting_value { full (wired_in tables.now n.0 port) (count_at waiting.old) ≡ false }
    ensures values { queue.new
        ≡ stored (wired_in tables.now n.0 port) waiting.old value queue.old max_nodes }
    ensures senders { sender.new
        ≡ stored (wired_in tables.now n.0 port) waiting.old n.0 sender.old max_nodes }
    ensures counts { waiting.new ≡ counted (wired_in tables.now n.0 port) waiting.old max_nodes }
{
    let from = n.0 as u8;
    let targets = targets_of(tables, n, port);
    for target in Places(targets) {
        let at = target * 16 + usize::from(waiting[target]);
        queue[at] = value;
        sender[at] = from;
        waiting[target] += 1;
    }
}

// The queues after a change of a node: its oldest message leaves, or the value is sent, with the node as its sender.
pub fn change_queues(
    queue: &mut [u32; 512],
    sender: &mut [u8; 512],
    waiting: &mut [u8; 32],
    tables: &[u32],
    n: NodeNum,
    change: Change,
    value: u32,
)
    requires n_bound { n.0 < 32 }
    requires possible { Possible (wired_in tables.now n.0) n.0 (count_at waiting.old) change }
    ensures values { queue.new
        ≡ slots_after (wired_in tables.now n.0) n.0 value waiting.old queue.old change }
    ensures senders { sender.new
        ≡ slots_after (wired_in tables.now n.0) n.0 n.0 waiting.old sender.old change }
    ensures counts { waiting.new
        ≡ counts_after (wired_in tables.now n.0) n.0 waiting.old change }
{
    match change {
        Change::Take => {
            let i = n.0 as usize;
            let oldest = i * 16;
            queue.copy_within(oldest + 1..oldest + 16, oldest);
            sender.copy_within(oldest + 1..oldest + 16, oldest);
            waiting[i] -= 1;
        }
        Change::Send(port) => deliver(queue, sender, waiting, tables, n, port, value),
        _ => {}
    }
}
