// The tests 9 and 19, by a second look at the commands of a job that passed the tests 1 to 8 and 15.
ghost use Rattle.std.specs.Prelude.{◌≡◌, cond, not, ◌&&◌, ◌||◌, List, ◌+◌, ◌<◌, eqb, ltb, length, get_or, Some, is_some};
ghost use Rattle.model.specs.Table.{JUMPZ, JUMP};
ghost use Rattle.model.specs.Command.{Command as Past};
ghost use Rattle.model.specs.Refusal.{accepted, decode, first_of, far_jump, unused_permission};
ghost use Rattle.tables.specs.Stands.{Stands};
ghost use Rattle.uses.specs.Uses.{Uses, unused_in};
ghost use Rattle.job.specs.Decoding.{verdict_of, unused_at};

use command::bytes;
use command::numbers::NodeNum;
use command::read::{Head, open_after, read_head};
use command::refusal::{Reason, Refusal};
use declared::length_of;
use uses::is_unused;

// A jump whose target exceeds its handler's command count.
fn is_far(c: Head, len: u32) -> bool
    ensures { result ≡ ((eqb c.byte JUMPZ || eqb c.byte JUMP) && ltb len c.first) }
{
    matches!(c.byte, bytes::JUMPZ | bytes::JUMP) && len < c.first
}

// The second operand of a permission at a place, its variable or function: the byte after its node; 0 after the end of the job.
fn second_of(job: &[u8], at: usize) -> u32
    requires { at < length job.now }
    ensures { result ≡ get_or job.now (at + 2) 0 }
{
    u32::from(job.get(at + 2).copied().unwrap_or(0))
}

// The place of the first unused permission, if there is one: that of the commands before, or else the place of this command, if it is one.
fn first_unused(
    job: &[u8],
    uses: &[u32],
    at: usize,
    c: Head,
    before: Option<usize>,
) -> Option<usize>
    requires { at < length job.now }
    ensures { result ≡ cond (not (eqb c.group 3) || is_some before) before
        (cond (unused_in uses.now c.byte c.first (get_or job.now (at + 2) 0)) (Some at) before) }
{
    if (c.group != bytes::PERMISSION_GROUP) | before.is_some() {
        return before;
    }
    if is_unused(uses, c.byte, NodeNum(c.first), second_of(job, at)) {
        return Some(at);
    }
    before
}

// 19 at the place of the first unused permission, if there is one.
fn refuse_unused(unused: Option<usize>) -> Result<(), Refusal>
    ensures { verdict_of result ≡ unused_at unused }
{
    match unused {
        Some(place) => Err(Refusal {
            reason: Reason::UnusedPermission,
            place,
        }),
        None => Ok(()),
    }
}

// 9: refused at the first jump whose target exceeds its handler's command count. 19: if there is none, refused at the first permission that
// its node's handler has no command for. Neither stands behind a command of a group above 4. The place goes on by the length of each
// command, so no range has it; nor has it an iterator: what is known of the commands so far stands in the loop's invariants, and an
// iterator's clause would have to say it of all of them at once.
pub(crate) fn check_later(job: &[u8], tables: &[u32], uses: &[u32]) -> Result<(), Refusal>
    ensures { (all : List Past) → decode job.now ≡ accepted all → Stands tables.now all
        → Uses uses.now all → verdict_of result ≡ first_of (far_jump all) (unused_permission all) }
{
    let mut at = 0;
    let mut opened = NodeNum(0);
    let mut unused = None;
    while at < job.len() {
        let Some(c) = read_head(job, at) else {
            return Ok(());
        };
        if bytes::HANDLER_GROUP < c.group {
            return refuse_unused(unused);
        }
        let len = length_of(tables, opened);
        if is_far(c, len) {
            return Err(Refusal {
                reason: Reason::FarJump,
                place: at,
            });
        }
        unused = first_unused(job, uses, at, c, unused);
        opened = open_after(c, opened);
        at = c.next;
    }
    refuse_unused(unused)
}
