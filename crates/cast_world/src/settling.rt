//! A run of slots that one node owes another, each settled without news. The two nodes are looked up once for all of them.
ghost use Rattle.std.specs.Prelude.{◌≡◌, ◌≢◌, ◌<◌, ◌≤◌, ◌-◌, IsTrue, IsFalse, length, map};
ghost use Rattle.std.specs.List.{range_with_len};
ghost use Rattle.cast_message.specs.declared.config.Config.{Config as Settings};
ghost use Rattle.cast_world.specs.Group.{state_of};
ghost use Rattle.cast_world.specs.Settled.{ends, SettlesSlot, SettlesSlots, SettlesBetween};

use crate::frames::{LAST_SLOT, Mark, NOBODY};
use cast_message::NodeId;
use cast_node::Node;

/// Settles slots in succession between two nodes at these places, up to the first that yields news or can't be settled.
/// Returns how many it settled. It may always stop early.
#[inline(always)]
pub fn settle_between(
    nodes: &mut [Node],
    marks: &mut [Vec<Mark>],
    from: usize,
    to: usize,
    first: u64,
    end: u64,
) -> u64
    requires from { from < length nodes.old }
    requires to { to < length nodes.old }
    requires apart { from ≢ to }
    requires rows { length marks.old ≡ length nodes.old }
    requires order { first ≤ end }
    ensures few { result ≤ end - first }
    ensures settles { (config : Settings) → SettlesBetween
        (state_of config nodes.old (map (λ row. row.items) marks.old)) from to
        (range_with_len first result)
        (state_of config nodes.new (map (λ row. row.items) marks.new)) }
{
    if from < to {
        let (givers, takers) = nodes.split_at_mut(to);
        let (carried, told) = marks.split_at_mut(to);
        return settle_run(
            &mut givers[from],
            &mut takers[0],
            &mut carried[from],
            &mut told[0],
            first,
            end,
        );
    }
    let (takers, givers) = nodes.split_at_mut(from);
    let (told, carried) = marks.split_at_mut(from);
    settle_run(
        &mut givers[0],
        &mut takers[to],
        &mut carried[0],
        &mut told[to],
        first,
        end,
    )
}

// Settles slots from the first on, as long as each can be settled without news.
fn settle_run(
    giver: &mut Node,
    taker: &mut Node,
    carried: &mut Vec<Mark>,
    told: &mut Vec<Mark>,
    first: u64,
    end: u64,
) -> u64
    requires { first ≤ end }
    ensures few { result ≤ end - first }
    ensures settles { SettlesSlots (ends giver.old taker.old carried.old.items told.old.items)
        (range_with_len first result)
        (ends giver.new taker.new carried.new.items told.new.items) }
{
    for slot in first..end {
        if !settle_slot(giver, taker, carried, told, slot) {
            return slot - first;
        }
    }
    end - first
}

// Settles a slot if it can without news. Returns whether it did. It may always return `false`: then nothing changed. Whatever may be
// refused comes first. Once the taker has taken its steps, nothing is, so no step is undone.
#[inline(always)]
fn settle_slot(
    giver: &mut Node,
    taker: &mut Node,
    carried: &mut Vec<Mark>,
    told: &mut Vec<Mark>,
    slot: u64,
) -> bool
    ensures settles { IsTrue result → SettlesSlot
        (ends giver.old taker.old carried.old.items told.old.items) slot
        (ends giver.new taker.new carried.new.items told.new.items) }
    ensures not { IsFalse result → ends giver.new taker.new carried.new.items told.new.items
        ≡ ends giver.old taker.old carried.old.items told.old.items }
{
    if slot > LAST_SLOT || carried.reserve(1).is_err() || told.reserve(1).is_err() {
        return false;
    }
    let from = giver.id();
    let to = taker.id();
    let Some(sent) = giver.may_settle(to, slot) else {
        return false;
    };
    if !taker.settle_taken(from, slot, sent.sender, sent.number) {
        return false;
    }
    giver.settle_given(to, slot, &sent);
    carried.push_reserved(Mark {
        slot: slot as u32,
        number: sent.number as u16,
        to,
        sender: sent.sender,
    });
    told.push_reserved(Mark {
        slot: slot as u32,
        number: 0,
        to: from,
        sender: NodeId(NOBODY),
    });
    true
}
