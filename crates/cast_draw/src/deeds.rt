//! What an event delivered and decided, as marks of its column.
ghost use Rattle.std.specs.Prelude.{◌≡◌, ◌<◌, ◌++◌, ◌∷◌, [], OnOk, if◌then◌else◌, drop, length, map, true};
ghost use Rattle.cast_message.specs.Items.{proposes_in};
ghost use Rattle.cast_draw.specs.Deeds.{brought, deeds, done_by};
ghost use Rattle.cast_draw.specs.declared.mark.Deed.TheVariants.{Delivers, Decides};

use crate::mark::{Deed, Mark, Shown};
use cast_message::{Decision, Item, List, Message, NodeId};
use std::alloc::AllocError;

/// An event's column, and the node at which it delivers and decides.
#[derive(Clone, Copy)]
pub struct At {
    pub column: u64,
    pub event: u64,
    pub node: NodeId,
}

/// Adds a mark for each delivery, and for each decision one after the delivery that caused it.
pub fn put_deeds(
    marks: &mut List<Mark>,
    at: &At,
    deliveries: &[Message],
    decisions: &[Decision],
) -> Result<(), AllocError>
    ensures { OnOk result (marks.new ≡ marks.old
        ++ map (done_by at.now) (deeds deliveries.now decisions.now)) }
{
    let mut decided = 0;
    for message in deliveries {
        put_delivery(marks, at, message)?;
        if is_brought(message, decisions, decided) {
            put_decision(marks, at, decisions[decided])?;
            decided += 1;
        }
    }
    put_decisions(marks, at, &decisions[decided..])
}

// Adds the decisions that no delivery of this event caused.
fn put_decisions(marks: &mut List<Mark>, at: &At, decisions: &[Decision]) -> Result<(), AllocError>
    ensures { OnOk result (marks.new ≡ marks.old
        ++ map (done_by at.now) (map Decides decisions.now)) }
{
    for decision in decisions {
        put_decision(marks, at, *decision)?;
    }
    Ok(())
}

fn put_delivery(marks: &mut List<Mark>, at: &At, message: &Message) -> Result<(), AllocError>
    ensures { OnOk result (marks.new ≡ marks.old ++ done_by at.now (Delivers message.now) ∷ []) }
{
    let deed = Deed::Delivers(message.copy()?);
    put(marks, at, deed)
}

fn put_decision(marks: &mut List<Mark>, at: &At, decision: Decision) -> Result<(), AllocError>
    ensures { OnOk result (marks.new ≡ marks.old ++ done_by at.now (Decides decision) ∷ []) }
{
    put(marks, at, Deed::Decides(decision))
}

fn put(marks: &mut List<Mark>, at: &At, deed: Deed) -> Result<(), AllocError>
    ensures { OnOk result (marks.new ≡ marks.old ++ done_by at.now deed ∷ []) }
{
    marks.push(Mark {
        column: at.column,
        event: at.event,
        shown: Shown::Done {
            node: at.node,
            deed,
        },
    })
}

// Whether the delivery caused the decision at this place.
fn is_brought(message: &Message, decisions: &[Decision], place: usize) -> bool
    ensures count { brought message.now (drop place decisions.now) ≡ (if result then 1 else 0) }
    ensures within { result ≡ true → place < length decisions.now }
{
    match decisions.get(place) {
        Some(decision) => proposes(&message.item, decision.instance),
        None => false,
    }
}

fn proposes(item: &Item, wanted: u64) -> bool
    ensures { result ≡ proposes_in wanted item.now }
{
    matches!(item, Item::Propose { instance, .. } if *instance == wanted)
}
