//! The items that a job submits, one after another.
ghost use Rattle.std.specs.Prelude.{◌≡◌, ◌++◌, ◌↔◌, [], IsTrue, IfNone, Some, None, option_to_list};
ghost use Rattle.std.specs.Vec.Iter.{into_iter_items};
ghost use Rattle.cast_desk.specs.Desk.{IsSameClient};
ghost use Rattle.cast_run.specs.Submissions.{SubmitsNext, IsTicketOf, item_in};

use cast_desk::{Client, DeskFault};
use cast_message::{Item, List};
use std::marker::Model;
use std::sync::Wait;
use std::vec::IntoIter;

/// Items to submit, in order. If the desk hands an item back, it is the next again: none is lost, and none is copied.
/// Contracts see the list of what is left.
#[derive(Drop)]
pub struct Submissions {
    // The item that the desk last handed back.
    refused: Option<Item>,
    // What was not tried yet.
    later: IntoIter<Item>,
}

impl Model for Submissions {
    ghost use Rattle.std.specs.Prelude.{List, ◌++◌, option_to_list};
    ghost use Rattle.std.specs.Vec.Iter.{into_iter_items};
    ghost use Rattle.cast_message.specs.declared.message.Item.{Item};

    ghost Value = { List Item };

    ghost view = { λ s. option_to_list s.refused ++ into_iter_items s.later };
}

impl Submissions {
    pub fn new(items: List<Item>) -> Submissions
        ensures { result ≡ items }
    {
        Submissions {
            refused: None,
            later: items.into_vec().into_iter(),
        }
    }

    /// Submits the next item, if one is left, and returns the ticket of its order, which the reply will name. An item
    /// that the desk refuses is kept for the next call, and has no ticket yet.
    pub fn submit_next<R: Wait>(&mut self, rt: &R, client: &mut Client) -> Option<u64>
        ensures same { IsSameClient client.old client.new }
        ensures tray { client.new.tray ≡ client.old.tray }
        ensures next { SubmitsNext self.old self.new client.old client.new }
        ensures ticket { IsTicketOf client.old client.new result }
    {
        let item = take_first(&mut self.refused, &mut self.later)?;
        match client.submit(rt, item) {
            Ok(ticket) => Some(ticket),
            Err(fault) => {
                keep(&mut self.refused, fault);
                None
            }
        }
    }

    /// Whether all were submitted.
    pub fn is_empty(&self) -> bool
        ensures { IsTrue result ↔ (self.now ≡ []) }
    {
        self.refused.is_none() && self.later.len() == 0
    }
}

// Takes the last refused item, or else the first of the later ones.
fn take_first(refused: &mut Option<Item>, later: &mut IntoIter<Item>) -> Option<Item>
    ensures first { option_to_list refused.old ++ into_iter_items later.old
        ≡ option_to_list result ++ into_iter_items later.new }
    ensures none { IfNone result (into_iter_items later.new ≡ []) }
    ensures refused { refused.new ≡ None }
{
    match refused.take() {
        Some(item) => Some(item),
        None => later.next(),
    }
}

fn keep(refused: &mut Option<Item>, fault: DeskFault)
    ensures { refused.new ≡ Some (item_in fault) }
{
    let (DeskFault::Full(item) | DeskFault::Tickets(item)) = fault;
    *refused = Some(item);
}
