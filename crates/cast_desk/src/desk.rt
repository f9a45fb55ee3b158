//! The node's ends of the boxes of its clients.
ghost use Rattle.std.specs.Prelude.{◌≡◌, ◌<◌, ◌++◌, ◌∷◌, [], ℕ, length, IfNone, MatchOption};
ghost use Rattle.cast_box.specs.Lists.{HasTakenOfEnded};
ghost use Rattle.cast_box.specs.Ends.{IsSameTaker};
ghost use Rattle.cast_desk.specs.Desk.{IsPutAt};

use crate::notice::Notice;
use cast_box::{Full, Putter, Taker};
use cast_journal::OrderIn;
use std::sync::Wait;

/// The node's ends of its clients' boxes.
#[derive(Drop)]
pub struct Desk {
    /// The taker of the desk, where every client has a putter.
    pub orders: Taker<OrderIn>,
    /// The putter of each client's tray, by client.
    pub trays: Vec<Putter<Notice>>,
}

impl Desk {
    /// Takes the order at the front of the desk. It returns nothing only if the desk was empty at one moment of the
    /// call. The call may spin while a client stalls in `submit`.
    pub fn take<R: Wait>(&mut self, rt: &R) -> Option<OrderIn>
        ensures same { IsSameTaker self.old.orders self.new.orders
            × (self.new.trays ≡ self.old.trays) }
        ensures taken { MatchOption result
            (self.new.orders.taken ≡ self.old.orders.taken)
            (λ order. (from : ℕ) × (from < self.old.orders.putters)
            × (self.new.orders.taken ≡ self.old.orders.taken ++ (from, order) ∷ [])) }
        ensures empty { IfNone result
            (HasTakenOfEnded self.old.orders.ended self.old.orders.taken) }
    {
        self.orders.take(rt)
    }

    /// Puts the notice into the tray of this client of the desk, given by number. If it finds that tray full, nothing
    /// is put and the notice comes back. The call may wait for the client's thread if that stalls in a take.
    pub fn notify<R: Wait>(
        &mut self,
        rt: &R,
        client: u64,
        notice: Notice,
    ) -> Result<(), Full<Notice>>
        requires { client < length self.old.trays.items }
        ensures orders { self.new.orders ≡ self.old.orders }
        ensures tray { IsPutAt self.old.trays.items client notice result self.new.trays.items }
    {
        self.trays[client as usize].put(rt, notice)
    }
}
