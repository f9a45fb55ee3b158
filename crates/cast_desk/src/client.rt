//! The ends of a node's client.
ghost use Rattle.std.specs.Prelude.{◌≡◌, ◌+◌, ◌^◌, ◌<◌, ◌++◌, ◌∷◌, [], ℕ, length, IfOk, IfErr, IfNone, OnErr, MatchOption};
ghost use Rattle.cast_box.specs.Lists.{HasTakenOfEnded};
ghost use Rattle.cast_desk.specs.Desk.{ClientState, IsSameClient, IsRefusal, AreInTurn, counted, next_ticket};

use crate::notice::Notice;
use cast_box::{Full, Putter, Taker};
use cast_journal::OrderIn;
use cast_message::Item;
use std::marker::Model;
use std::sync::Wait;
use thiserror::Error;

/// Why an item was not submitted. The item comes back.
#[derive(Debug, Drop, Error)]
pub enum DeskFault {
    /// The desk was full at one moment of the call.
    #[error("the desk is full")]
    Full(Item),
    /// The next ticket would be 2^64 - 1, which is never given.
    #[error("all tickets were given")]
    Tickets(Item),
}

/// A client's ends of its boxes. Contracts see its number, its first ticket and these ends. The orders that it has put
/// carry its number and consecutive tickets from the first ticket on. `into_ends` ends the client and hands out its
/// ends.
#[derive(Drop)]
pub struct Client {
    pub(crate) number: u64,
    pub(crate) first_ticket: u64,
    pub(crate) next_ticket: u64,
    pub(crate) orders: Putter<OrderIn>,
    pub(crate) tray: Taker<Notice>,
    // How many notices it has taken; the count stops at the greatest `u64`.
    pub(crate) taken: u64,
}

impl Model for Client {
    ghost use Rattle.std.specs.Prelude.{◌≡◌, ◌+◌, length};
    ghost use Rattle.cast_desk.specs.Desk.{ClientState, AreInTurn, counted};

    ghost Value = { ClientState };

    ghost view = { λ c. record {
      number = c.number;
      first_ticket = c.first_ticket;
      orders = c.orders;
      tray = c.tray;
    } };

    ghost invariant = { λ c. (c.next_ticket ≡ c.first_ticket + length c.orders.put)
        × AreInTurn c.number c.first_ticket c.orders.put
        × (c.taken ≡ counted c.tray.taken) };
}

impl Client {
    pub(crate) fn new(
        number: u64,
        first_ticket: u64,
        orders: Putter<OrderIn>,
        tray: Taker<Notice>,
    ) -> Client
        requires orders { orders.put ≡ [] }
        requires tray { tray.taken ≡ [] }
        ensures { result ≡ record {
          number = number;
          first_ticket = first_ticket;
          orders = orders;
          tray = tray;
        } }
    {
        Client {
            number,
            first_ticket,
            next_ticket: first_ticket,
            orders,
            tray,
            taken: 0,
        }
    }

    /// Puts the item on the desk as an order with the client's number and next ticket, and returns that ticket. Tickets
    /// count up from `first_ticket`; 2^64 - 1 is never given, which is checked before the put. On a refusal the item
    /// comes back and no ticket is used. The call may spin while another thread stalls at the desk.
    pub fn submit<R: Wait>(&mut self, rt: &R, item: Item) -> Result<u64, DeskFault>
        ensures same { IsSameClient self.old self.new }
        ensures tray { self.new.tray ≡ self.old.tray }
        ensures ticket { IfOk result
            (λ ticket. (ticket ≡ next_ticket self.old) × (ticket + 1 < 2 ^ 64)) }
        ensures put { IfOk result
            (λ ticket. self.new.orders.put ≡ self.old.orders.put
            ++ record { client = self.old.number; ticket = ticket; item = item } ∷ []) }
        ensures fault { IfErr result (IsRefusal self.old item) }
        ensures kept { OnErr result (self.new.orders.put ≡ self.old.orders.put) }
    {
        let ticket = self.next_ticket;
        if ticket == u64::MAX {
            return Err(DeskFault::Tickets(item));
        }
        let order = OrderIn {
            client: self.number,
            ticket,
            item,
        };
        match self.orders.put(rt, order) {
            Ok(()) => {
                self.next_ticket = ticket + 1;
                Ok(ticket)
            }
            Err(Full { item: order }) => Err(DeskFault::Full(order.item)),
        }
    }

    /// Takes the notice at the front of the client's tray, or nothing if it finds the tray empty. The call may wait for
    /// the engine's thread if that stalls in a put.
    pub fn next<R: Wait>(&mut self, rt: &R) -> Option<Notice>
        ensures same { IsSameClient self.old self.new }
        ensures orders { self.new.orders ≡ self.old.orders }
        ensures taken { MatchOption result
            (self.new.tray.taken ≡ self.old.tray.taken)
            (λ notice. (from : ℕ) × (from < self.old.tray.putters)
            × (self.new.tray.taken ≡ self.old.tray.taken ++ (from, notice) ∷ [])) }
        ensures empty { IfNone result (HasTakenOfEnded self.old.tray.ended self.old.tray.taken) }
    {
        let notice = self.tray.take(rt);
        if notice.is_some() {
            self.taken = self.taken.saturating_add(1);
        }
        notice
    }

    /// How many orders the client has submitted.
    pub fn submitted(&self) -> u64
        ensures many { result ≡ length self.now.orders.put }
        ensures turn { AreInTurn self.now.number self.now.first_ticket self.now.orders.put }
    {
        self.next_ticket - self.first_ticket
    }

    /// How many notices the client has taken, or 2^64 - 1 if there are more.
    pub fn taken(&self) -> u64
        ensures { result ≡ counted self.now.tray.taken }
    {
        self.taken
    }

    /// Ends the client, and returns its ends.
    pub fn into_ends(self) -> (Putter<OrderIn>, Taker<Notice>)
        ensures ends { (result.0 ≡ self.orders) × (result.1 ≡ self.tray) }
        ensures tickets { AreInTurn self.number self.first_ticket self.orders.put }
    {
        let Client { orders, tray, .. } = self;
        (orders, tray)
    }
}
