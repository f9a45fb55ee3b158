//! What the clients of a node learn of its log, notice by notice.
ghost use Rattle.std.specs.Prelude.{◌≡◌, ◌+◌, ◌<◌, ◌^◌, ◌∷◌, replicate, slice_get, true, None, IfOk, IfNone, IfSome, IsFalse, OnErr};
ghost use Rattle.cast_box.specs.Ends.{AreSamePutters};
ghost use Rattle.cast_desk.specs.Feed.{told_by, news_of, feed};
ghost use Rattle.cast_engine.specs.Feeding.{IsNext, AreFed, FedIn, FedAt, IsPlaced, TellEach, IsTold, AreTold, told_to, next_at, takes_memory, first_place};

use cast_box::Full;
use cast_desk::{Desk, Notice, orders_in, own_reply};
use cast_log::{EntryKind, KindRef, OpenLog};
use cast_message::Outcome;
use std::alloc::{AllocError, Global};
use std::sync::Wait;

/// A client's place in its feed. The tray got all that the entries before `entry` say, and the first `told` notices of
/// that entry.
#[derive(Drop)]
pub struct Place {
    pub entry: usize,
    /// The number of orders before that entry.
    pub orders: u64,
    pub told: usize,
    /// The next notice, if it found the tray full.
    pub waiting: Option<Notice>,
}

pub fn first_places(alloc: Global, clients: usize) -> Result<Vec<Place>, AllocError>
    ensures { IfOk result (λ places. places.items ≡ replicate clients first_place) }
{
    let mut places = Vec::new(alloc);
    for _client in 0..clients {
        places.push(Place {
            entry: 0,
            orders: 0,
            told: 0,
            waiting: None,
        })?;
    }
    Ok(places)
}

/// Puts the next notice of its feed into each client's tray. A client gets none if its feed is at its end, its tray is
/// full, or memory runs out (`told`). Returns whether one was put.
pub fn notify_all<R: Wait>(rt: &R, desk: &mut Desk, places: &mut Vec<Place>, log: &OpenLog) -> bool
    requires { AreFed log.now.entries desk.old.trays.items places.old.items }
    ensures fed { AreFed log.now.entries desk.new.trays.items places.new.items }
    ensures orders { desk.new.orders ≡ desk.old.orders }
    ensures trays { AreSamePutters desk.old.trays.items desk.new.trays.items }
    ensures few { TellEach 1 desk.old.trays.items desk.new.trays.items }
    ensures idle { IsFalse result → desk.new.trays.items ≡ desk.old.trays.items }
    ensures told { AreTold log.now.entries desk.old.trays.items desk.new.trays.items places.new.items }
{
    let mut moved = false;
    for client in 0..places.len() {
        moved |= notify(rt, desk, client, &mut places[client], log);
    }
    moved
}

// Puts the next notice of a client's feed, if its tray has room. Returns whether it did.
fn notify<R: Wait>(rt: &R, desk: &mut Desk, client: usize, place: &mut Place, log: &OpenLog) -> bool
    requires { FedIn client log.now.entries desk.old.trays.items place.old }
    ensures orders { desk.new.orders ≡ desk.old.orders }
    ensures fed { FedAt client log.now.entries desk.old.trays.items desk.new.trays.items place.new }
    ensures few { TellEach 1 desk.old.trays.items desk.new.trays.items }
    ensures idle { IsFalse result → desk.new.trays.items ≡ desk.old.trays.items }
    ensures told { IsTold result client log.now.entries
        desk.old.trays.items desk.new.trays.items place.new }
{
    let Ok(Some(notice)) = next_notice(client as u64, place, log) else {
        return false;
    };
    let told = place.told + 1;
    match desk.notify(rt, client as u64, notice) {
        Ok(()) => {
            place.told = told;
            true
        }
        Err(Full { item: notice }) => {
            place.waiting = Some(notice);
            false
        }
    }
}

// The next notice of a client's feed; nothing only if the client got all of its feed. Only the copy of a delivered
// message with bytes allocates: if it runs out of memory, that notice stays the next.
fn next_notice(client: u64, place: &mut Place, log: &OpenLog) -> Result<Option<Notice>, AllocError>
    requires { IsPlaced client log.now.entries place.old }
    ensures placed { IsPlaced client log.now.entries place.new }
    ensures fed { told_to client log.now.entries place.new ≡ told_to client log.now.entries place.old }
    ensures notice { IfOk result
        (λ found. IfSome found (λ notice. IsNext client log.now.entries place.new notice
        × (place.new.waiting ≡ None))) }
    ensures counts { IfOk result (λ found. IfSome found (λ _. place.new.told + 1 < 2 ^ 64)) }
    ensures none { IfOk result
        (λ found. IfNone found (told_to client log.now.entries place.new ≡ feed log.now.entries client)) }
    ensures err { OnErr result (takes_memory (next_at client log.now.entries place.new) ≡ true) }
    ensures kept { OnErr result (place.old.waiting ≡ None) }
{
    if let Some(notice) = place.waiting.take() {
        return Ok(Some(notice));
    }
    while place.entry < log.len() {
        if let KindRef::Whole(kind) = log.entry(place.entry).kind {
            if let Some(notice) = notice_at(kind, client, place.orders, place.told)? {
                return Ok(Some(notice));
            }
            place.orders = place.orders.wrapping_add(orders_in(kind));
        }
        place.entry += 1;
        place.told = 0;
    }
    Ok(None)
}

// Notice number `told` of those that an entry has for a client. The number after it doesn't overflow.
fn notice_at(
    kind: &EntryKind,
    client: u64,
    orders: u64,
    told: usize,
) -> Result<Option<Notice>, AllocError>
    ensures ok { IfOk result (λ found. found ≡ slice_get (told_by client orders kind.now) told) }
    ensures counts { IfOk result (λ found. IfSome found (λ _. told + 1 < 2 ^ 64)) }
    ensures err { OnErr result
        (takes_memory (slice_get (told_by client orders kind.now) told) ≡ true) }
{
    match kind {
        EntryKind::Step {
            event,
            origin,
            outcome,
        } => match own_reply(client, event, origin, orders) {
            Some(reply) => after_reply(reply, outcome, told),
            None => news_at(outcome, told),
        },
        EntryKind::Refused { origin, fault } => {
            if origin.client == client && told == 0 {
                let outcome = Err(*fault);
                let ticket = origin.ticket;
                return Ok(Some(Notice::Reply { ticket, outcome }));
            }
            Ok(None)
        }
    }
}

fn after_reply(reply: Notice, outcome: &Outcome, told: usize) -> Result<Option<Notice>, AllocError>
    ensures ok { IfOk result (λ found. found ≡ slice_get (reply ∷ news_of outcome.now) told) }
    ensures counts { IfOk result (λ found. IfSome found (λ _. told + 1 < 2 ^ 64)) }
    ensures err { OnErr result
        (takes_memory (slice_get (reply ∷ news_of outcome.now) told) ≡ true) }
{
    match told.checked_sub(1) {
        Some(before) => news_at(outcome, before),
        None => Ok(Some(reply)),
    }
}

// Notice number `at` of those that a step's outcome has for every client. Even after a reply, the next number doesn't
// overflow.
fn news_at(outcome: &Outcome, at: usize) -> Result<Option<Notice>, AllocError>
    ensures ok { IfOk result (λ found. found ≡ slice_get (news_of outcome.now) at) }
    ensures counts { IfOk result (λ found. IfSome found (λ _. at + 2 < 2 ^ 64)) }
    ensures err { OnErr result (takes_memory (slice_get (news_of outcome.now) at) ≡ true) }
{
    let deliveries = outcome.deliveries.as_slice();
    if at < deliveries.len() {
        let message = deliveries[at].copy()?;
        return Ok(Some(Notice::Delivered(message)));
    }
    match outcome.decisions.as_slice().get(at - deliveries.len()) {
        Some(decision) => Ok(Some(Notice::Decided(*decision))),
        None => Ok(None),
    }
}
