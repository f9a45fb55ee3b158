//! A carrier takes parcels from an outbox. It puts each into the inbox of its frame's target, once, twice or never, as
//! the plan says. Some places of an inbox are kept for acknowledgements.
ghost use Rattle.std.specs.Prelude.{◌≡◌, [], IfOk, IsFalse, MatchBool, map};
ghost use Rattle.std.specs.List.{filter};
ghost use Rattle.cast_box.specs.Lists.{HasTakenOfEnded};
ghost use Rattle.cast_box.specs.Ends.{IsSamePutter};
ghost use Rattle.cast_carrier.specs.Copies.{IsByPlan};
ghost use Rattle.cast_carrier.specs.Carriers.{IsSameCarrier, CarriesOne, AreUnused, Brings, IsKeptOrLost, WaitsBy, counted_down, is_early, is_due, waiting_on, due_by, HadRoom, HadNoRoom, PutsInto, PutsOne, PutsCopy, HandsOn, HandsOnAll, HandsOver};

use crate::fate::{Fate, Ordinals, fate_of};
use crate::faults::CarrierFaults;
use crate::waiting::{Pause, SHORT_NAP};
use cast_box::{Putter, Taker};
use cast_journal::Parcel;
use cast_message::{Fault, FrameKind, NodeId};
use std::alloc::{AllocError, Global};
use std::marker::Model;
use std::sync::Wait;

/// How a carrier waits when it finds nothing. It sleeps soon: its engine has put nothing, and what it puts can wait
/// that long.
pub const CARRIER_PAUSE: Pause = Pause {
    patience: 8,
    nap: SHORT_NAP,
};

/// A parcel kept until `left` more frames were taken for its target.
#[derive(Drop)]
pub struct Delayed {
    pub left: u64,
    pub twice: bool,
    pub parcel: Parcel,
}

/// Carries the parcels of one engine.
#[derive(Drop)]
pub struct Carrier {
    node: NodeId,
    outbox: Taker<Parcel>,
    // By target.
    inboxes: Vec<Putter<Parcel>>,
    // How many items an inbox may hold after a message was put.
    room: u64,
    faults: CarrierFaults,
    // By target.
    ordinals: Vec<Ordinals>,
    delayed: Vec<Delayed>,
}

impl Model for Carrier {
    ghost use Rattle.cast_carrier.specs.Carriers.{CarrierState, CarrierKeeps, CarrierPlans};

    ghost Value = { CarrierState };

    ghost view = { λ c. record {
      outbox = c.outbox;
      inboxes = c.inboxes.items;
      room = c.room;
      faults = c.faults;
      delayed = c.delayed.items;
    } };

    ghost invariant = { λ c. CarrierKeeps c.outbox.taken c.inboxes.items c.delayed.items
        × CarrierPlans
        c.faults c.ordinals.items c.outbox.taken c.inboxes.items c.delayed.items };
}

impl Carrier {
    /// A node's carrier with these unused ends, which acts on these faults of a plan. It puts a message into an inbox
    /// only if that holds fewer than `room` items. All other places are kept for acknowledgements.
    pub fn new(
        alloc: Global,
        node: NodeId,
        outbox: Taker<Parcel>,
        inboxes: Vec<Putter<Parcel>>,
        room: u64,
        faults: Vec<Fault>,
    ) -> Result<Carrier, AllocError>
        requires inboxes { AreUnused inboxes.items }
        requires outbox { outbox.taken ≡ [] }
        ensures { IfOk result (λ c. c ≡ record {
          outbox = outbox;
          inboxes = inboxes.items;
          room = room;
          faults = faults.items;
          delayed = [];
        }) }
    {
        let faults = CarrierFaults::new(alloc, faults, inboxes.len())?;
        let ordinals = vec![in alloc; Ordinals { carry: 0, took: 0 }; inboxes.len()]?;
        Ok(Carrier {
            node,
            outbox,
            inboxes,
            room,
            faults,
            ordinals,
            delayed: Vec::new(alloc),
        })
    }

    /// The node whose frames it carries.
    pub fn node(&self) -> NodeId {
        self.node
    }

    /// Carries one parcel. First it hands on what this parcel makes due, in the order of arrival. Then it hands on the
    /// parcel itself, unless its fate loses it or has it wait after the others. An acknowledgement that is handed on is
    /// lost only if its inbox is full or does not exist. A message is also lost if its inbox has no room for it. A copy
    /// is also lost if there is no memory for its bytes. One that is to wait is lost if there is no memory to keep it.
    /// Returns whether there was a parcel. If there was none, nothing changed, and all that an ended engine had put was
    /// taken.
    pub fn carry<R: Wait>(&mut self, rt: &R) -> bool
        ensures same { IsSameCarrier self.old self.new }
        ensures one { CarriesOne self.old self.new result }
        ensures empty { IsFalse result →
            HasTakenOfEnded self.old.outbox.ended self.old.outbox.taken }
    {
        match self.outbox.take(rt) {
            Some(parcel) => {
                let fate = fate_of(&self.faults, &mut self.ordinals, &parcel);
                take_over(
                    rt,
                    &mut self.inboxes,
                    self.room,
                    &mut self.delayed,
                    parcel,
                    fate,
                );
                true
            }
            None => false,
        }
    }

    /// The ends. Delayed parcels are lost. What was put comes from the frames taken, as the plan says: nothing that it
    /// loses or still delays, and nothing twice unless it repeats it.
    pub fn into_parts(self) -> (Taker<Parcel>, Vec<Putter<Parcel>>)
        ensures parts { (result.0 ≡ self.outbox) × (result.1.items ≡ self.inboxes) }
        ensures kept { Brings self.outbox.taken self.inboxes }
        ensures planned { IsByPlan self.faults self.outbox.taken self.inboxes }
    {
        let Carrier {
            outbox,
            inboxes,
            ..
        } = self;
        (outbox, inboxes)
    }
}

// Hands on what one more frame for the target makes due, and then loses, keeps or hands on the parcel.
fn take_over<R: Wait>(
    rt: &R,
    inboxes: &mut Vec<Putter<Parcel>>,
    room: u64,
    delayed: &mut Vec<Delayed>,
    parcel: Parcel,
    fate: Fate,
)
    ensures waits { WaitsBy fate delayed.old.items parcel delayed.new.items }
    ensures hands { HandsOver room fate inboxes.old.items delayed.old.items parcel inboxes.new.items }
{
    pass_time(rt, inboxes, room, delayed, &parcel);
    if fate.lost {
        drop(parcel);
        return;
    }
    if fate.delay > 0 {
        keep(delayed, parcel, fate);
        return;
    }
    hand_on(rt, inboxes, room, parcel, fate.twice);
}

// Hands on what one more frame for the target makes due.
fn pass_time<R: Wait>(
    rt: &R,
    inboxes: &mut Vec<Putter<Parcel>>,
    room: u64,
    delayed: &mut Vec<Delayed>,
    parcel: &Parcel,
)
    ensures waits { delayed.new.items ≡ waiting_on parcel.now.frame.to delayed.old.items }
    ensures hands { HandsOnAll room inboxes.old.items
        (due_by parcel.now.frame.to delayed.old.items) inboxes.new.items }
{
    count_down(delayed, parcel.frame.to);
    release(rt, inboxes, room, delayed);
}

// Counts one more frame taken for a target.
fn count_down(delayed: &mut Vec<Delayed>, to: NodeId)
    ensures { delayed.new.items ≡ map (counted_down to) delayed.old.items }
{
    for place in 0..delayed.len() {
        count_one(&mut delayed[place], to);
    }
}

fn count_one(one: &mut Delayed, to: NodeId)
    ensures { one.new ≡ counted_down to one.old }
{
    if one.parcel.frame.to == to {
        one.left = one.left.saturating_sub(1);
    }
}

// Hands on what is due.
fn release<R: Wait>(
    rt: &R,
    inboxes: &mut Vec<Putter<Parcel>>,
    room: u64,
    delayed: &mut Vec<Delayed>,
)
    ensures waits { delayed.new.items ≡ filter is_early delayed.old.items }
    ensures hands { HandsOnAll room inboxes.old.items (filter is_due delayed.old.items)
        inboxes.new.items }
{
    let mut place = 0;
    while place < delayed.len() {
        if delayed[place].left == 0 {
            let Delayed { parcel, twice, .. } = delayed.remove(place);
            hand_on(rt, inboxes, room, parcel, twice);
        } else {
            place += 1;
        }
    }
}

// Keeps a parcel until its fate's number of frames were taken for its target. It is lost if there is no memory.
fn keep(delayed: &mut Vec<Delayed>, parcel: Parcel, fate: Fate)
    ensures { IsKeptOrLost delayed.old.items
        (record { left = fate.delay; twice = fate.twice; parcel = parcel }) delayed.new.items }
{
    let _lost = delayed.push(Delayed {
        left: fate.delay,
        twice: fate.twice,
        parcel,
    });
}

// Hands on a parcel once or twice. A copy is lost if there is no memory for it.
#[inline(always)]
fn hand_on<R: Wait>(
    rt: &R,
    inboxes: &mut Vec<Putter<Parcel>>,
    room: u64,
    parcel: Parcel,
    twice: bool,
)
    ensures { HandsOn room twice inboxes.old.items parcel inboxes.new.items }
{
    put_copy(rt, inboxes, room, &parcel, twice);
    put(rt, inboxes, room, parcel);
}

// Puts a copy if the parcel is handed on twice.
fn put_copy<R: Wait>(
    rt: &R,
    inboxes: &mut Vec<Putter<Parcel>>,
    room: u64,
    parcel: &Parcel,
    twice: bool,
)
    ensures { PutsCopy room twice inboxes.old.items parcel.now inboxes.new.items }
{
    if !twice {
        return;
    }
    if let Ok(copy) = parcel.copy() {
        put(rt, inboxes, room, copy);
    }
}

// Puts a parcel into the inbox of its target, if there is one.
#[inline(always)]
fn put<R: Wait>(rt: &R, inboxes: &mut Vec<Putter<Parcel>>, room: u64, parcel: Parcel)
    ensures { PutsOne room inboxes.old.items parcel inboxes.new.items }
{
    let to = usize::from(parcel.frame.to.0);
    if to < inboxes.len() {
        let inbox = &mut inboxes[to];
        put_into(rt, inbox, room, parcel);
    }
}

// Puts a parcel into an inbox. It is lost if the inbox is full, and a message also if it finds no room.
#[inline(always)]
fn put_into<R: Wait>(rt: &R, inbox: &mut Putter<Parcel>, room: u64, parcel: Parcel)
    ensures same { IsSamePutter inbox.old inbox.new }
    ensures put { PutsInto room inbox.old parcel inbox.new }
{
    if finds_no_room(rt, inbox, room, parcel.frame.body.kind()) {
        return;
    }
    let _ = inbox.put(rt, parcel);
}

// Whether a frame of this kind finds `room` items in the inbox and may not take a place that is kept for
// acknowledgements.
#[inline(always)]
fn finds_no_room<R: Wait>(rt: &R, inbox: &mut Putter<Parcel>, room: u64, kind: FrameKind) -> bool
    ensures same { inbox.new ≡ inbox.old }
    ensures finds { MatchBool result (HadNoRoom room inbox.old kind) (HadRoom room inbox.old kind) }
{
    match kind {
        FrameKind::Carry => inbox.len(rt) >= room,
        FrameKind::Took => false,
    }
}
