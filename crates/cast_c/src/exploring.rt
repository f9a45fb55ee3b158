//! What a user who explores a group asks: which events may come next, those of a round, and what a frame carries. None of these
//! calls changes the group. Status 0 means done, and 1 that the handle holds no group.
ghost use Rattle.std.specs.Prelude.{◌≡◌, None, IfSome, IfOk, map};
ghost use Rattle.cast_model.specs.Rounds.{plan};
ghost use Rattle.cast_world.specs.Group.{StandingFor};
ghost use Rattle.cast_world.specs.Offers.{enabled};
ghost use Rattle.cast_c.specs.Exploring.{PutsAll, TellsEvents, TellsFrame, numbers_of_event, numbers_of_frame};

use crate::numbers::{EventNumbers, FrameNumbers};
use crate::status::{DONE, MISUSED, OUT_OF_MEMORY, REFUSED, TOO_SHORT};
use crate::world_handle::WorldHandle;
use cast_message::{Event, Frame, FrameBody, Item, NodeId, StepFault};
use cast_world::World;
use std::alloc::{AllocError, Global};

/// The events that may come next and change something, except orders and crashes. 5: out of memory; 6: `events` has no room for
/// them, and `count` says how many they are.
#[unsafe(no_mangle)]
pub extern "C" fn cast_c_world_enabled(
    alloc: Global,
    world: &mut WorldHandle,
    events: &mut [EventNumbers],
    count: &mut u64,
) -> u32
    ensures told { IfSome world.old.loose.world (λ old. StandingFor old (λ config past.
        TellsEvents (enabled config past) result count.new events.old events.new)) }
    ensures none { world.old.loose.world ≡ None → result ≡ 1 }
    ensures kept { world.new.loose.world ≡ world.old.loose.world }
{
    let Some(held) = world.take(alloc) else {
        return MISUSED;
    };
    let status = put_enabled(alloc, &held, events, count);
    *world = WorldHandle::of(held);
    status
}

fn put_enabled(alloc: Global, world: &World, events: &mut [EventNumbers], count: &mut u64) -> u32
    ensures { StandingFor world.now (λ config past.
        TellsEvents (enabled config past) result count.new events.old events.new) }
{
    match world.events_enabled() {
        Ok(found) => put_events(alloc, found.as_slice(), events, count),
        Err(_) => OUT_OF_MEMORY,
    }
}

/// The events of one round from here, in order. The statuses are the same.
#[unsafe(no_mangle)]
pub extern "C" fn cast_c_world_plan(
    alloc: Global,
    world: &mut WorldHandle,
    events: &mut [EventNumbers],
    count: &mut u64,
) -> u32
    ensures told { IfSome world.old.loose.world (λ old. StandingFor old (λ config past.
        TellsEvents (plan config past) result count.new events.old events.new)) }
    ensures none { world.old.loose.world ≡ None → result ≡ 1 }
    ensures kept { world.new.loose.world ≡ world.old.loose.world }
{
    let Some(held) = world.take(alloc) else {
        return MISUSED;
    };
    let status = put_plan(alloc, &held, events, count);
    *world = WorldHandle::of(held);
    status
}

fn put_plan(alloc: Global, world: &World, events: &mut [EventNumbers], count: &mut u64) -> u32
    ensures { StandingFor world.now (λ config past.
        TellsEvents (plan config past) result count.new events.old events.new) }
{
    match world.round_plan() {
        Ok(planned) => put_events(alloc, planned.as_slice(), events, count),
        Err(_) => OUT_OF_MEMORY,
    }
}

/// What the frame of node `node` with this number carries. 2: the node made no such frame; 5: out of memory.
#[unsafe(no_mangle)]
pub extern "C" fn cast_c_world_frame(
    alloc: Global,
    world: &mut WorldHandle,
    node: u8,
    number: u64,
    frame: &mut FrameNumbers,
) -> u32
    ensures told { IfSome world.old.loose.world (λ old. StandingFor old (λ config past.
        TellsFrame past node number result frame.new)) }
    ensures none { world.old.loose.world ≡ None → result ≡ 1 }
    ensures kept { world.new.loose.world ≡ world.old.loose.world }
{
    let Some(held) = world.take(alloc) else {
        return MISUSED;
    };
    let status = tell_frame(&held, node, number, frame);
    *world = WorldHandle::of(held);
    status
}

fn tell_frame(world: &World, node: u8, number: u64, frame: &mut FrameNumbers) -> u32
    ensures { StandingFor world.now (λ config past.
        TellsFrame past node number result frame.new) }
{
    match world.frame(NodeId(node), number) {
        Ok(found) => {
            *frame = numbers_of_frame(&found);
            DONE
        }
        Err(StepFault::Memory) => OUT_OF_MEMORY,
        Err(_) => REFUSED,
    }
}

fn numbers_of_frame(frame: &Frame) -> FrameNumbers
    ensures { result ≡ numbers_of_frame frame.now }
{
    let (kind, slot, sender, number) = match &frame.body {
        FrameBody::Carry { slot, message } => {
            (0, *slot, u64::from(message.sender.0), message.number)
        }
        FrameBody::Took { slot } => (1, *slot, 0, 0),
    };
    FrameNumbers {
        kind,
        to: u64::from(frame.to.0),
        slot,
        sender,
        number,
    }
}

// Writes events to the front of a buffer, if it has room, and says how many they are.
fn put_events(alloc: Global, from: &[Event], to: &mut [EventNumbers], count: &mut u64) -> u32
    ensures { TellsEvents from.now result count.new to.old to.new }
{
    match numbers_of_events(alloc, from) {
        Ok(all) => put_all(all.as_slice(), to, count),
        Err(_) => OUT_OF_MEMORY,
    }
}

fn numbers_of_events(alloc: Global, from: &[Event]) -> Result<Vec<EventNumbers>, AllocError>
    ensures { IfOk result (λ all. all.items ≡ map numbers_of_event from.now) }
{
    let mut all = Vec::new(alloc);
    for event in from {
        all.push(numbers_of_event(event))?;
    }
    Ok(all)
}

fn put_all(from: &[EventNumbers], to: &mut [EventNumbers], count: &mut u64) -> u32
    ensures { PutsAll from.now result count.new to.old to.new }
{
    *count = from.len() as u64;
    if from.len() > to.len() {
        return TOO_SHORT;
    }
    to[..from.len()].copy_from_slice(from);
    DONE
}

// An event as numbers, without the bytes of its item.
fn numbers_of_event(event: &Event) -> EventNumbers
    ensures { result ≡ numbers_of_event event.now }
{
    let (kind, node, to, number) = match event {
        Event::Order { node, item } => return numbers_of_order(*node, item),
        Event::Send { from, to, slot } => (1, from.0, to.0, *slot),
        Event::Ack { from, to, slot } => (2, from.0, to.0, *slot),
        Event::Arrive { from, seq } => (3, from.0, 0, *seq),
        Event::Crash { node } => (4, node.0, 0, 0),
    };
    EventNumbers {
        kind,
        node,
        to,
        item: 0,
        number,
        value: 0,
    }
}

fn numbers_of_order(node: NodeId, item: &Item) -> EventNumbers
    ensures { result ≡ numbers_of_event (Event.Order node item.now) }
{
    let (item, number, value) = match item {
        Item::Data(_) => (0, 0, 0),
        Item::Propose { instance, value } => (1, *instance, *value),
        Item::Close => (2, 0, 0),
    };
    EventNumbers {
        kind: 0,
        node: node.0,
        to: 0,
        item,
        number,
        value,
    }
}
