//! The call by which a group takes an event.
ghost use Rattle.std.specs.Prelude.{◌≡◌, None, IfSome, IsSomeAnd};
ghost use Rattle.cast_c.specs.Steps.{IsStep, IsStepBy};

use crate::deliveries::numbers_of;
use crate::numbers::{EventNumbers, ReplyNumbers};
use crate::status::{DONE, MISUSED, OUT_OF_MEMORY};
use crate::world_handle::WorldHandle;
use cast_message::Event;
use cast_world::{World, is_want_of_memory};
use std::alloc::Global;

/// Takes one event, with the bytes of its item, which are read only if it has some. 0: done, and `reply` is the reply,
/// maybe a refusal; 1: the handle holds no group, or no kind has this number; 5: out of memory, and nothing changed.
#[unsafe(no_mangle)]
pub extern "C" fn cast_c_world_step(
    alloc: Global,
    world: &mut WorldHandle,
    event: &EventNumbers,
    bytes: &[u8],
    reply: &mut ReplyNumbers,
) -> u32
    ensures stepped { IfSome world.old.loose.world (λ old.
        IsSomeAnd world.new.loose.world (IsStepBy old event.now bytes.now result reply.new)) }
    ensures none { world.old.loose.world ≡ None → (result ≡ 1) × (world.new.loose.world ≡ None) }
{
    let Some(mut held) = world.take(alloc) else {
        return MISUSED;
    };
    let status = step_by(alloc, &mut held, event, bytes, reply);
    *world = WorldHandle::of(held);
    status
}

fn step_by(
    alloc: Global,
    world: &mut World,
    event: &EventNumbers,
    bytes: &[u8],
    reply: &mut ReplyNumbers,
) -> u32
    ensures { IsStepBy world.old event.now bytes.now result reply.new world.new }
{
    let Ok(event) = event.event(alloc, bytes) else {
        return OUT_OF_MEMORY;
    };
    let Some(event) = event else {
        return MISUSED;
    };
    step(world, &event, reply)
}

fn step(world: &mut World, event: &Event, reply: &mut ReplyNumbers) -> u32
    ensures { IsStep world.old event.now result reply.new world.new }
{
    let answered = world.step(event);
    *reply = numbers_of(&answered);
    if is_want_of_memory(&answered) {
        OUT_OF_MEMORY
    } else {
        DONE
    }
}
