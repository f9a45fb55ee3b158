//! A walk over the merged events of a run, which the group takes once more.
ghost use Rattle.std.specs.Prelude.{◌≡◌, ◌+◌, ◌<◌, ◌^◌, OnOk, IfOk};
ghost use Rattle.cast_text.specs.Ranges.{HasEventRange};
ghost use Rattle.cast_live.specs.Walk.{TakesStep};

use cast_message::{Event, Reply};
use cast_text::tell_event_range;
use cast_world::{World, is_want_of_memory};
use std::alloc::AllocError;

/// Lets the group take an event. It is an error if the reply is out of memory.
pub fn take_step(world: &mut World, event: &Event) -> Result<Reply, AllocError>
    ensures step { IfOk result (TakesStep world.old event.now world.new) }
    ensures range { OnOk result (HasEventRange event.now) }
{
    tell_event_range(event);
    let reply = world.step(event);
    if is_want_of_memory(&reply) {
        return Err(AllocError);
    }
    Ok(reply)
}

/// The index of the next event. After index 2^64 - 1 there is none, which is reported as out of memory.
pub fn next_index(index: u64) -> Result<u64, AllocError>
    ensures { IfOk result (λ next. (next ≡ index + 1) × (next < 2 ^ 64)) }
{
    index.checked_add(1).ok_or(AllocError)
}
