//! Makes a group, takes it through rounds, drops it.
ghost use Rattle.std.specs.Prelude.{◌≡◌, ◌⊎◌, None, Some, true, is_some, IfSome, IsSomeAnd};
ghost use Rattle.cast_c.specs.Numbers.{IsNew, first_code};
ghost use Rattle.cast_c.specs.Steps.{IsRound, numbers_of_round};

use crate::deliveries::only_number;
use crate::numbers::{ConfigNumbers, ReplyNumbers};
use crate::status::{DONE, MISUSED, OUT_OF_MEMORY, REFUSED};
use crate::world_handle::WorldHandle;
use cast_message::StepFault;
use cast_world::World;
use std::alloc::Global;

/// Makes a group in which nothing has happened. 0: done; 1: the handle holds one already; 2: the configuration is
/// refused, and `fault` is the number of its first fault; 5: out of memory.
#[unsafe(no_mangle)]
pub extern "C" fn cast_c_world_new(
    alloc: Global,
    world: &mut WorldHandle,
    config: &ConfigNumbers,
    fault: &mut u64,
) -> u32
    ensures made { result ≡ 0 → IsSomeAnd world.new.loose.world (IsNew config.now) }
    ensures fit { result ≡ 0 → first_code config.now ≡ None }
    ensures refused { result ≡ 2 → first_code config.now ≡ Some fault.new }
    ensures held { result ≡ 1 → is_some world.old.loose.world ≡ true }
    ensures kept { (result ≡ 0) ⊎ (world.new ≡ world.old) }
    ensures status { (result ≡ 0) ⊎ (result ≡ 1) ⊎ (result ≡ 2) ⊎ (result ≡ 5) }
{
    if world.is_held() {
        return MISUSED;
    }
    let checked = match config.check() {
        Ok(checked) => checked,
        Err(refused) => {
            *fault = refused.code();
            return REFUSED;
        }
    };
    let Ok(made) = World::new(alloc, checked) else {
        return OUT_OF_MEMORY;
    };
    match Box::new(alloc, made) {
        Ok(made) => {
            *world = WorldHandle::of(made);
            DONE
        }
        Err(_) => OUT_OF_MEMORY,
    }
}

/// Takes the events of one round. 0: done, or refused with code 12; 1: the handle holds no group; 5: out of memory. If
/// it stops early, the events before remain.
#[unsafe(no_mangle)]
pub extern "C" fn cast_c_world_round(
    alloc: Global,
    world: &mut WorldHandle,
    reply: &mut ReplyNumbers,
) -> u32
    ensures round { IfSome world.old.loose.world (λ old.
        IsSomeAnd world.new.loose.world (IsRound old result reply.new)) }
    ensures none { world.old.loose.world ≡ None → (result ≡ 1) × (world.new.loose.world ≡ None) }
{
    let Some(mut held) = world.take(alloc) else {
        return MISUSED;
    };
    let status = round(&mut held, reply);
    *world = WorldHandle::of(held);
    status
}

fn round(world: &mut World, reply: &mut ReplyNumbers) -> u32
    ensures { IsRound world.old result reply.new world.new }
{
    let made = world.round();
    *reply = numbers_of(made);
    match made {
        Err(StepFault::Memory) => OUT_OF_MEMORY,
        _ => DONE,
    }
}

fn numbers_of(made: Result<u64, StepFault>) -> ReplyNumbers
    ensures { result ≡ numbers_of_round made }
{
    match made {
        Ok(frames) => only_number(0, frames),
        Err(fault) => only_number(fault.code(), 0),
    }
}

/// Drops the group, if the handle holds one.
#[unsafe(no_mangle)]
pub extern "C" fn cast_c_world_drop(alloc: Global, world: &mut WorldHandle)
    ensures { world.new.loose.world ≡ None }
{
    let _gone = world.take(alloc);
}
