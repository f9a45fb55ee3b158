//! What a group shows. None of these calls changes it. Status 0 means done, and 1 that the handle holds no group.
ghost use Rattle.std.specs.Prelude.{◌≡◌, ◌⊎◌, ◌↔◌, ◌&&◌, None, IfSome, IsTrue, cond, is_some, nat_lt};
ghost use Rattle.cast_message.specs.declared.config.Mode.TheVariants.{Uniform};
ghost use Rattle.cast_model.specs.Delivery.{decision};
ghost use Rattle.cast_model.specs.History.{is_live};
ghost use Rattle.cast_model.specs.Rounds.{Rest, HaveFewCrashed, FewCrashedIn};
ghost use Rattle.cast_model.specs.Shown.{ShowsOwed};
ghost use Rattle.cast_world.specs.Group.{StandingFor};
ghost use Rattle.cast_world.specs.Rounds.{AgreesAtRest, HaveWhatAnyDelivered};
ghost use Rattle.cast_c.specs.Steps.{CountsDelivered, IsFault, IsFaultBy, TellsItem, shown_by, decision_by};

use crate::deliveries::put_item;
use crate::numbers::{EventNumbers, ItemNumbers};
use crate::status::{DONE, MISUSED, OUT_OF_MEMORY, REFUSED};
use crate::world_handle::WorldHandle;
use cast_message::{Event, NodeId};
use cast_world::World;
use std::alloc::Global;

/// The number of items that node `node` delivered from `sender`. 2: not both are nodes.
#[unsafe(no_mangle)]
pub extern "C" fn cast_c_world_delivered(
    alloc: Global,
    world: &mut WorldHandle,
    node: u8,
    sender: u8,
    count: &mut u64,
) -> u32
    ensures counts { IfSome world.old.loose.world (λ old. StandingFor old (λ config past.
        CountsDelivered config past node sender result count.new)) }
    ensures none { world.old.loose.world ≡ None → result ≡ 1 }
    ensures kept { world.new.loose.world ≡ world.old.loose.world }
{
    let Some(held) = world.take(alloc) else {
        return MISUSED;
    };
    let status = count_delivered(&held, node, sender, count);
    *world = WorldHandle::of(held);
    status
}

fn count_delivered(world: &World, node: u8, sender: u8, count: &mut u64) -> u32
    ensures { StandingFor world.now (λ config past.
        CountsDelivered config past node sender result count.new) }
{
    match world.delivered(NodeId(node), NodeId(sender)) {
        Some(items) => {
            *count = items.len() as u64;
            DONE
        }
        None => REFUSED,
    }
}

/// The item with this number, from 0, of those that node `node` delivered from `sender`. 2: there is no such item; 6:
/// the buffer has no room for its bytes, and `item` has their number.
#[unsafe(no_mangle)]
pub extern "C" fn cast_c_world_item(
    alloc: Global,
    world: &mut WorldHandle,
    node: u8,
    sender: u8,
    number: u64,
    item: &mut ItemNumbers,
    bytes: &mut [u8],
) -> u32
    ensures tells { IfSome world.old.loose.world (λ old. StandingFor old (λ config past.
        TellsItem config past node sender number result item.new bytes.old bytes.new)) }
    ensures none { world.old.loose.world ≡ None → result ≡ 1 }
    ensures kept { world.new.loose.world ≡ world.old.loose.world }
{
    let Some(held) = world.take(alloc) else {
        return MISUSED;
    };
    let status = tell_item(&held, node, sender, number, item, bytes);
    *world = WorldHandle::of(held);
    status
}

fn tell_item(
    world: &World,
    node: u8,
    sender: u8,
    number: u64,
    item: &mut ItemNumbers,
    bytes: &mut [u8],
) -> u32
    ensures { StandingFor world.now (λ config past.
        TellsItem config past node sender number result item.new bytes.old bytes.new) }
{
    let Some(items) = world.delivered(NodeId(node), NodeId(sender)) else {
        return REFUSED;
    };
    match items.get(number as usize) {
        Some(found) => put_item(found, item, bytes),
        None => REFUSED,
    }
}

/// Whether node `node` decided in the instance, and which value.
#[unsafe(no_mangle)]
pub extern "C" fn cast_c_world_decision(
    alloc: Global,
    world: &mut WorldHandle,
    node: u8,
    instance: u64,
    is_decided: &mut bool,
    value: &mut u64,
) -> u32
    ensures shown { IfSome world.old.loose.world (λ old. StandingFor old (λ config past.
        decision_by is_decided.new value.new ≡ decision config past node instance)) }
    ensures status { result ≡ cond (is_some world.old.loose.world) 0 1 }
    ensures kept { world.new.loose.world ≡ world.old.loose.world }
{
    let Some(held) = world.take(alloc) else {
        return MISUSED;
    };
    match held.decision(NodeId(node), instance) {
        Some(decided) => {
            *is_decided = true;
            *value = decided;
        }
        None => *is_decided = false,
    }
    *world = WorldHandle::of(held);
    DONE
}

/// The number of unacknowledged slots that `from` gave `to`. 2: not both are nodes, or they are the same.
#[unsafe(no_mangle)]
pub extern "C" fn cast_c_world_owed(
    alloc: Global,
    world: &mut WorldHandle,
    from: u8,
    to: u8,
    count: &mut u64,
) -> u32
    ensures shown { IfSome world.old.loose.world (λ old. StandingFor old (λ config past.
        ShowsOwed config past from to (shown_by result count.new))) }
    ensures none { world.old.loose.world ≡ None → result ≡ 1 }
    ensures known { IfSome world.old.loose.world (λ _. (result ≡ 0) ⊎ (result ≡ 2)) }
    ensures kept { world.new.loose.world ≡ world.old.loose.world }
{
    let Some(held) = world.take(alloc) else {
        return MISUSED;
    };
    let status = match held.owed(NodeId(from), NodeId(to)) {
        Some(owed) => {
            *count = owed;
            DONE
        }
        None => REFUSED,
    };
    *world = WorldHandle::of(held);
    status
}

/// Whether node `node` belongs to the group and has not crashed.
#[unsafe(no_mangle)]
pub extern "C" fn cast_c_world_live(
    alloc: Global,
    world: &mut WorldHandle,
    node: u8,
    is_so: &mut bool,
) -> u32
    ensures shown { IfSome world.old.loose.world (λ old. StandingFor old (λ config past.
        is_so.new ≡ (nat_lt node config.nodes && is_live past node))) }
    ensures status { result ≡ cond (is_some world.old.loose.world) 0 1 }
    ensures kept { world.new.loose.world ≡ world.old.loose.world }
{
    let Some(held) = world.take(alloc) else {
        return MISUSED;
    };
    *is_so = held.live(NodeId(node));
    *world = WorldHandle::of(held);
    DONE
}

/// Whether no live node owes a live node a slot.
#[unsafe(no_mangle)]
pub extern "C" fn cast_c_world_at_rest(
    alloc: Global,
    world: &mut WorldHandle,
    is_so: &mut bool,
) -> u32
    ensures rest { IfSome world.old.loose.world (λ old. StandingFor old (λ config past.
        IsTrue is_so.new ↔ Rest config past)) }
    ensures agrees { IfSome world.old.loose.world (λ old. StandingFor old (λ config past.
        IsTrue is_so.new → FewCrashedIn config.mode config past → AgreesAtRest config past)) }
    ensures uniform { IfSome world.old.loose.world (λ old. StandingFor old (λ config past.
        IsTrue is_so.new → config.mode ≡ Uniform →
        HaveFewCrashed config past → HaveWhatAnyDelivered config past)) }
    ensures status { result ≡ cond (is_some world.old.loose.world) 0 1 }
    ensures kept { world.new.loose.world ≡ world.old.loose.world }
{
    let Some(held) = world.take(alloc) else {
        return MISUSED;
    };
    *is_so = held.at_rest();
    *world = WorldHandle::of(held);
    DONE
}

/// Why the group would refuse the event now, if it would. 0: done, and `code` is the number of the refusal, or 0; 1: the
/// handle holds no group, or no kind has this number; 5: out of memory. It never says that a step would run out of it.
#[unsafe(no_mangle)]
pub extern "C" fn cast_c_world_fault(
    alloc: Global,
    world: &mut WorldHandle,
    event: &EventNumbers,
    bytes: &[u8],
    code: &mut u64,
) -> u32
    ensures fault { IfSome world.old.loose.world (λ old.
        IsFaultBy old event.now bytes.now result code.new) }
    ensures none { world.old.loose.world ≡ None → result ≡ 1 }
    ensures kept { world.new.loose.world ≡ world.old.loose.world }
{
    let Some(held) = world.take(alloc) else {
        return MISUSED;
    };
    let status = fault_by(alloc, &held, event, bytes, code);
    *world = WorldHandle::of(held);
    status
}

fn fault_by(alloc: Global, world: &World, event: &EventNumbers, bytes: &[u8], code: &mut u64) -> u32
    ensures { IsFaultBy world.now event.now bytes.now result code.new }
{
    let Ok(event) = event.event(alloc, bytes) else {
        return OUT_OF_MEMORY;
    };
    let Some(event) = event else {
        return MISUSED;
    };
    *code = fault_code(world, &event);
    DONE
}

fn fault_code(world: &World, event: &Event) -> u64
    ensures { IsFault world.now event.now result }
{
    match world.fault(event) {
        Some(fault) => fault.code(),
        None => 0,
    }
}
