//! What a node broadcast. Neither call changes the group. Status 0 means done, and 1 that the handle holds no group.
ghost use Rattle.std.specs.Prelude.{◌≡◌, None, IfSome};
ghost use Rattle.cast_world.specs.Group.{StandingFor};
ghost use Rattle.cast_c.specs.Streams.{CountsStream, TellsStreamItem};

use crate::deliveries::put_item;
use crate::numbers::ItemNumbers;
use crate::status::{DONE, MISUSED, REFUSED};
use crate::world_handle::WorldHandle;
use cast_message::NodeId;
use cast_world::World;
use std::alloc::Global;

/// The number of items that node `node` broadcast. 2: it is no node.
#[unsafe(no_mangle)]
pub extern "C" fn cast_c_world_stream(
    alloc: Global,
    world: &mut WorldHandle,
    node: u8,
    count: &mut u64,
) -> u32
    ensures counts { IfSome world.old.loose.world (λ old. StandingFor old (λ config past.
        CountsStream config past node result count.new)) }
    ensures none { world.old.loose.world ≡ None → result ≡ 1 }
    ensures kept { world.new.loose.world ≡ world.old.loose.world }
{
    let Some(held) = world.take(alloc) else {
        return MISUSED;
    };
    let status = count_stream(&held, node, count);
    *world = WorldHandle::of(held);
    status
}

fn count_stream(world: &World, node: u8, count: &mut u64) -> u32
    ensures { StandingFor world.now (λ config past.
        CountsStream config past node result count.new) }
{
    match world.stream(NodeId(node)) {
        Some(items) => {
            *count = items.len() as u64;
            DONE
        }
        None => REFUSED,
    }
}

/// The item with this number, from 0, of those that node `node` broadcast. 2: there is no such item; 6: the buffer has no room
/// for its bytes, and `item` has their number.
#[unsafe(no_mangle)]
pub extern "C" fn cast_c_world_stream_item(
    alloc: Global,
    world: &mut WorldHandle,
    node: u8,
    number: u64,
    item: &mut ItemNumbers,
    bytes: &mut [u8],
) -> u32
    ensures tells { IfSome world.old.loose.world (λ old. StandingFor old (λ config past.
        TellsStreamItem config past node number result item.new bytes.old bytes.new)) }
    ensures none { world.old.loose.world ≡ None → result ≡ 1 }
    ensures kept { world.new.loose.world ≡ world.old.loose.world }
{
    let Some(held) = world.take(alloc) else {
        return MISUSED;
    };
    let status = tell_stream_item(&held, node, number, item, bytes);
    *world = WorldHandle::of(held);
    status
}

fn tell_stream_item(
    world: &World,
    node: u8,
    number: u64,
    item: &mut ItemNumbers,
    bytes: &mut [u8],
) -> u32
    ensures { StandingFor world.now (λ config past.
        TellsStreamItem config past node number result item.new bytes.old bytes.new) }
{
    let Some(items) = world.stream(NodeId(node)) else {
        return REFUSED;
    };
    match items.get(number as usize) {
        Some(found) => put_item(found, item, bytes),
        None => REFUSED,
    }
}
