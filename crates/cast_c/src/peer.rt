//! Makes a peer, gives it orders and packets, says what happened outside, and drops it.
ghost use Rattle.std.specs.Prelude.{◌≡◌, ◌<◌, ◌⊎◌, None, Some, true, cond, is_some, IfSome, IsSomeAnd};
ghost use Rattle.cast_c.specs.Numbers.{first_code};
ghost use Rattle.cast_c.specs.Peers.{IsNewPeer, IsNoPeer, IsOrdered, IsOrderedBy, IsReceived, KeepsJournal, TellsFault, status_of_received};
ghost use Rattle.cast_peer.specs.New.{IsNew};

use crate::numbers::{ConfigNumbers, EventNumbers};
use crate::peer_handle::PeerHandle;
use crate::peer_numbers::status_of_fault;
use crate::status::{DONE, MISUSED, OUT_OF_MEMORY, REFUSED};
use cast_message::{Config, Item, NodeId};
use cast_peer::{Peer, PeerFault, Received, Saving};
use std::alloc::Global;

/// Makes a new node of a group. Nobody may have made a peer with the same numbers of group and node before. If `saving`
/// is 0, the peer hands out packets and news only after the entries that record them are saved; if it is 1, at once. 0:
/// done; 1: the handle holds a peer already, or no saving has this number; 2: refused, and `fault` is the number of the
/// configuration's first fault, or 21 if `me` is no node of the group; 5: out of memory.
#[unsafe(no_mangle)]
pub extern "C" fn cast_c_peer_new(
    alloc: Global,
    peer: &mut PeerHandle,
    config: &ConfigNumbers,
    group: u64,
    me: u8,
    saving: u32,
    fault: &mut u64,
) -> u32
    ensures made { result ≡ 0 → IsSomeAnd peer.new.loose.peer (IsNewPeer config.now group me) }
    ensures fit { result ≡ 0 → first_code config.now ≡ None }
    ensures refused { result ≡ 2 → IsNoPeer config.now fault.new }
    ensures held { result ≡ 1 → (1 < saving) ⊎ (is_some peer.old.loose.peer ≡ true) }
    ensures kept { (result ≡ 0) ⊎ (peer.new ≡ peer.old) }
    ensures status { (result ≡ 0) ⊎ (result ≡ 1) ⊎ (result ≡ 2) ⊎ (result ≡ 5) }
{
    let saving = match saving {
        0 => Saving::First,
        1 => Saving::Never,
        _ => return MISUSED,
    };
    if peer.is_held() {
        return MISUSED;
    }
    match config.check() {
        Ok(checked) => make(alloc, peer, &checked, group, NodeId(me), saving, fault),
        Err(refused) => {
            *fault = refused.code();
            REFUSED
        }
    }
}

fn make(
    alloc: Global,
    peer: &mut PeerHandle,
    config: &Config,
    group: u64,
    me: NodeId,
    saving: Saving,
    fault: &mut u64,
) -> u32
    ensures made { result ≡ 0 → IsSomeAnd peer.new.loose.peer (IsNew config.now group me) }
    ensures refused { result ≡ 2 → fault.new ≡ 21 }
    ensures kept { (result ≡ 0) ⊎ (peer.new ≡ peer.old) }
    ensures status { (result ≡ 0) ⊎ (result ≡ 2) ⊎ (result ≡ 5) }
{
    let made = match Peer::new(alloc, config, group, me, saving) {
        Ok(made) => made,
        Err(refused) => {
            *fault = refused.code();
            return status_of_fault(refused);
        }
    };
    match Box::new(alloc, made) {
        Ok(made) => {
            *peer = PeerHandle::of(made);
            DONE
        }
        Err(_) => OUT_OF_MEMORY,
    }
}

/// Broadcasts an item. Only the item's numbers in `order` are read, and `bytes` only if the item is bytes. 0: logged; 1:
/// the handle holds no peer, or no item has this number; 2: refused, and `fault` says why; 5: out of memory. If the node
/// refuses, the refusal is logged too.
#[unsafe(no_mangle)]
pub extern "C" fn cast_c_peer_order(
    alloc: Global,
    peer: &mut PeerHandle,
    order: &EventNumbers,
    bytes: &[u8],
    fault: &mut u64,
) -> u32
    ensures ordered { IfSome peer.old.loose.peer (λ old.
        IsSomeAnd peer.new.loose.peer (IsOrderedBy old order.now bytes.now result)) }
    ensures none { peer.old.loose.peer ≡ None → (result ≡ 1) × (peer.new.loose.peer ≡ None) }
{
    let Some(mut held) = peer.take(alloc) else {
        return MISUSED;
    };
    let status = order_by(alloc, &mut held, order, bytes, fault);
    *peer = PeerHandle::of(held);
    status
}

fn order_by(
    alloc: Global,
    peer: &mut Peer,
    order: &EventNumbers,
    bytes: &[u8],
    fault: &mut u64,
) -> u32
    ensures { IsOrderedBy peer.old order.now bytes.now result peer.new }
{
    let Ok(item) = order.item(alloc, bytes) else {
        return OUT_OF_MEMORY;
    };
    let Some(item) = item else {
        return MISUSED;
    };
    order_item(peer, item, fault)
}

fn order_item(peer: &mut Peer, item: Item, fault: &mut u64) -> u32
    ensures { IsOrdered peer.old item result peer.new }
{
    match peer.order(item) {
        Ok(()) => DONE,
        Err(refused) => say(refused, fault),
    }
}

// Writes why the peer refused, and returns the status.
fn say(refused: PeerFault, fault: &mut u64) -> u32
    ensures { (result ≡ 2) ⊎ (result ≡ 5) }
{
    *fault = refused.code();
    status_of_fault(refused)
}

/// Takes what the network brought. 0: its arrival was logged, or its content was known; 1: the handle holds no peer; 2:
/// dropped, and `fault` says why; 5: out of memory.
#[unsafe(no_mangle)]
pub extern "C" fn cast_c_peer_receive(
    alloc: Global,
    peer: &mut PeerHandle,
    bytes: &[u8],
    fault: &mut u64,
) -> u32
    ensures received { IfSome peer.old.loose.peer (λ old.
        IsSomeAnd peer.new.loose.peer (IsReceived old bytes.now result fault.new)) }
    ensures none { peer.old.loose.peer ≡ None → (result ≡ 1) × (peer.new.loose.peer ≡ None) }
{
    let Some(mut held) = peer.take(alloc) else {
        return MISUSED;
    };
    let status = receive(&mut held, bytes, fault);
    *peer = PeerHandle::of(held);
    status
}

fn receive(peer: &mut Peer, bytes: &[u8], fault: &mut u64) -> u32
    ensures { IsReceived peer.old bytes.now result fault.new peer.new }
{
    let received = peer.receive(bytes);
    status_of_received(received, fault)
}

fn status_of_received(received: Result<Received, PeerFault>, fault: &mut u64) -> u32
    ensures status { result ≡ status_of_received received }
    ensures fault { TellsFault received fault.new }
{
    match received {
        Ok(_) => DONE,
        Err(dropped) => {
            *fault = dropped.code();
            status_of_fault(dropped)
        }
    }
}

/// Notes how many entries of the log are saved. The number is limited to the log's length, and never falls. 1: the
/// handle holds no peer.
#[unsafe(no_mangle)]
pub extern "C" fn cast_c_peer_saved(alloc: Global, peer: &mut PeerHandle, count: u64) -> u32
    ensures keeps { KeepsJournal peer.old.loose.peer peer.new.loose.peer }
    ensures status { result ≡ cond (is_some peer.old.loose.peer) 0 1 }
{
    let Some(mut held) = peer.take(alloc) else {
        return MISUSED;
    };
    held.saved(count as usize);
    *peer = PeerHandle::of(held);
    DONE
}

/// Notes that time has passed: what was sent before the last call, and is not acknowledged, is due again, each time
/// after twice as many calls. 1: the handle holds no peer.
#[unsafe(no_mangle)]
pub extern "C" fn cast_c_peer_tick(alloc: Global, peer: &mut PeerHandle) -> u32
    ensures keeps { KeepsJournal peer.old.loose.peer peer.new.loose.peer }
    ensures status { result ≡ cond (is_some peer.old.loose.peer) 0 1 }
{
    let Some(mut held) = peer.take(alloc) else {
        return MISUSED;
    };
    held.tick();
    *peer = PeerHandle::of(held);
    DONE
}

/// Sends nothing more to a node, as it is no longer expected to answer. 1: the handle holds no peer.
#[unsafe(no_mangle)]
pub extern "C" fn cast_c_peer_give_up(alloc: Global, peer: &mut PeerHandle, node: u8) -> u32
    ensures keeps { KeepsJournal peer.old.loose.peer peer.new.loose.peer }
    ensures status { result ≡ cond (is_some peer.old.loose.peer) 0 1 }
{
    let Some(mut held) = peer.take(alloc) else {
        return MISUSED;
    };
    held.give_up(NodeId(node));
    *peer = PeerHandle::of(held);
    DONE
}

/// Drops the peer, if the handle holds one.
#[unsafe(no_mangle)]
pub extern "C" fn cast_c_peer_drop(alloc: Global, peer: &mut PeerHandle)
    ensures { peer.new.loose.peer ≡ None }
{
    let _gone = peer.take(alloc);
}
