//! What a peer hands out: packets, news, and the lines of its log.
ghost use Rattle.std.specs.Prelude.{◌≡◌, ◌⊎◌, None, cond, is_some, length, IfSome, IsSomeAnd, IfOk};
ghost use Rattle.cast_c.specs.Peers.{GivesNext, HasLine, TellsLine, TellsNews};

use crate::deliveries::{put_bytes, put_item};
use crate::numbers::ItemNumbers;
use crate::peer_handle::PeerHandle;
use crate::peer_numbers::{
    NewsNumbers, PacketNumbers, no_news, numbers_of_decision, numbers_of_message, numbers_of_next,
    ordered_as,
};
use crate::status::{DONE, MISUSED, OUT_OF_MEMORY, REFUSED, TOO_SHORT};
use cast_logfile::{append_entry, append_head};
use cast_message::{Message, PAYLOAD_LIMIT};
use cast_peer::{MOST_BYTES, News, Peer};
use std::alloc::{AllocError, Global};

/// The next packet to send, and its bytes; or what to do first. 0: done; 1: the handle holds no peer; 5: out of memory;
/// 6: the buffer has less than 1,071 bytes, and nothing changed.
#[unsafe(no_mangle)]
pub extern "C" fn cast_c_peer_next(
    alloc: Global,
    peer: &mut PeerHandle,
    packet: &mut PacketNumbers,
    buffer: &mut [u8],
) -> u32
    ensures gives { IfSome peer.old.loose.peer (λ old.
        IsSomeAnd peer.new.loose.peer (GivesNext old (length buffer.old) result packet.new)) }
    ensures none { peer.old.loose.peer ≡ None → (result ≡ 1) × (peer.new.loose.peer ≡ None) }
{
    let Some(mut held) = peer.take(alloc) else {
        return MISUSED;
    };
    let status = give_next(alloc, &mut held, packet, buffer);
    *peer = PeerHandle::of(held);
    status
}

fn give_next(alloc: Global, peer: &mut Peer, packet: &mut PacketNumbers, buffer: &mut [u8]) -> u32
    ensures { GivesNext peer.old (length buffer.old) result packet.new peer.new }
{
    if buffer.len() < MOST_BYTES {
        return TOO_SHORT;
    }
    let mut bytes = Vec::new(alloc);
    let Ok(next) = peer.next_packet(&mut bytes) else {
        return OUT_OF_MEMORY;
    };
    *packet = numbers_of_next(next, bytes.len() as u64);
    put_bytes(bytes.as_slice(), buffer)
}

/// The next news that was not reported, and the bytes of a delivered item. 0: done, and `news` may be none; 1: the
/// handle holds no peer; 5: out of memory, and the news stays the next; 6: the buffer has less than 1,024 bytes, and
/// nothing changed.
#[unsafe(no_mangle)]
pub extern "C" fn cast_c_peer_news(
    alloc: Global,
    peer: &mut PeerHandle,
    news: &mut NewsNumbers,
    buffer: &mut [u8],
) -> u32
    ensures tells { IfSome peer.old.loose.peer (λ old.
        IsSomeAnd peer.new.loose.peer (TellsNews old (length buffer.old) result)) }
    ensures none { peer.old.loose.peer ≡ None → (result ≡ 1) × (peer.new.loose.peer ≡ None) }
{
    let Some(mut held) = peer.take(alloc) else {
        return MISUSED;
    };
    let status = tell_news(&mut held, news, buffer);
    *peer = PeerHandle::of(held);
    status
}

fn tell_news(peer: &mut Peer, news: &mut NewsNumbers, buffer: &mut [u8]) -> u32
    ensures { TellsNews peer.old (length buffer.old) result peer.new }
{
    if buffer.len() < PAYLOAD_LIMIT {
        return TOO_SHORT;
    }
    let Ok(next) = peer.next_news() else {
        return OUT_OF_MEMORY;
    };
    match next {
        Some(next) => put_news(&next, news, buffer),
        None => {
            *news = no_news();
            DONE
        }
    }
}

fn put_news(next: &News, news: &mut NewsNumbers, buffer: &mut [u8]) -> u32
    ensures { (result ≡ 0) ⊎ (result ≡ 6) }
{
    match next {
        News::Ordered { number } => {
            *news = ordered_as(*number);
            DONE
        }
        News::Delivered(message) => put_message(message, news, buffer),
        News::Decided(decision) => {
            *news = numbers_of_decision(*decision);
            DONE
        }
    }
}

fn put_message(message: &Message, news: &mut NewsNumbers, buffer: &mut [u8]) -> u32
    ensures { (result ≡ 0) ⊎ (result ≡ 6) }
{
    let mut item = ItemNumbers {
        kind: 0,
        length: 0,
        instance: 0,
        value: 0,
    };
    let status = put_item(&message.item, &mut item, buffer);
    *news = numbers_of_message(message, item);
    status
}

/// Whether nothing is owed to a peer that was not given up, no packet waits, and no slot is still to be acknowledged.
/// 1: the handle holds no peer.
#[unsafe(no_mangle)]
pub extern "C" fn cast_c_peer_is_quiet(
    alloc: Global,
    peer: &mut PeerHandle,
    is_so: &mut bool,
) -> u32
    ensures status { result ≡ cond (is_some peer.old.loose.peer) 0 1 }
    ensures kept { peer.new.loose.peer ≡ peer.old.loose.peer }
{
    let Some(held) = peer.take(alloc) else {
        return MISUSED;
    };
    *is_so = held.is_quiet();
    *peer = PeerHandle::of(held);
    DONE
}

/// The number of entries of the log. 1: the handle holds no peer.
#[unsafe(no_mangle)]
pub extern "C" fn cast_c_peer_log_length(
    alloc: Global,
    peer: &mut PeerHandle,
    count: &mut u64,
) -> u32
    ensures counts { IfSome peer.old.loose.peer (λ old. count.new ≡ length old.journal.log) }
    ensures status { result ≡ cond (is_some peer.old.loose.peer) 0 1 }
    ensures kept { peer.new.loose.peer ≡ peer.old.loose.peer }
{
    let Some(held) = peer.take(alloc) else {
        return MISUSED;
    };
    *count = held.log().len() as u64;
    *peer = PeerHandle::of(held);
    DONE
}

/// A line of the log as a file, with its line feed. Line 0 is the head, and line n the n-th entry, from 1. The file of
/// a node that stops ends with a line `end`, which its user writes. 0: done; 1: the handle holds no peer; 2: there is
/// no such line yet; 5: out of memory; 6: the buffer has no room for it, and `length` says how much it needs.
#[unsafe(no_mangle)]
pub extern "C" fn cast_c_peer_log(
    alloc: Global,
    peer: &mut PeerHandle,
    place: u64,
    length: &mut u64,
    buffer: &mut [u8],
) -> u32
    ensures tells { IfSome peer.old.loose.peer (λ old.
        TellsLine old place result length.new buffer.old buffer.new) }
    ensures none { peer.old.loose.peer ≡ None → result ≡ 1 }
    ensures kept { peer.new.loose.peer ≡ peer.old.loose.peer }
{
    let Some(held) = peer.take(alloc) else {
        return MISUSED;
    };
    let status = tell_line(alloc, &held, place, length, buffer);
    *peer = PeerHandle::of(held);
    status
}

fn tell_line(alloc: Global, peer: &Peer, place: u64, length: &mut u64, buffer: &mut [u8]) -> u32
    ensures { TellsLine peer.now place result length.new buffer.old buffer.new }
{
    let mut line = Vec::new(alloc);
    let Ok(is_there) = append_line(&mut line, peer, place) else {
        return OUT_OF_MEMORY;
    };
    if !is_there {
        return REFUSED;
    }
    *length = line.len() as u64;
    put_bytes(line.as_slice(), buffer)
}

// Appends a line of the log, and returns whether there is one.
fn append_line(out: &mut Vec<u8>, peer: &Peer, place: u64) -> Result<bool, AllocError>
    ensures { IfOk result (HasLine peer.now place) }
{
    if place == 0 {
        append_head(out, peer.config(), peer.group(), peer.node().id())?;
        return Ok(true);
    }
    let entry = place - 1;
    if entry >= peer.log().len() as u64 {
        return Ok(false);
    }
    append_entry(out, peer.log(), entry as usize)?;
    Ok(true)
}
