//! Reads a packet from bytes.
ghost use Rattle.std.specs.Prelude.{◌≡◌, ◌+◌, ◌<◌, ◌≤◌, ◌⊎◌, ◌++◌, ◌∷◌, length, Some, None, IfOk, IfErr};
ghost use Rattle.std.specs.Int.{w64, to_le_bytes};
ghost use Rattle.cast_wire.specs.declared.packet.WireFault.TheVariants.{Memory};
ghost use Rattle.cast_wire.specs.Law.{HasNumbers, HasBodyNumbers, HasItemNumbers, IsNumber};
ghost use Rattle.cast_wire.specs.Wire.{least_bytes, most_bytes, item_bytes, message_bytes, body_bytes, body_kind, packet_bytes, item_kind, wire_fault};

use crate::packet::{MOST_BYTES, Packet, WireFault};
use bytes::Bytes;
use cast_message::{Frame, FrameBody, Item, Message, NodeId, Payload};
use std::alloc::{AllocError, Global};

// The sizes of an acknowledgement, a message without data, and a proposal.
const TOOK_BYTES: usize = 38;

const CARRY_BYTES: usize = 47;

const PROPOSAL_BYTES: usize = 63;

/// The packet that these bytes are, all of them, or why they are not one.
pub fn read_packet(alloc: Global, bytes: &[u8]) -> Result<Packet, WireFault>
    ensures exact { IfOk result (λ packet. bytes.now ≡ packet_bytes packet) }
    ensures numbers { IfOk result HasNumbers }
    ensures refused { IfErr result (λ fault. (fault ≡ Memory) ⊎ (wire_fault bytes.now ≡ Some fault)) }
{
    if let Some(fault) = find_fault(bytes) {
        return Err(fault);
    }
    Ok(read_fit(alloc, bytes)?)
}

// Why these bytes are not a packet, if they are not.
#[tactic(auto, using(std::proofs::lemmas::Bool::Decides::nat_tests), unfolding(crate::specs::Wire::first_wire_fault, crate::specs::Wire::wire_causes))]
fn find_fault(bytes: &[u8]) -> Option<WireFault>
    ensures { result ≡ wire_fault bytes.now }
{
    if bytes.len() < 4 {
        return Some(WireFault::Short);
    }
    if bytes[0] != 99 || bytes[1] != 103 {
        return Some(WireFault::Foreign);
    }
    if bytes[2] != 1 {
        return Some(WireFault::Version);
    }
    if bytes[3] > 3 {
        return Some(WireFault::Kind);
    }
    if bytes.len() < least_bytes(bytes[3]) {
        return Some(WireFault::Short);
    }
    if bytes.len() > most_bytes(bytes[3]) {
        return Some(WireFault::Long);
    }
    None
}

// The least length of a packet of this kind.
fn least_bytes(kind: u8) -> usize
    ensures { result ≡ least_bytes kind }
{
    match kind {
        0 => TOOK_BYTES,
        2 => PROPOSAL_BYTES,
        _ => CARRY_BYTES,
    }
}

// Its greatest length.
fn most_bytes(kind: u8) -> usize
    ensures { result ≡ most_bytes kind }
{
    match kind {
        1 => MOST_BYTES,
        _ => least_bytes(kind),
    }
}

// The packet of valid bytes. The only error is out of memory.
fn read_fit(alloc: Global, bytes: &[u8]) -> Result<Packet, AllocError>
    requires { wire_fault bytes.now ≡ None }
    ensures exact { IfOk result (λ packet. bytes.now ≡ packet_bytes packet) }
    ensures numbers { IfOk result HasNumbers }
{
    let (kind, rest) = split_kind(bytes);
    let (group, rest) = split_number(rest);
    let (stamp, rest) = split_number(rest);
    let (from, rest) = split_byte(rest);
    let (to, rest) = split_byte(rest);
    let (seq, rest) = split_number(rest);
    let body = read_body(alloc, kind, rest)?;
    let frame = Frame {
        from: NodeId(from),
        to: NodeId(to),
        seq,
        body,
    };
    Ok(Packet {
        group,
        stamp,
        frame,
    })
}

// The kind of a packet, and the bytes after it.
#[tactic(auto, using(std::proofs::lemmas::Bool::Decides::nat_tests), unfolding(crate::specs::Wire::first_wire_fault, crate::specs::Wire::wire_causes))]
fn split_kind(bytes: &[u8]) -> (u8, &[u8])
    requires { wire_fault bytes.now ≡ None }
    ensures bytes { bytes.now ≡ 99 ∷ 103 ∷ 1 ∷ result.0 ∷ result.1.now }
    ensures kind { result.0 ≤ 3 }
    ensures least { least_bytes result.0 ≤ 4 + length result.1.now }
    ensures most { 4 + length result.1.now ≤ most_bytes result.0 }
{
    let (_head, rest) = bytes.split_at(3);
    split_byte(rest)
}

fn read_body(alloc: Global, kind: u8, bytes: &[u8]) -> Result<FrameBody, AllocError>
    requires kind { kind ≤ 3 }
    requires least { least_bytes kind ≤ 30 + length bytes.now }
    requires most { 30 + length bytes.now ≤ most_bytes kind }
    ensures exact { IfOk result (λ body. (bytes.now ≡ body_bytes body) × (kind ≡ body_kind body)) }
    ensures numbers { IfOk result HasBodyNumbers }
{
    let (slot, rest) = split_number(bytes);
    if kind == 0 {
        return Ok(FrameBody::Took { slot });
    }
    let message = read_message(alloc, kind, rest)?;
    Ok(FrameBody::Carry { slot, message })
}

fn read_message(alloc: Global, kind: u8, bytes: &[u8]) -> Result<Message, AllocError>
    requires kind { (0 < kind) × (kind ≤ 3) }
    requires least { least_bytes kind ≤ 38 + length bytes.now }
    requires most { 38 + length bytes.now ≤ most_bytes kind }
    ensures exact { IfOk result (λ message.
        (bytes.now ≡ message_bytes message) × (kind ≡ item_kind message.item)) }
    ensures numbers { IfOk result (λ message.
        IsNumber message.number × HasItemNumbers message.item) }
{
    let (sender, rest) = split_byte(bytes);
    let (number, rest) = split_number(rest);
    let item = read_item(alloc, kind, rest)?;
    Ok(Message {
        sender: NodeId(sender),
        number,
        item,
    })
}

fn read_item(alloc: Global, kind: u8, bytes: &[u8]) -> Result<Item, AllocError>
    requires kind { (0 < kind) × (kind ≤ 3) }
    requires least { least_bytes kind ≤ 47 + length bytes.now }
    requires most { 47 + length bytes.now ≤ most_bytes kind }
    ensures exact { IfOk result (λ item. (bytes.now ≡ item_bytes item) × (kind ≡ item_kind item)) }
    ensures numbers { IfOk result HasItemNumbers }
{
    match kind {
        1 => Ok(Item::Data(Payload::new(Bytes::copy_from_slice(alloc, bytes)?))),
        2 => Ok(read_proposal(bytes)),
        _ => Ok(Item::Close),
    }
}

fn read_proposal(bytes: &[u8]) -> Item
    requires { length bytes.now ≡ 16 }
    ensures exact { (bytes.now ≡ item_bytes result) × (item_kind result ≡ 2) }
    ensures numbers { HasItemNumbers result }
{
    let (instance, rest) = split_number(bytes);
    let (value, _none) = split_number(rest);
    Item::Propose { instance, value }
}

fn split_byte(bytes: &[u8]) -> (u8, &[u8])
    requires { 1 ≤ length bytes.now }
    ensures bytes { bytes.now ≡ result.0 ∷ result.1.now }
    ensures length { length bytes.now ≡ 1 + length result.1.now }
{
    let (front, rest) = bytes.split_at(1);
    (front[0], rest)
}

// The number in the first eight bytes, and the other bytes.
fn split_number(bytes: &[u8]) -> (u64, &[u8])
    requires { 8 ≤ length bytes.now }
    ensures bytes { bytes.now ≡ to_le_bytes w64 result.0 ++ result.1.now }
    ensures length { length bytes.now ≡ 8 + length result.1.now }
{
    let (front, rest) = bytes.split_at(8);
    let number = u64::from_le_bytes([
        front[0], front[1], front[2], front[3], front[4], front[5], front[6], front[7],
    ]);
    (number, rest)
}
