//! Writes a packet as bytes.
ghost use Rattle.std.specs.Prelude.{◌≡◌, ◌++◌, ◌∷◌, [], IfOk, OnOk};
ghost use Rattle.std.specs.Int.{w64, to_le_bytes};
ghost use Rattle.cast_wire.specs.Law.{HasNumbers, HasBodyNumbers, HasItemNumbers, IsNumber};
ghost use Rattle.cast_wire.specs.Wire.{number_bytes, head_bytes, item_bytes, message_bytes, body_bytes, body_kind, packet_bytes};

use crate::packet::Packet;
use cast_message::{Frame, FrameBody, Item, Message};
use std::alloc::{AllocError, Global};

/// The bytes of a packet. The only error is out of memory.
pub fn write_packet(alloc: Global, packet: &Packet) -> Result<Vec<u8>, AllocError>
    ensures exact { IfOk result (λ bytes. bytes.items ≡ packet_bytes packet.now) }
    ensures numbers { IfOk result (λ _. HasNumbers packet.now) }
{
    let mut out = Vec::new(alloc);
    let kind = kind_of(&packet.frame.body);
    write_head(&mut out, kind, packet.group, packet.stamp, &packet.frame)?;
    write_body(&mut out, &packet.frame.body)?;
    Ok(out)
}

fn kind_of(body: &FrameBody) -> u8
    ensures { result ≡ body_kind body.now }
{
    match body {
        FrameBody::Took { .. } => 0,
        FrameBody::Carry { message, .. } => match &message.item {
            Item::Data(_) => 1,
            Item::Propose { .. } => 2,
            Item::Close => 3,
        },
    }
}

fn write_head(
    out: &mut Vec<u8>,
    kind: u8,
    group: u64,
    stamp: u64,
    frame: &Frame,
) -> Result<(), AllocError>
    ensures exact { OnOk result (out.new.items ≡ out.old.items
        ++ head_bytes kind group stamp frame.now.from frame.now.to frame.now.seq) }
    ensures numbers { OnOk result (IsNumber group × IsNumber stamp × IsNumber frame.now.seq) }
{
    append(out, &[99, 103, 1, kind])?;
    append(out, &group.to_le_bytes())?;
    append(out, &stamp.to_le_bytes())?;
    append(out, &[frame.from.0, frame.to.0])?;
    append(out, &frame.seq.to_le_bytes())
}

fn write_body(out: &mut Vec<u8>, body: &FrameBody) -> Result<(), AllocError>
    ensures exact { OnOk result (out.new.items ≡ out.old.items ++ body_bytes body.now) }
    ensures numbers { OnOk result (HasBodyNumbers body.now) }
{
    match body {
        FrameBody::Took { slot } => append(out, &slot.to_le_bytes()),
        FrameBody::Carry { slot, message } => write_carry(out, *slot, message),
    }
}

fn write_carry(out: &mut Vec<u8>, slot: u64, message: &Message) -> Result<(), AllocError>
    ensures exact { OnOk result
        (out.new.items ≡ out.old.items ++ (number_bytes slot ++ message_bytes message.now)) }
    ensures numbers { OnOk result
        (IsNumber message.now.number × HasItemNumbers message.now.item) }
{
    append(out, &slot.to_le_bytes())?;
    write_message(out, message)
}

fn write_message(out: &mut Vec<u8>, message: &Message) -> Result<(), AllocError>
    ensures exact { OnOk result (out.new.items ≡ out.old.items ++ message_bytes message.now) }
    ensures numbers { OnOk result
        (IsNumber message.now.number × HasItemNumbers message.now.item) }
{
    append(out, &[message.sender.0])?;
    append(out, &message.number.to_le_bytes())?;
    write_item(out, &message.item)
}

fn write_item(out: &mut Vec<u8>, item: &Item) -> Result<(), AllocError>
    ensures exact { OnOk result (out.new.items ≡ out.old.items ++ item_bytes item.now) }
    ensures numbers { OnOk result (HasItemNumbers item.now) }
{
    match item {
        Item::Data(payload) => append(out, payload.as_slice()),
        Item::Propose { instance, value } => write_proposal(out, *instance, *value),
        Item::Close => Ok(()),
    }
}

fn write_proposal(out: &mut Vec<u8>, instance: u64, value: u64) -> Result<(), AllocError>
    ensures { OnOk result (out.new.items ≡ out.old.items ++ (number_bytes instance ++ number_bytes value)) }
{
    append(out, &instance.to_le_bytes())?;
    append(out, &value.to_le_bytes())
}

fn append(out: &mut Vec<u8>, more: &[u8]) -> Result<(), AllocError>
    ensures { OnOk result (out.new.items ≡ out.old.items ++ more.now) }
{
    out.extend_from_slice(more)
}
