//! Frames on their way. A node makes one, and its mark is appended to those that the node made; and one arrives. There is room for a
//! mark before its node takes the step, so a refusal changes neither.
ghost use Rattle.std.specs.Prelude.{◌≡◌, ℕ, ◌==◌, true, false, not, ◌&&◌, IsTrue, IsFalse, List, ◌++◌, ◌∷◌, [], IfOk, OnOk, OnErr, map};
ghost use Rattle.cast_message.specs.declared.config.Config.{Config as Settings};
ghost use Rattle.cast_model.specs.Steps.{Arrived, making};
ghost use Rattle.cast_model.specs.Replies.{IsRefused};
ghost use Rattle.cast_node.specs.Kept.{Kept, holds};
ghost use Rattle.cast_node.specs.Calls.{number_reply, silent_reply};
ghost use Rattle.cast_node.specs.Turns.{Gives, frame_made};
ghost use Rattle.cast_world.specs.Group.{item_in, body_in, frame_in, mark_of};
ghost use Rattle.cast_world.specs.Moves.{FindsMark};

use cast_message::{Answer, Frame, FrameBody, FrameKind, Item, Message, NodeId, Reply, StepFault};
use cast_node::{Node, Numbers};
use std::alloc::AllocError;

/// The sender in an acknowledgement's mark; no node has this number.
pub const NOBODY: u8 = 255;

/// The greatest slot of a mark. No link gives as many.
pub const LAST_SLOT: u64 = 0xffff_ffff;

/// What is kept of a frame. Its place says its maker and its number, and its message's item is in the stream of the sender.
#[derive(Clone, Copy)]
pub struct Mark {
    pub slot: u32,
    pub number: u16,
    pub to: NodeId,
    /// The message's sender, or `NOBODY` for an acknowledgement.
    pub sender: NodeId,
}

/// Makes a frame for a slot, and returns its number.
#[inline(always)]
pub fn make(
    node: &mut Node,
    made: &mut Vec<Mark>,
    kind: FrameKind,
    to: NodeId,
    slot: u64,
) -> Result<u64, StepFault>
    ensures gives { Gives node.old (making kind to slot) (number_reply result) node.new }
    ensures made { OnOk result (made.new.items
        ≡ made.old.items ++ mark_of (frame_made kind node.old to slot) ∷ []) }
    ensures same { OnErr result (made.new.items ≡ made.old.items) }
{
    if slot > LAST_SLOT || made.reserve(1).is_err() {
        return Err(or_memory(match kind {
            FrameKind::Carry => node.send_fault(to, slot),
            FrameKind::Took => node.ack_fault(to, slot),
        }));
    }
    let sent = match kind {
        FrameKind::Carry => node.send_numbers(to, slot)?,
        FrameKind::Took => Numbers {
            seq: node.ack_number(to, slot)?,
            sender: NodeId(NOBODY),
            number: 0,
        },
    };
    made.push_reserved(Mark {
        slot: slot as u32,
        number: sent.number as u16,
        to,
        sender: sent.sender,
    });
    Ok(sent.seq)
}

/// The mark of a node's frame with this number, or why there is none.
pub fn find(marks: &Vec<Vec<Mark>>, from: NodeId, seq: u64) -> Result<Mark, StepFault>
    ensures { FindsMark (map (λ row. row.items) marks.now.items) from seq result }
{
    let row = marks.get(usize::from(from.0)).ok_or(StepFault::NoNode)?;
    let mark = row.get(seq as usize).ok_or(StepFault::NoFrame)?;
    Ok(*mark)
}

/// The frame of a mark, given its maker and its number.
pub fn rebuild(nodes: &Vec<Node>, from: NodeId, seq: u64, mark: Mark) -> Result<Frame, AllocError>
    ensures { (config : Settings) →
        IfOk result (λ frame. frame ≡ frame_in config nodes.now.items from seq mark) }
{
    let to = mark.to;
    let body = body_of(nodes, mark)?;
    Ok(Frame {
        from,
        seq,
        to,
        body,
    })
}

// The body of a marked frame, with the item from the stream of the message's sender.
fn body_of(nodes: &Vec<Node>, mark: Mark) -> Result<FrameBody, AllocError>
    ensures { (config : Settings) →
        IfOk result (λ body. body ≡ body_in config nodes.now.items mark) }
{
    let slot = u64::from(mark.slot);
    if mark.sender.0 == NOBODY {
        return Ok(FrameBody::Took { slot });
    }
    let number = u64::from(mark.number);
    let item = item_of(nodes, mark.sender, number)?;
    Ok(FrameBody::Carry {
        slot,
        message: Message {
            sender: mark.sender,
            number,
            item,
        },
    })
}

// The item with this number in a node's stream.
fn item_of(nodes: &Vec<Node>, sender: NodeId, number: u64) -> Result<Item, AllocError>
    ensures { (config : Settings) →
        IfOk result (λ item. item ≡ item_in config nodes.now.items sender number) }
{
    let Some(node) = nodes.get(usize::from(sender.0)) else {
        return Ok(Item::Close);
    };
    let Some(item) = node.stream().get(number as usize) else {
        return Ok(Item::Close);
    };
    item.copy()
}

/// The frame of a mark arrives at its target, if nothing is delivered or decided by it. Says whether it did; else nothing changed.
pub fn arrive_silently(node: &mut Node, from: NodeId, mark: &Mark) -> bool
    requires { mark.now.to ≡ node.old.me }
    ensures took { (config : Settings) (nodes : List Kept) (seq : ℕ) → IsTrue result →
        Gives node.old (Arrived (frame_in config nodes from seq mark.now))
        (silent_reply mark.now.to) node.new }
    ensures not { IsFalse result → node.new ≡ node.old }
{
    let slot = u64::from(mark.slot);
    if is_acknowledgement(mark) {
        return node.arrive_took_silently(from, slot);
    }
    if carries_held(node, mark) {
        return node.arrive_again_silently(from, slot, mark.sender, u64::from(mark.number));
    }
    false
}

pub fn is_acknowledgement(mark: &Mark) -> bool
    ensures { result ≡ (mark.now.sender == 255) }
{
    mark.sender.0 == NOBODY
}

pub fn arrive(node: &mut Node, frame: &Frame) -> Reply
    requires { frame.now.to ≡ node.old.me }
    ensures { Gives node.old (Arrived frame.now) result node.new }
{
    let outcome = node.arrive(frame)?;
    Ok(Answer::Arrived {
        node: frame.to,
        outcome,
    })
}

// Whether the frame of a mark carries a message that a node holds.
fn carries_held(node: &Node, mark: &Mark) -> bool
    ensures { result ≡ (not (mark.now.sender == 255)
        && holds node.now mark.now.sender mark.now.number) }
{
    !is_acknowledgement(mark) && node.holds(mark.sender, u64::from(mark.number))
}

// Why a step is refused that is out of memory.
fn or_memory(fault: Option<StepFault>) -> StepFault
    ensures { IsRefused fault result }
{
    fault.unwrap_or(StepFault::Memory)
}
