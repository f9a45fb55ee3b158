//! What a picture keeps of each node: what it holds and gives, the frames that it made, and where its line ends.
ghost use Rattle.std.specs.Prelude.{◌≡◌, ◌++◌, ◌∷◌, [], ◌≤◌, Some, None, IfOk, OnOk, OnErr, true, length, map, replicate, slice_get, slice_index_or, slice_set};
ghost use Rattle.std.specs.List.{range_with_len};
ghost use Rattle.cast_draw.specs.Gifts.{nothing_given, slot_of};
ghost use Rattle.cast_draw.specs.MadeFrames.{with_arrival};
ghost use Rattle.cast_draw.specs.Drawn.{gifts_at, held_of_cargo, is_new, made_at};

use crate::frames::{Cargo, MadeFrame, MadeFrames};
use crate::links::{Links, Pair};
use cast_message::NodeId;
use std::alloc::{AllocError, Global};

/// As many nodes as given, which hold nothing.
pub fn new_links(alloc: Global, nodes: u64) -> Result<Vec<Links>, AllocError>
    requires { nodes ≤ 64 }
    ensures { IfOk result (λ links. links.items
        ≡ map (nothing_given nodes) (range_with_len 0 nodes)) }
{
    let mut links = Vec::new(alloc);
    for node in 0..nodes as u8 {
        links.push(Links::new(alloc, NodeId(node), nodes)?)?;
    }
    Ok(links)
}

/// As many nodes as given, which made no frames.
pub fn new_made(alloc: Global, nodes: u64) -> Result<Vec<MadeFrames>, AllocError>
    ensures { IfOk result (λ made. made.items ≡ replicate nodes []) }
{
    let mut made = Vec::new(alloc);
    for _node in 0..nodes {
        made.push(MadeFrames::new(alloc))?;
    }
    Ok(made)
}

/// Notes that a node holds a message that came from another. Only a new message takes memory. What is no node holds nothing.
pub fn hold(
    links: &mut Vec<Links>,
    node: NodeId,
    cargo: Cargo,
    source: NodeId,
) -> Result<(), AllocError>
    ensures ok { OnOk result (links.new.items ≡ held_of_cargo links.old.items node cargo source) }
    ensures err { OnErr result (is_new (gifts_at links.old.items node) cargo ≡ true) }
{
    let Cargo::Message(pair) = cargo else {
        return Ok(());
    };
    let place = usize::from(node.0);
    if place >= links.len() {
        return Ok(());
    }
    links[place].hold(pair, source)
}

/// The message in a slot of what a node gives another.
pub fn given(links: &[Links], from: NodeId, to: NodeId, slot: u64) -> Option<Pair>
    ensures { result ≡ slot_of (gifts_at links.now from) to slot }
{
    let place = usize::from(from.0);
    if place >= links.len() {
        return None;
    }
    links[place].given(to, slot)
}

/// How many frames a node made.
pub fn count(made: &[MadeFrames], node: NodeId) -> u64
    ensures { result ≡ length (made_at made.now node) }
{
    let place = usize::from(node.0);
    if place >= made.len() {
        return 0;
    }
    made[place].count()
}

/// Adds a frame to those of its maker.
pub fn add_frame(made: &mut Vec<MadeFrames>, frame: &MadeFrame) -> Result<(), AllocError>
    ensures { OnOk result (made.new.items ≡ slice_set made.old.items frame.now.from
        (made_at made.old.items frame.now.from ++ frame.now ∷ [])) }
{
    let place = usize::from(frame.from.0);
    if place >= made.len() {
        return Ok(());
    }
    made[place].push(frame)
}

/// Notes that a node's frame arrived, by an event that is shown or not, and returns the frame as it was.
pub fn arrive(
    made: &mut Vec<MadeFrames>,
    from: NodeId,
    seq: u64,
    is_shown: bool,
) -> Option<MadeFrame>
    ensures frame { result ≡ slice_get (made_at made.old.items from) seq }
    ensures after { made.new.items ≡ slice_set made.old.items from
        (with_arrival (made_at made.old.items from) seq is_shown) }
{
    let place = usize::from(from.0);
    if place >= made.len() {
        return None;
    }
    made[place].arrive(seq, is_shown)
}

/// Ends the line of a node at this column.
pub fn end_line(crashes: &mut Vec<Option<u64>>, node: NodeId, x: u64)
    ensures { crashes.new.items ≡ slice_set crashes.old.items node (Some x) }
{
    let place = usize::from(node.0);
    if place < crashes.len() {
        crashes[place] = Some(x);
    }
}

/// Where the line of a node ends, if the node crashed.
pub fn crash_of(crashes: &[Option<u64>], node: NodeId) -> Option<u64>
    ensures { result ≡ slice_index_or crashes.now node None }
{
    let place = usize::from(node.0);
    if place >= crashes.len() {
        return None;
    }
    crashes[place]
}
