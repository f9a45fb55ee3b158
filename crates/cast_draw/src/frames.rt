//! The frames that were made, and what became of them.
ghost use Rattle.std.specs.Prelude.{◌≡◌, ◌<◌, ◌≤◌, ◌^◌, ◌++◌, ◌∷◌, [], OnOk, length, slice_get};
ghost use Rattle.cast_draw.specs.MadeFrames.{fate_after, with_arrival};

use crate::links::Pair;
use cast_message::NodeId;
use std::alloc::{AllocError, Global};
use std::marker::Model;

/// What a frame carries.
#[derive(Clone, Copy, PartialEq, Eq)]
pub enum Cargo {
    /// This message.
    Message(Pair),
    /// The acknowledgement of its slot.
    Ack,
}

/// What became of a frame.
#[derive(Clone, Copy, PartialEq, Eq)]
pub enum Fate {
    /// It has not arrived.
    UnderWay,
    /// It arrived, but no arrival of it is shown.
    ArrivedUnseen,
    /// An arrival of it is shown.
    Shown,
}

/// Where a column is, in points from the left. Contracts see the number.
#[derive(Clone, Copy)]
pub struct Column {
    x: u64,
}

impl Model for Column {
    ghost use Rattle.std.specs.Prelude.{ℕ, ◌<◌, ◌≤◌, ◌^◌};

    ghost Value = { ℕ };

    ghost view = { λ column. column.x };

    ghost invariant = { λ column. (76 ≤ column.x) × (column.x < 2 ^ 41) };

    ghost inverse = { λ x. record { x = x } };
}

impl Column {
    pub fn at(x: u64) -> Column
        requires left { 76 ≤ x }
        requires right { x < 2 ^ 41 }
        ensures { result ≡ x }
    {
        Column { x }
    }

    pub fn x(self) -> u64
        ensures value { result ≡ self }
        ensures left { 76 ≤ result }
        ensures right { result < 2 ^ 41 }
    {
        self.x
    }
}

/// A frame that was made.
#[derive(Clone, Copy)]
pub struct MadeFrame {
    /// The node that made it.
    pub from: NodeId,
    /// Its number among the frames of that node.
    pub seq: u64,
    /// The node to which it goes.
    pub to: NodeId,
    pub slot: u64,
    pub cargo: Cargo,
    /// The place in the script of the event that made it.
    pub index: u64,
    /// The number of that event's column, if it is shown.
    pub column: u64,
    /// Whether that event is shown.
    pub is_shown: bool,
    pub fate: Fate,
}

/// The frames that a node made. Contracts see them in order.
#[derive(Drop)]
pub struct MadeFrames {
    frames: Vec<MadeFrame>,
}

impl Model for MadeFrames {
    ghost use Rattle.std.specs.Prelude.{List};
    ghost use Rattle.cast_draw.specs.declared.frames.MadeFrame.{MadeFrame};

    ghost Value = { List MadeFrame };

    ghost view = { λ made. made.frames.items };
}

impl MadeFrames {
    /// No frames. It allocates nothing.
    pub fn new(alloc: Global) -> MadeFrames
        ensures { result ≡ [] }
    {
        MadeFrames {
            frames: Vec::new(alloc),
        }
    }

    pub fn as_slice(&self) -> &[MadeFrame]
        ensures { result.now ≡ self.now }
    {
        self.frames.as_slice()
    }

    pub fn count(&self) -> u64
        ensures { result ≡ length self.now }
    {
        self.frames.len() as u64
    }

    /// Appends a frame.
    pub fn push(&mut self, frame: &MadeFrame) -> Result<(), AllocError>
        ensures { OnOk result (self.new ≡ self.old ++ frame.now ∷ []) }
    {
        // The prover finds no proof of `push(*frame)`, which copies the whole record.
        let cargo: Cargo = frame.cargo;
        self.frames.push(MadeFrame { cargo, ..*frame })?;
        Ok(())
    }

    /// Notes that the frame with this number arrived, by an event that is shown or not, and returns the frame as it was.
    pub fn arrive(&mut self, seq: u64, is_shown: bool) -> Option<MadeFrame>
        ensures frame { result ≡ slice_get self.old seq }
        ensures after { self.new ≡ with_arrival self.old seq is_shown }
    {
        let Some(frame) = self.frames.get_mut(seq as usize) else {
            return None;
        };
        let found = *frame;
        frame.fate = fate_after(found.fate, is_shown);
        Some(found)
    }
}

fn fate_after(fate: Fate, is_shown: bool) -> Fate
    ensures { result ≡ fate_after fate is_shown }
{
    match (fate, is_shown) {
        (_, true) => Fate::Shown,
        (Fate::UnderWay, false) => Fate::ArrivedUnseen,
        (other, false) => other,
    }
}
