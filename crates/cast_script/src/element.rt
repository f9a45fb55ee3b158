//! Elements of a script's lists, and how one or a list of them is read.
ghost use Rattle.std.specs.Prelude.{◌≡◌, ◌+◌, ◌<◌, ◌^◌, length, map, option_map, Option, OnErr};
ghost use Rattle.serde_json.specs.Data.{Data};
ghost use Rattle.serde_json.specs.View.{view};
ghost use Rattle.cast_script.specs.declared.element.Unread.TheVariants.{Memory};
ghost use Rattle.cast_script.specs.Element.{node_of, places_of};
ghost use Rattle.cast_script.specs.Unread.{Gives};
ghost use Rattle.cast_script.specs.Faults.{Answers, elements_from};

use crate::script::ScriptFault;
use cast_message::{List, NodeId};
use serde_json::Value;
use std::alloc::{AllocError, AllocFailed, Global};

/// Why an element wasn't read.
#[derive(Clone, Copy, PartialEq, Eq)]
pub enum Unread {
    /// It has the wrong form.
    Shape,
    Memory,
}

/// A slot that a node gives another.
#[derive(Clone, Copy)]
pub struct LinkSlot {
    pub from: NodeId,
    pub to: NodeId,
    pub slot: u64,
}

impl From<AllocError> for Unread {
    ghost from_gives = { λ _ unread. unread ≡ Memory };

    fn from(_refused: AllocError) -> Unread {
        Unread::Memory
    }
}

impl<T: Drop> From<AllocFailed<T>> for Unread {
    ghost from_gives = { λ _ unread. unread ≡ Memory };

    fn from(_refused: AllocFailed<T>) -> Unread {
        Unread::Memory
    }
}

/// An element of a script's list.
pub trait Element: Sized {
    ghost element: { Data → Option Self };

    fn read(alloc: Global, value: &Value) -> Result<Self, Unread>
        ensures { Gives result (element (view value.now)) };
}

/// The elements that the values are. A fault names a bad value by its place, counted from `first`.
pub fn read_elements<E: Element + Drop>(
    alloc: Global,
    first: u64,
    values: &[Value],
) -> Result<List<E>, ScriptFault>
    requires { first + length values.now < 2 ^ 64 }
    ensures elements { Answers result (elements_from E.element first (map view values.now)) }
    ensures err { OnErr result (0 < length values.now) }
{
    let mut elements = List::new(alloc);
    for (i, value) in values.iter().enumerate() {
        match E::read(alloc, value) {
            Ok(element) => elements.push(element).map_err(|_| ScriptFault::Memory)?,
            Err(Unread::Shape) => {
                return Err(ScriptFault::Shape {
                    index: first + i as u64,
                });
            }
            Err(Unread::Memory) => return Err(ScriptFault::Memory),
        }
    }
    Ok(elements)
}

/// The places of an array.
#[tactic(auto, using(crate::proofs::PlaceLemmas::places_items))]
pub fn places(value: &Value) -> Option<&[Value]>
    ensures { option_map (λ s. map view s.now) result ≡ places_of (view value.now) }
{
    let list = value.as_array()?;
    Some(list.as_slice())
}

/// The number of a node, 0 to 255.
pub fn node(value: &Value) -> Option<NodeId>
    ensures { result ≡ node_of (view value.now) }
{
    NodeId::from_number(value.as_u64()?)
}
