//! The items of a stream.
ghost use Rattle.std.specs.Prelude.{◌≡◌, ◌++◌, ◌∷◌, [], ◌≤◌, length, slice_index, OnOk, MatchOption};
ghost use Rattle.cast_judge.specs.ItemList.{IsWordAt, word_between};

use cast_record::ItemWord;
use std::alloc::{AllocError, Global};
use std::marker::Model;

/// Items, each kept as the bytes of its word. Contracts see the list of items.
#[derive(Drop)]
pub struct Items {
    /// The words, one after another.
    bytes: Vec<u8>,
    /// Where each word ends.
    ends: Vec<usize>,
}

impl Model for Items {
    ghost use Rattle.std.specs.Prelude.{List};
    ghost use Rattle.cast_message.specs.declared.message.Item.{Item};

    ghost Value = { List Item };

    ghost use Rattle.cast_judge.specs.ItemList.{items_from, AreItems};

    ghost view = { λ items. items_from 0 items.ends.items items.bytes.items };

    ghost invariant = { λ items. AreItems 0 items.ends.items items.bytes.items };
}

impl Items {
    /// Creates an empty list without allocating.
    pub fn new(alloc: Global) -> Items
        ensures { result ≡ [] }
    {
        Items {
            bytes: Vec::new(alloc),
            ends: Vec::new(alloc),
        }
    }

    pub fn len(&self) -> usize
        ensures { result ≡ length self.now }
    {
        self.ends.len()
    }

    /// The word of the item at this place.
    pub fn word(&self, place: u64) -> Option<&[u8]>
        ensures { MatchOption result (length self.now ≤ place)
            (λ word. IsWordAt self.now place word.now) }
    {
        let place = place as usize;
        let ends = self.ends.as_slice();
        if place >= ends.len() {
            return None;
        }
        let start = start_of(ends, place);
        let end = ends[place];
        Some(part(self.bytes.as_slice(), start, end))
    }

    pub fn push(&mut self, item: &ItemWord<'_>) -> Result<(), AllocError>
        ensures { OnOk result (self.new ≡ self.old ++ item.now ∷ []) }
    {
        let word = item.as_slice();
        self.ends.reserve(1)?;
        self.bytes.extend_from_slice(word)?;
        let bytes = self.bytes.as_slice();
        let end = bytes.len();
        self.ends.push_reserved(end);
        Ok(())
    }
}

fn start_of(ends: &[usize], place: usize) -> usize
    requires { place ≤ length ends.now }
    ensures { result ≡ slice_index (0 ∷ ends.now) place }
{
    if place == 0 {
        return 0;
    }
    ends[place - 1]
}

fn part(bytes: &[u8], start: usize, end: usize) -> &[u8]
    requires order { start ≤ end }
    requires within { end ≤ length bytes.now }
    ensures { result.now ≡ word_between start end bytes.now }
{
    &bytes[start..end]
}
