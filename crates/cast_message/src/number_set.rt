//! A set of numbers: bits for the small ones, added as needed, and an ordered set for the others.
ghost use Rattle.std.specs.Prelude.{◌≡◌, ◌<◌, ◌≤◌, ℕ, length, slice_index, false, not, IfOk, OnOk, OnErr};
ghost use Rattle.std.specs.FinSet as set;

use std::alloc::{AllocError, Global};
use std::collections::BTreeSet;
use std::marker::Model;

// Numbers below this have bits: as many as a stream may have items. Their words are allocated as needed.
const BITS: u64 = 4096;

/// A set of numbers.
#[derive(Drop)]
pub struct NumberSet {
    // The bit of number i is bit i % 64 of word i / 64.
    words: Vec<u64>,
    // The numbers without a bit.
    far: BTreeSet<u64>,
}

impl Model for NumberSet {
    ghost use Rattle.std.specs.Prelude.{◌≡◌, ◌≤◌, length};
    ghost use Rattle.std.specs.List.{All};
    ghost use Rattle.std.specs.Ordering.{nat_cmp};
    ghost use Rattle.std.specs.FinSet as set;
    ghost use Rattle.std.specs.Coded.{coded_ℕ};

    ghost Value = { set.FinSet nat_cmp };

    ghost coded = { set.code coded_ℕ };

    ghost use Rattle.cast_message.specs.Numbers.{number_set};

    ghost view = { λ s. number_set s.words.items s.far.keys };

    ghost invariant = { λ s. (length s.words.items ≤ 64)
        × All (λ number. 4096 ≤ number) s.far.keys };
}

impl NumberSet {
    /// The empty set. It allocates nothing.
    pub fn new(alloc: Global) -> NumberSet
        ensures { result ≡ set.empty }
    {
        NumberSet {
            words: Vec::new(alloc),
            far: BTreeSet::new(alloc),
        }
    }

    /// Whether a number is in the set.
    pub fn contains(&self, number: u64) -> bool
        ensures { result ≡ set.contains self.now number }
    {
        if number >= BITS {
            return self.far.contains(&number);
        }
        match self.words.get((number / 64) as usize) {
            Some(word) => *word >> (number % 64) & 1 == 1,
            None => false,
        }
    }

    /// Adds a number, and returns whether it is new. A number in the set allocates nothing.
    pub fn insert(&mut self, number: u64) -> Result<bool, AllocError>
        ensures test { IfOk result (λ added. added ≡ not (set.contains self.old number)) }
        ensures ok { OnOk result (self.new ≡ set.insert self.old number) }
        ensures err { OnErr result (self.new ≡ self.old) }
        ensures again { OnErr result (set.contains self.old number ≡ false) }
    {
        if self.contains(number) {
            return Ok(false);
        }
        if number >= BITS {
            self.far.insert(number)?;
            return Ok(true);
        }
        let place = (number / 64) as usize;
        make_room(&mut self.words, place)?;
        self.words[place] |= 1 << (number % 64);
        Ok(true)
    }

    /// Removes a number, and returns whether it was in the set. It allocates nothing.
    pub fn remove(&mut self, number: u64) -> bool
        ensures test { result ≡ set.contains self.old number }
        ensures members { self.new ≡ set.remove self.old number }
    {
        if !self.contains(number) {
            return false;
        }
        if number >= BITS {
            self.far.remove(&number);
            return true;
        }
        self.words[(number / 64) as usize] &= !(1 << (number % 64));
        true
    }
}

// Adds words up to a place, with no bit set.
fn make_room(words: &mut Vec<u64>, place: usize) -> Result<(), AllocError>
    requires { place < 64 }
    ensures ok { OnOk result (place < length words.new.items) }
    ensures few { length words.old.items ≤ 64 → length words.new.items ≤ 64 }
    ensures same { (k : ℕ) → slice_index words.new.items k ≡ slice_index words.old.items k }
{
    if words.len() <= place {
        words.resize(place + 1, 0)?;
    }
    Ok(())
}
