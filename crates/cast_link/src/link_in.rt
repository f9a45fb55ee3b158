//! The slots taken from a peer: all below a base, bits from there on, and an ordered set of the slots farther away.
ghost use Rattle.std.specs.Prelude.{◌≡◌, ◌<◌, true, not, IfOk, OnOk, OnErr};
ghost use Rattle.std.specs.FinSet as set;
ghost use Rattle.cast_link.specs.Taken.{has_room};

use crate::bits::{bit_of, has_bit, set_bit};
use crate::window::{REACH, advance, make_bit};
use std::alloc::{AllocError, Global};
use std::collections::{BTreeSet, VecDeque};
use std::marker::Model;

/// The slots taken from a peer.
#[derive(Drop)]
pub struct LinkIn {
    // The least slot not taken, or the greatest slot there is.
    base: u64,
    // A bit for each slot, from the first slot of the base's word.
    words: VecDeque<u64>,
    // The slots taken beyond the bits.
    far: BTreeSet<u64>,
}

impl Model for LinkIn {
    ghost use Rattle.std.specs.VecDeque.{deque_capacity};
    ghost use Rattle.cast_link.specs.Taken.{Inward, inward_code, inward_of, IsWindow};

    ghost Value = { Inward };

    ghost coded = { inward_code };

    ghost view = { λ l. inward_of l.base l.words.items (deque_capacity l.words) l.far.keys };

    ghost invariant = { λ l. IsWindow l.base l.words.items l.far.keys };
}

impl LinkIn {
    /// A link with no slot taken. It allocates nothing.
    pub fn new(alloc: Global) -> LinkIn
        ensures { result.slots ≡ set.empty }
    {
        LinkIn {
            base: 0,
            words: VecDeque::new(alloc),
            far: BTreeSet::new(alloc),
        }
    }

    /// Makes room for a slot.
    #[inline(always)]
    pub fn reserve(&mut self, slot: u64) -> Result<(), AllocError>
        requires { slot < 262144 }
        ensures same { self.new.slots ≡ self.old.slots }
        ensures room { OnOk result (has_room self.new slot ≡ true) }
    {
        make_bit(self.base, &mut self.words, &self.far, slot)
    }

    /// Takes a slot for which there is room, and returns whether it is new. It allocates nothing.
    #[inline(always)]
    pub fn take_reserved(&mut self, slot: u64) -> bool
        requires { has_room self.old slot ≡ true }
        ensures first { result ≡ not (set.contains self.old.slots slot) }
        ensures after { self.new.slots ≡ set.insert self.old.slots slot }
    {
        if slot > self.base || slot == u64::MAX {
            if self.may_ack(slot) {
                return false;
            }
            set_bit(&mut self.words, bit_of(self.base, slot));
            return true;
        }
        if slot < self.base {
            return false;
        }
        advance(&mut self.base, &mut self.words, &mut self.far);
        true
    }

    /// Takes a slot, and returns whether it is new.
    pub fn take(&mut self, slot: u64) -> Result<bool, AllocError>
        ensures test { IfOk result (λ first. first ≡ not (set.contains self.old.slots slot)) }
        ensures ok { OnOk result (self.new.slots ≡ set.insert self.old.slots slot) }
        ensures err { OnErr result (self.new.slots ≡ self.old.slots) }
    {
        if slot.saturating_sub(self.base) < REACH {
            make_bit(self.base, &mut self.words, &self.far, slot)?;
            return Ok(self.take_reserved(slot));
        }
        let first = !self.may_ack(slot);
        self.far.insert(slot)?;
        Ok(first)
    }

    /// Whether the slot was taken, so that it may be acknowledged. It allocates nothing.
    #[inline(always)]
    pub fn may_ack(&self, slot: u64) -> bool
        ensures { result ≡ set.contains self.now.slots slot }
    {
        if slot < self.base {
            return true;
        }
        has_bit(&self.words, bit_of(self.base, slot)) || self.far.contains(&slot)
    }
}
