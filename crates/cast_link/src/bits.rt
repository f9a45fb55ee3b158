//! Bits in words, one for each slot of a link from the word of its base on: set for those that were taken, or acknowledged.
ghost use Rattle.std.specs.Prelude.{◌≡◌, ◌+◌, ◌-◌, ◌≤◌, ◌<◌, ◌/◌, ◌%◌, ℕ, ◌^◌, true, false, drop, length, slice_index, OnOk};
ghost use Rattle.std.specs.VecDeque.{deque_capacity};
ghost use Rattle.cast_message.specs.Bits.{is_set};
ghost use Rattle.cast_link.specs.Taken.{bit_of, SetsBit, IsFullWord};

use std::alloc::AllocError;
use std::collections::VecDeque;

/// The place of a slot among the bits, which begin with the base's word.
pub fn bit_of(base: u64, slot: u64) -> u64
    ensures { result ≡ bit_of base slot }
{
    slot.saturating_sub(base / 64 * 64)
}

#[inline(always)]
pub fn has_bit(words: &VecDeque<u64>, bit: u64) -> bool
    ensures { result ≡ is_set words.now.items bit }
{
    match words.get((bit / 64) as usize) {
        Some(word) => *word >> (bit % 64) & 1 == 1,
        None => false,
    }
}

/// How many bits its word has from this one on, if all of the word's bits are set; else none.
pub fn full_word(words: &VecDeque<u64>, bit: u64) -> u64
    ensures set { (k : ℕ) → k < result → is_set words.now.items (bit + k) ≡ true }
    ensures full { IsFullWord words.now.items (bit / 64) → result ≡ 64 - bit % 64 }
    ensures none { ¬ IsFullWord words.now.items (bit / 64) → result ≡ 0 }
{
    match words.get((bit / 64) as usize) {
        Some(&word) if has_all_bits(word) => 64 - bit % 64,
        _ => 0,
    }
}

fn has_all_bits(word: u64) -> bool
    ensures all { result ≡ true → word ≡ 2 ^ 64 - 1 }
    ensures not_all { result ≡ false → word < 2 ^ 64 - 1 }
{
    word == u64::MAX
}

/// Adds words with no bit set up to that of a bit.
#[inline(always)]
pub fn make_room(words: &mut VecDeque<u64>, bit: u64) -> Result<(), AllocError>
    ensures ok { OnOk result (bit / 64 < length words.new.items) }
    ensures more { length words.old.items ≤ length words.new.items }
    ensures few { (n : ℕ) → length words.old.items ≤ n → bit / 64 < n → length words.new.items ≤ n }
    ensures same { (k : ℕ) → slice_index words.new.items k ≡ slice_index words.old.items k }
{
    let place = (bit / 64) as usize;
    if words.len() <= place {
        words.resize(place + 1, 0)?;
    }
    Ok(())
}

pub fn set_bit(words: &mut VecDeque<u64>, bit: u64)
    requires { bit / 64 < length words.old.items }
    ensures len { length words.new.items ≡ length words.old.items }
    ensures room { deque_capacity words.new ≡ deque_capacity words.old }
    ensures bits { SetsBit words.old.items bit words.new.items }
{
    words[(bit / 64) as usize] |= 1 << (bit % 64);
}

#[inline(always)]
pub fn drop_front(words: &mut VecDeque<u64>, count: u64)
    ensures words { words.new.items ≡ drop count words.old.items }
    ensures room { deque_capacity words.new ≡ deque_capacity words.old }
{
    for _word in 0..count {
        words.pop_front();
    }
}
