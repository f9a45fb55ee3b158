//! The slots taken from a peer as a window: a base, bits for the slots within its reach, and a set of those farther away. As the
//! base moves on, slots move from the set to the bits.
ghost use Rattle.std.specs.Prelude.{◌≡◌, ◌+◌, ◌≤◌, ◌<◌, ◌∷◌, ◌||◌, ℕ, ◌^◌, IsTrue, true, false, nat_eq, length, slice_index, OnOk};
ghost use Rattle.std.specs.List.{All};
ghost use Rattle.std.specs.FinSet as set;
ghost use Rattle.std.specs.VecDeque.{deque_capacity};
ghost use Rattle.cast_message.specs.Bits.{is_set};
ghost use Rattle.cast_link.specs.Taken.{bit_of, is_marked, MarksTheSame, taken_set, inward_of, has_room, IsWindow};

use crate::bits::{bit_of, drop_front, has_bit, make_room, set_bit};
use std::alloc::AllocError;
use std::collections::{BTreeSet, VecDeque};

/// The number of slots from the base on that have bits.
pub const REACH: u64 = 262_144;

// Words for as many bits, wherever in its word the base is.
const WORDS: usize = 4097;

/// Makes a bit for a slot within reach, and room for those that far slots get when the base moves on.
#[inline(always)]
pub fn make_bit(
    base: u64,
    words: &mut VecDeque<u64>,
    far: &BTreeSet<u64>,
    slot: u64,
) -> Result<(), AllocError>
    requires reach { slot < base + 262144 }
    requires window { IsWindow base words.old.items far.now.keys }
    ensures window { IsWindow base words.new.items far.now.keys }
    ensures same { taken_set base words.new.items far.now.keys
        ≡ taken_set base words.old.items far.now.keys }
    ensures room { OnOk result
        (has_room (inward_of base words.new.items (deque_capacity words.new) far.now.keys) slot ≡ true) }
{
    make_room(words, bit_of(base, slot))?;
    if far.is_empty() {
        return Ok(());
    }
    words.reserve(WORDS - words.len())
}

/// Takes the base. The next slot that was not taken becomes the base, and what comes within reach gets a bit. It takes no memory.
#[inline(always)]
pub fn advance(base: &mut u64, words: &mut VecDeque<u64>, far: &mut BTreeSet<u64>)
    requires more { base.old + 1 < 2 ^ 64 }
    requires window { IsWindow base.old words.old.items far.old.keys }
    requires room { 0 < length far.old.keys → 4097 ≤ deque_capacity words.old }
    ensures window { IsWindow base.new words.new.items far.new.keys }
    ensures after { taken_set base.new words.new.items far.new.keys
        ≡ set.insert (taken_set base.old words.old.items far.old.keys) base.old }
{
    let next = first_free(*base, words, far, *base + 1);
    drop_front(words, next / 64 - *base / 64);
    *base = next;
    gather(next, words, far);
}

// The first slot from one on that has no bit and is not far, or the greatest slot there is.
#[inline(always)]
fn first_free(base: u64, words: &VecDeque<u64>, far: &BTreeSet<u64>, from: u64) -> u64
    ensures least { from ≤ result }
    ensures taken { (slot : ℕ) → from ≤ slot → slot < result →
        IsTrue (is_marked base words.now.items far.now.keys slot) }
    ensures free { result + 1 < 2 ^ 64 →
        is_marked base words.now.items far.now.keys result ≡ false }
{
    for slot in from..u64::MAX {
        if !has_bit(words, bit_of(base, slot)) && !far.contains(&slot) {
            return slot;
        }
    }
    u64::MAX
}

// Gives bits to the far slots within reach of a base.
#[inline(always)]
fn gather(base: u64, words: &mut VecDeque<u64>, far: &mut BTreeSet<u64>)
    requires short { length words.old.items ≤ 4097 }
    requires room { 0 < length far.old.keys → 4097 ≤ deque_capacity words.old }
    ensures short { length words.new.items ≤ 4097 }
    ensures same { MarksTheSame base words.old.items far.old.keys words.new.items far.new.keys }
    ensures beyond { All (λ slot. base + 262144 ≤ slot) far.new.keys }
{
    while let Some(first) = far.first() {
        if first.saturating_sub(base) >= REACH {
            break;
        }
        let slot = take_first(far);
        give_bit(base, words, slot);
    }
}

// Takes the first slot out.
fn take_first(far: &mut BTreeSet<u64>) -> u64
    requires { 0 < length far.old.keys }
    ensures { far.old.keys ≡ result ∷ far.new.keys }
{
    match far.pop_first() {
        Some(slot) => slot,
        None => unreachable!(),
    }
}

// Gives a bit to a slot, unless it is below the base.
fn give_bit(base: u64, words: &mut VecDeque<u64>, slot: u64)
    requires reach { slot < base + 262144 }
    requires short { length words.old.items ≤ 4097 }
    requires room { 4097 ≤ deque_capacity words.old }
    ensures short { length words.new.items ≤ 4097 }
    ensures room { deque_capacity words.new ≡ deque_capacity words.old }
    ensures bits { (other : ℕ) → base ≤ other → is_set words.new.items (bit_of base other)
        ≡ (nat_eq other slot || is_set words.old.items (bit_of base other)) }
{
    if slot < base {
        return;
    }
    let bit = bit_of(base, slot);
    add_words(words, (bit / 64) as usize);
    set_bit(words, bit);
}

// Adds words with no bit set up to a place.
fn add_words(words: &mut VecDeque<u64>, place: usize)
    requires place { place < 4097 }
    requires short { length words.old.items ≤ 4097 }
    requires room { 4097 ≤ deque_capacity words.old }
    ensures ok { place < length words.new.items }
    ensures short { length words.new.items ≤ 4097 }
    ensures room { deque_capacity words.new ≡ deque_capacity words.old }
    ensures same { (k : ℕ) → slice_index words.new.items k ≡ slice_index words.old.items k }
{
    for _word in words.len()..place + 1 {
        words.push_back_reserved(0);
    }
}
