//! The ring of places for the numbers from the next on.
ghost use Rattle.std.specs.Prelude.{◌≡◌, ◌+◌, ◌-◌, ◌<◌, ◌≤◌, ◌++◌, length, replicate, drop, None, Some, OnOk, OnErr, option_map, if◌then◌else◌, is_some, true};
ghost use Rattle.std.specs.VecDeque.{deque_capacity};
ghost use Rattle.std.specs.Option.{option_copied};
ghost use Rattle.cast_fifo.specs.HeldBack.{item_due};
ghost use Rattle.cast_fifo.specs.Windows.{due_front, front_item};

use crate::waiting::Waiting;
use cast_message::Item;
use std::alloc::AllocError;
use std::collections::VecDeque;

/// How many places the ring may have.
pub const REACH: u64 = 4096;

/// Adds empty places up to this one.
pub fn make_places(ring: &mut VecDeque<Option<Waiting>>, place: usize) -> Result<(), AllocError>
    requires { place < 4096 }
    ensures ok { OnOk result (ring.new.items
        ≡ ring.old.items ++ replicate (place + 1 - length ring.old.items) None) }
    ensures err { OnErr result (ring.new.items ≡ ring.old.items) }
    ensures room { deque_capacity ring.old ≤ deque_capacity ring.new }
{
    let more = (place + 1).saturating_sub(ring.len());
    ring.reserve(more)?;
    add_places(ring, more);
    Ok(())
}

/// Adds empty places.
pub fn add_places(ring: &mut VecDeque<Option<Waiting>>, more: usize)
    requires { length ring.old.items + more ≤ deque_capacity ring.old }
    ensures places { ring.new.items ≡ ring.old.items ++ replicate more None }
    ensures room { deque_capacity ring.new ≡ deque_capacity ring.old }
{
    for _place in 0..more {
        ring.push_back_reserved(None);
    }
}

/// Marks what waits at a place.
pub fn mark_place(place: &mut Option<Waiting>)
    ensures { place.new ≡ option_map (λ w. record { item = w.item; known = true }) place.old }
{
    if let Some(waiting) = place {
        waiting.known = true;
    }
}

/// The item of a place, if it is marked.
pub fn due(place: &Option<Waiting>) -> Option<&Item>
    ensures { option_copied result ≡ item_due place.now }
{
    match place {
        Some(waiting) if waiting.known => Some(&waiting.item),
        _ => None,
    }
}

/// Removes the first place if it is marked, and returns its item.
pub fn take_marked(ring: &mut VecDeque<Option<Waiting>>) -> Option<Item>
    ensures item { result ≡ due_front ring.old.items }
    ensures ring { ring.new.items
        ≡ (if is_some result then drop 1 ring.old.items else ring.old.items) }
    ensures room { deque_capacity ring.new ≡ deque_capacity ring.old }
{
    due(ring.front()?)?;
    let waiting = ring.pop_front()??;
    Some(waiting.item)
}

/// Removes the first place, and returns its item, or else this one.
pub fn take_front(ring: &mut VecDeque<Option<Waiting>>, item: Item) -> Item
    ensures item { result ≡ front_item ring.old.items item }
    ensures ring { ring.new.items ≡ drop 1 ring.old.items }
    ensures room { deque_capacity ring.new ≡ deque_capacity ring.old }
{
    match ring.pop_front() {
        Some(Some(waiting)) => waiting.item,
        _ => item,
    }
}
