//! The ordered map of the numbers beyond the ring.
ghost use Rattle.std.specs.Prelude.{◌≡◌, ◌<◌, ◌∷◌, length};
ghost use Rattle.std.specs.List.{All};
ghost use Rattle.std.specs.Map.{keys_of};
ghost use Rattle.cast_fifo.specs.HeldBack.{waiting_at, marked};

use crate::waiting::Waiting;
use std::collections::BTreeMap;

/// Marks what waits at a number.
pub fn mark_far(far: &mut BTreeMap<u64, Waiting>, number: u64)
    ensures { far.new.entries ≡ marked far.old.entries number (waiting_at far.old.entries number) }
{
    if let Some(waiting) = far.get_mut(&number) {
        waiting.known = true;
    }
}

/// Removes and returns the first entry.
pub fn take_first(far: &mut BTreeMap<u64, Waiting>) -> (u64, Waiting)
    requires { 0 < length far.old.entries }
    ensures first { far.old.entries ≡ result ∷ far.new.entries }
    ensures above { All (λ number. result.0 < number) (keys_of far.new.entries) }
{
    match far.pop_first() {
        Some(entry) => entry,
        None => unreachable!(),
    }
}
