//! A box whose ends are all in one thread again.
ghost use Rattle.std.specs.Prelude.{◌≡◌, ◌≤◌, ◌∷◌, [], map, length, MatchOption};
ghost use Rattle.cast_box.specs.Lists.{IsFair};
ghost use Rattle.cast_box.specs.Ends.{AreAllEnds};

use crate::ends::{Putter, Taker};
use crate::rule::{BoxPass, BoxQueue, Empty};
use std::alloc::Global;
use std::marker::Model;
use std::sync::{Arc, Wait};

/// What is left in a box that has ended. Contracts see what was put, by putter, and what was taken and what is left,
/// with the putters' numbers.
#[derive(Drop)]
pub struct Gathered<T> {
    pub(crate) queue: Arc<BoxQueue<T>, Global>,
    pub(crate) pass: BoxPass<T>,
    // The item that is handed out next. It left the queue when the box ended, since only a take shows what the queue
    // holds.
    pub(crate) next: Option<(u64, T)>,
}

impl<T> Model for Gathered<T> {
    ghost use Rattle.std.specs.Prelude.{◌≡◌, OnSome};
    ghost use Rattle.std.specs.Arc.{arc_value};
    ghost use Rattle.crossbeam_queue.specs.Passes.{view as known, IsPassOf};
    ghost use Rattle.cast_box.specs.Ends.{GatheredBox, left_from};
    ghost use Rattle.cast_box.specs.declared.rule.Role.TheVariants.{Gathering};

    ghost Value = { GatheredBox T };

    ghost view = { λ g. record {
      put = (known g.pass).ended;
      taken = (known g.pass).taken;
      left = left_from g.next (known g.pass).left;
    } };

    ghost invariant = { λ g. IsPassOf (arc_value g.queue) g.pass
        × OnSome g.next ((known g.pass).role ≡ Gathering) };
}

/// Ends a box. `putters` are all of its putters, by number. What was taken, followed by what is left, has each putter's
/// items in the order it put them, and no others. No more is left than the box has places. It allocates nothing.
pub fn gather<T: Drop, R: Wait>(rt: &R, putters: Vec<Putter<T>>, mut taker: Taker<T>) -> Gathered<T>
    requires { AreAllEnds putters.items taker }
    ensures put { result.put ≡ map (λ p. p.put) putters.items }
    ensures taken { result.taken ≡ taker.taken }
    ensures fair { IsFair result.put result.taken result.left }
    ensures room { length result.left ≤ taker.size }
{
    for putter in putters {
        taker.end(putter);
    }
    taker.gather(rt)
}

impl<T: Drop> Gathered<T> {
    /// Hands out the next item left in the box, front first, with its putter's number, or nothing once all were handed
    /// out. It allocates nothing.
    pub fn next_left<R: Wait>(&mut self, rt: &R) -> Option<(u64, T)>
        ensures same { (self.new.put ≡ self.old.put) × (self.new.taken ≡ self.old.taken) }
        ensures left { MatchOption result
            ((self.old.left ≡ []) × (self.new.left ≡ []))
            (λ m. self.old.left ≡ m ∷ self.new.left) }
    {
        let next = self.next.take()?;
        self.next = self.queue.pop_as::<Empty, R>(rt, &mut self.pass);
        Some(next)
    }
}
