//! The ends of a box: threads hold them, and they share a queue under the rule of `rule.rt`.
ghost use Rattle.std.specs.Prelude.{◌≡◌, ◌++◌, ◌∷◌, [], ◌<◌, ◌≤◌, length, IsTrue, IfNone, OnErr, MatchResult};
ghost use Rattle.cast_box.specs.Lists.{IsFair, HasTakenOfEnded};
ghost use Rattle.cast_box.specs.Ends.{PutterEnd, TakerEnd, IsSamePutter, IsSameTaker, IsNextToEnd, HaveAllEnded, TakesItem, HasHeld, WasFull, FilledItAlone};

use crate::gathered::Gathered;
use crate::rule::{BoxPass, BoxQueue, Close, EndPutter, Put, Take};
use std::alloc::Global;
use std::marker::Model;
use std::sync::{Arc, Wait};

/// The item that a full box handed back.
#[derive(Drop)]
pub struct Full<T> {
    pub item: T,
}

/// An end through which a thread puts items. Contracts see its number, the limits of its box, and the list of what it
/// has put.
#[derive(Drop)]
pub struct Putter<T> {
    pub(crate) number: u64,
    pub(crate) queue: Arc<BoxQueue<T>, Global>,
    pub(crate) pass: BoxPass<T>,
}

impl<T> Model for Putter<T> {
    ghost use Rattle.std.specs.Prelude.{◌≡◌, ◌<◌};
    ghost use Rattle.std.specs.Arc.{arc_value};
    ghost use Rattle.crossbeam_queue.specs.Passes.{view as known, IsPassOf, ruled_capacity};
    ghost use Rattle.cast_box.specs.Ends.{PutterEnd};
    ghost use Rattle.cast_box.specs.Rule.{putter};

    ghost Value = { PutterEnd T };

    ghost view = { λ p. record {
      home = p.pass.table_id;
      size = ruled_capacity (arc_value p.queue);
      putters = (known p.pass).putters;
      number = p.number;
      put = (known p.pass).put;
    } };

    ghost invariant = { λ p. IsPassOf (arc_value p.queue) p.pass
        × (known p.pass ≡ putter (ruled_capacity (arc_value p.queue))
        (known p.pass).putters p.number (known p.pass).put)
        × (p.number < (known p.pass).putters) };
}

/// The end through which items are taken. Contracts see the limits of its box, the list of what it has taken with the
/// putters' numbers, and what each ended putter has put.
#[derive(Drop)]
pub struct Taker<T> {
    pub(crate) queue: Arc<BoxQueue<T>, Global>,
    pub(crate) pass: BoxPass<T>,
    // Whether the last take found nothing. The next one then first checks that the box is still empty, which costs far
    // less than a take that finds nothing. While items come, the check would hold up the putters.
    pub(crate) found_nothing: bool,
}

impl<T> Model for Taker<T> {
    ghost use Rattle.std.specs.Prelude.{◌≡◌};
    ghost use Rattle.std.specs.Arc.{arc_value};
    ghost use Rattle.crossbeam_queue.specs.Passes.{view as known, IsPassOf, ruled_capacity};
    ghost use Rattle.cast_box.specs.Ends.{TakerEnd};
    ghost use Rattle.cast_box.specs.Rule.{taker};

    ghost Value = { TakerEnd T };

    ghost view = { λ t. record {
      home = t.pass.table_id;
      size = ruled_capacity (arc_value t.queue);
      putters = (known t.pass).putters;
      taken = (known t.pass).taken;
      ended = (known t.pass).ended;
    } };

    ghost invariant = { λ t. IsPassOf (arc_value t.queue) t.pass
        × (known t.pass ≡ taker (ruled_capacity (arc_value t.queue)) (known t.pass).putters
        (known t.pass).putters (known t.pass).taken (known t.pass).ended) };
}

impl<T> Putter<T> {
    /// Puts the item at the back of the box, under this putter's number. If the box was full at one moment of the call,
    /// nothing is put and the item comes back. The box then held as many items as it has places, and those of this
    /// putter were the last that it had put. So a box's only putter gets an item back only if it has put at least that
    /// many. The call may spin while a thread stalls in a put or a take.
    #[inline(always)]
    pub fn put<R: Wait>(&mut self, rt: &R, item: T) -> Result<(), Full<T>>
        ensures same { IsSamePutter self.old self.new }
        ensures put { MatchResult result
            (λ _. self.new.put ≡ self.old.put ++ item ∷ [])
            (λ full. (full.item ≡ item) × (self.new.put ≡ self.old.put) × WasFull self.old) }
        ensures sole { OnErr result (FilledItAlone self.old) }
    {
        let numbered = (self.number, item);
        match self.queue.push_as::<Put, R>(rt, &mut self.pass, numbered) {
            Ok(()) => Ok(()),
            Err((_, item)) => Err(Full { item }),
        }
    }

    /// How many items the box held at one moment of the call. Those of this putter were the last that it had put. The
    /// call may spin while others put.
    #[inline(always)]
    pub fn len<R: Wait>(&mut self, rt: &R) -> u64
        ensures same { self.new ≡ self.old }
        ensures held { HasHeld result self.old }
    {
        self.queue.len_as::<Put, R>(rt, &mut self.pass) as u64
    }
}

impl<T> Taker<T> {
    /// Takes the item at the front of the box. It returns nothing only if the box was empty at one moment of the call;
    /// all that the ended putters had put was taken then. The call may spin while a thread stalls in a put.
    #[inline(always)]
    pub fn take<R: Wait>(&mut self, rt: &R) -> Option<T>
        ensures same { IsSameTaker self.old self.new }
        ensures taken { TakesItem self.old result self.new }
        ensures empty { IfNone result (HasTakenOfEnded self.old.ended self.old.taken) }
    {
        if self.is_still_empty() {
            return None;
        }
        self.pop(rt)
    }

    // Whether the last take found nothing and another would find nothing too: the box was empty at one moment of the
    // call.
    fn is_still_empty(&mut self) -> bool
        ensures same { self.new ≡ self.old }
        ensures empty { IsTrue result → HasTakenOfEnded self.old.ended self.old.taken }
    {
        self.found_nothing && self.queue.is_empty_as::<Take>(&mut self.pass)
    }

    // Takes the item at the front, if there is one.
    #[inline(always)]
    fn pop<R: Wait>(&mut self, rt: &R) -> Option<T>
        ensures same { IsSameTaker self.old self.new }
        ensures taken { TakesItem self.old result self.new }
        ensures empty { IfNone result (HasTakenOfEnded self.old.ended self.old.taken) }
    {
        match self.queue.pop_as::<Take, R>(rt, &mut self.pass) {
            Some((_, item)) => {
                self.found_nothing = false;
                Some(item)
            }
            None => {
                self.found_nothing = true;
                None
            }
        }
    }
}

impl<T: Drop> Taker<T> {
    /// Ends the putter with the next number, beginning with 0, and remembers what it has put. It allocates nothing.
    pub fn end(&mut self, putter: Putter<T>)
        requires { IsNextToEnd putter self.old }
        ensures { self.new ≡ record self.old { ended = self.old.ended ++ putter.put ∷ [] } }
    {
        self.queue.absorb::<EndPutter>(&mut self.pass, putter.pass);
    }

    /// Ends the box, whose putters have all ended. What was taken, followed by what is left, has each putter's items in
    /// the order it put them, and no others. No more is left than the box has places. It allocates nothing.
    pub fn gather<R: Wait>(self, rt: &R) -> Gathered<T>
        requires { HaveAllEnded self }
        ensures put { result.put ≡ self.ended }
        ensures taken { result.taken ≡ self.taken }
        ensures fair { IsFair result.put result.taken result.left }
        ensures room { length result.left ≤ self.size }
    {
        let Taker {
            queue,
            mut pass,
            ..
        } = self;
        let next = queue.pop_as::<Close, R>(rt, &mut pass);
        Gathered { queue, pass, next }
    }
}
