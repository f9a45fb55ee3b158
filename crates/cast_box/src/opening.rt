//! Makes a box and its ends.
ghost use Rattle.std.specs.Prelude.{◌≡◌, ◌+◌, ◌<◌, [], IfOk, IfErr};
ghost use Rattle.crossbeam_queue.specs.Passes.{view as known, IsPassOf, IsSamePass};
ghost use Rattle.cast_box.specs.Rule.{taker};
ghost use Rattle.cast_box.specs.Ends.{OpeningBox, AreAllEnds, AreNew, IsSize, IsPutters, IsFaultOf};

use crate::ends::{Putter, Taker};
use crate::rule::{BoxPass, BoxQueue, Limits, NextPutter, SetLimits};
use std::alloc::{AllocError, Global};
use std::marker::{Brand, Model};
use std::sync::Arc;
use thiserror::Error;

/// The most places in a box.
pub const MOST_PLACES: u64 = 4_096;

/// The most putters of a box.
pub const MOST_PUTTERS: u64 = 64;

/// Why a box is not made.
#[derive(Clone, Copy, Debug, PartialEq, Eq, Error)]
pub enum BoxFault {
    #[error("the size of the box is not 1 to 4096")]
    Size,
    #[error("the number of putters is 0, or more than the box may have")]
    Putters,
    #[error("out of memory")]
    Memory,
}

/// A box of `size` places, 1 to 4,096, with its taker and its `putters` putters, 1 to 64, in the order of their numbers
/// from 0. All memory that the box ever needs is allocated here. If two causes apply, the fault is the first in the
/// order of `BoxFault`.
pub fn make_box<T: Drop>(
    alloc: Global,
    size: u64,
    putters: u64,
) -> Result<(Vec<Putter<T>>, Taker<T>), BoxFault>
    ensures ends { IfOk result (λ ends. AreAllEnds ends.0.items ends.1 × AreNew ends.0.items ends.1
        × (ends.1.size ≡ size) × (ends.1.putters ≡ putters)) }
    ensures limits { IfOk result (λ _. IsSize size × IsPutters putters) }
    ensures fault { IfErr result (IsFaultOf size putters) }
{
    if size < 1 || size > MOST_PLACES {
        return Err(BoxFault::Size);
    }
    if putters < 1 || putters > MOST_PUTTERS {
        return Err(BoxFault::Putters);
    }
    open_box(alloc, size as usize, putters).map_err(|_| BoxFault::Memory)
}

fn open_box<T: Drop>(
    alloc: Global,
    size: usize,
    putters: u64,
) -> Result<(Vec<Putter<T>>, Taker<T>), AllocError>
    requires { 0 < size }
    ensures { IfOk result (λ ends. AreAllEnds ends.0.items ends.1 × AreNew ends.0.items ends.1
        × (ends.1.size ≡ size) × (ends.1.putters ≡ putters)) }
{
    let mut opening = Opening::new(alloc, size, putters)?;
    let mut all = Vec::new(alloc);
    for number in 0..putters {
        all.push(opening.next_putter(number)?)?;
    }
    Ok((all, opening.into_taker()))
}

// A box whose putters are still being made.
#[derive(Drop)]
struct Opening<T> {
    queue: Arc<BoxQueue<T>, Global>,
    pass: BoxPass<T>,
}

impl<T> Model for Opening<T> {
    ghost use Rattle.std.specs.Prelude.{◌≡◌, []};
    ghost use Rattle.std.specs.Arc.{arc_value};
    ghost use Rattle.crossbeam_queue.specs.Passes.{view as known, IsPassOf, ruled_capacity};
    ghost use Rattle.cast_box.specs.Ends.{OpeningBox};
    ghost use Rattle.cast_box.specs.Rule.{taker};

    ghost Value = { OpeningBox };

    ghost view = { λ o. record {
      home = o.pass.table_id;
      size = ruled_capacity (arc_value o.queue);
      putters = (known o.pass).putters;
      made = (known o.pass).number;
    } };

    ghost invariant = { λ o. IsPassOf (arc_value o.queue) o.pass
        × (known o.pass ≡ taker (ruled_capacity (arc_value o.queue)) (known o.pass).putters
        (known o.pass).number [] []) };
}

impl<T: Drop> Opening<T> {
    fn new(alloc: Global, size: usize, putters: u64) -> Result<Opening<T>, AllocError>
        requires { 0 < size }
        ensures { IfOk result (λ o. (o.size ≡ size) × (o.putters ≡ putters) × (o.made ≡ 0)) }
    {
        let (queue, mut pass) = BoxQueue::<T>::ruled(alloc, size)?;
        set_limits::<Brand, T>(&queue, &mut pass, size, putters);
        let queue = Arc::new(alloc, queue)?;
        Ok(Opening { queue, pass })
    }

    // Makes the putter with the next number.
    fn next_putter(&mut self, number: u64) -> Result<Putter<T>, AllocError>
        requires { (number ≡ self.old.made) × (number < self.old.putters) }
        ensures { IfOk result (λ p.
            (p ≡ record {
              home = self.old.home;
              size = self.old.size;
              putters = self.old.putters;
              number = number;
              put = [];
            })
            × (self.new ≡ record self.old { made = number + 1 })) }
    {
        let queue = Arc::try_clone(&self.queue)?;
        let pass = self.queue.another::<NextPutter>(&mut self.pass);
        Ok(Putter {
            number,
            queue,
            pass,
        })
    }

    // The taker, after all putters were made.
    fn into_taker(self) -> Taker<T>
        requires { self.made ≡ self.putters }
        ensures { result ≡ record {
          home = self.home;
          size = self.size;
          putters = self.putters;
          taken = [];
          ended = [];
        } }
    {
        let Opening { queue, pass } = self;
        Taker {
            queue,
            pass,
            found_nothing: false,
        }
    }
}

// Gives the first pass the limits of the box.
fn set_limits<L: Limits, T>(queue: &BoxQueue<T>, pass: &mut BoxPass<T>, size: usize, putters: u64)
    requires limits { (size ≡ L.size) × (putters ≡ L.putters) }
    requires pass { IsPassOf queue.now pass.old × (known pass.old ≡ taker 0 0 0 [] []) }
    ensures { IsSamePass pass.old pass.new × (known pass.new ≡ taker size putters 0 [] []) }
{
    let _spent = queue.another::<SetLimits<L>>(pass);
}
