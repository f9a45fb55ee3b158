//! The rule of a box in the queue's terms: what each end knows, how ends are made and ended, and what each put and take
//! shows.
use crossbeam_queue::protocol::{Join, Lesson, Outcome, Protocol, Split};
use crossbeam_queue::{Pass, RuledArrayQueue};
use std::collections::LinkedList;
use std::marker::{Brand, PhantomData};

/// What an end may do.
pub enum Role {
    /// Put items under its number.
    Putting,
    /// Take items, make putters and end them.
    Taking,
    /// Take what is left, after all putters have ended.
    Gathering,
    /// Nothing more.
    Ended,
}

/// What an end knows. It exists only in proofs; no value of it is made.
pub struct Known<T> {
    pub role: Role,
    pub size: u64,
    pub putters: u64,
    /// A putter's number, or how many putters the taker has made.
    pub number: u64,
    pub put: LinkedList<T>,
    pub taken: LinkedList<(u64, T)>,
    pub ended: LinkedList<LinkedList<T>>,
    pub left: LinkedList<(u64, T)>,
}

pub struct EachInOrder;

impl<T> Protocol<(u64, T), Known<T>> for EachInOrder {
    ghost use Rattle.std.specs.Prelude.{[]};
    ghost use Rattle.cast_box.specs.Rule.{Ruled, taker};

    ghost holds = { Ruled };

    ghost first = { taker 0 0 0 [] [] };
}

/// How many places and putters a box gets, known only when it is made.
pub trait Limits {
    ghost use Rattle.std.specs.Prelude.{ℕ};

    ghost size: { ℕ };

    ghost putters: { ℕ };
}

impl Limits for Brand {
    ghost size = { 0 };

    ghost putters = { 0 };
}

/// The first end learns the limits of its box.
pub struct SetLimits<L: Limits> {
    of: PhantomData<L>,
}

impl<T, L: Limits> Split<Known<T>> for SetLimits<L> {
    ghost use Rattle.std.specs.Prelude.{[]};
    ghost use Rattle.cast_box.specs.Rule.{taker, spent};

    ghost left = { λ v. taker L.size L.putters 0 [] [] };

    ghost right = { λ v. spent };
}

/// The taker makes the putter with the next number.
pub struct NextPutter;

impl<T> Split<Known<T>> for NextPutter {
    ghost use Rattle.std.specs.Prelude.{◌+◌, []};
    ghost use Rattle.cast_box.specs.Rule.{putter, taker};

    ghost left = { λ v. taker v.size v.putters (v.number + 1) v.taken v.ended };

    ghost right = { λ v. putter v.size v.putters v.number [] };
}

/// The taker ends the putter with the next number, and learns what it put.
pub struct EndPutter;

impl<T> Join<Known<T>> for EndPutter {
    ghost use Rattle.std.specs.Prelude.{◌++◌, ◌∷◌, []};
    ghost use Rattle.cast_box.specs.Rule.{taker, spent};

    ghost both = { λ v w. taker v.size v.putters v.number v.taken (v.ended ++ w.put ∷ []) };

    ghost spent = { spent };
}

pub struct Put;

impl<T> Outcome<(u64, T), Known<T>> for Put {
    ghost use Rattle.cast_box.specs.Rule.{Puts};

    ghost then = { Puts };
}

impl<T> Lesson<(u64, T), Known<T>> for Put {
    ghost use Rattle.cast_box.specs.Rule.{ShowsPutter};

    ghost fact = { ShowsPutter };
}

/// A take while putters may still put.
pub struct Take;

impl<T> Outcome<(u64, T), Known<T>> for Take {
    ghost use Rattle.cast_box.specs.Rule.{Takes};

    ghost then = { Takes };
}

impl<T> Lesson<(u64, T), Known<T>> for Take {
    ghost use Rattle.cast_box.specs.Rule.{ShowsEnded};

    ghost fact = { ShowsEnded };
}

/// The first take after all putters have ended.
pub struct Close;

impl<T> Outcome<(u64, T), Known<T>> for Close {
    ghost use Rattle.cast_box.specs.Rule.{Closes};

    ghost then = { Closes };
}

impl<T> Lesson<(u64, T), Known<T>> for Close {
    ghost use Rattle.cast_box.specs.Rule.{ShowsAll};

    ghost fact = { ShowsAll };
}

/// A later take of what is left.
pub struct Empty;

impl<T> Outcome<(u64, T), Known<T>> for Empty {
    ghost use Rattle.cast_box.specs.Rule.{Empties};

    ghost then = { Empties };
}

impl<T> Lesson<(u64, T), Known<T>> for Empty {
    ghost use Rattle.cast_box.specs.Rule.{ShowsLeft};

    ghost fact = { ShowsLeft };
}

/// The queue of a box. Each item is paired with its putter's number.
pub type BoxQueue<T> = RuledArrayQueue<(u64, T), Known<T>, EachInOrder>;

/// What an end knows under the rule. It takes no bytes.
pub type BoxPass<T> = Pass<(u64, T), Known<T>>;
