//! Schedules, which choose who takes the next step of a run.
ghost use Rattle.std.specs.Prelude.{◌≡◌, ◌<◌, ◌%◌, ◌++◌, ◌∷◌, [], ℕ, List, false, true, IfOk, OnErr};

use rand_core::{Rng, SeedableRng};
use rand_xoshiro::Xoshiro256PlusPlus;
use std::alloc::{AllocError, Global};
use std::vec::IntoIter;

/// Chooses who takes the next step of a run. The same group with the same choices has the same run.
pub trait Schedule {
    /// One of this many choices, numbered from 0.
    fn next(&mut self, choices: u64) -> u64
        requires { 0 < choices }
        ensures { result < choices };
}

/// The schedule of a seed; its choices never change. They are numbers of xoshiro256++ (Blackman and Vigna 2019), modulo
/// the number of choices; SplitMix64 fills its state from the seed. Each is followed by a number that says how long it
/// stays.
#[derive(Drop)]
pub struct Seeded {
    rng: Xoshiro256PlusPlus,
    longest: u64,
    choice: u64,
    // How many more times the choice is made.
    left: u64,
}

impl Seeded {
    /// The schedule of this seed that makes all choices equally likely.
    pub fn new(seed: u64) -> Seeded {
        Seeded::lingering(seed, 1)
    }

    /// The schedule of this seed that keeps a choice up to `longest` times, and changes to another at random places.
    /// Meanwhile the others stand still, which causes rare orders.
    pub fn lingering(seed: u64, longest: u64) -> Seeded {
        Seeded {
            rng: Xoshiro256PlusPlus::seed_from_u64(seed),
            longest: longest.max(1),
            choice: 0,
            left: 0,
        }
    }

    /// The schedule of this seed that `castgroup live` uses. An even seed's choices are equally likely; an odd seed
    /// keeps each up to 64 times.
    pub fn mixed(seed: u64) -> Seeded {
        let longest = if seed % 2 == 0 { 1 } else { 64 };
        Seeded::lingering(seed, longest)
    }
}

impl Schedule for Seeded {
    fn next(&mut self, choices: u64) -> u64 {
        if self.left == 0 {
            self.choice = self.rng.next_u64();
            self.left = self.rng.next_u64() % self.longest.max(1);
        } else {
            self.left -= 1;
        }
        self.choice % choices
    }
}

/// A schedule that records another's choices, so that they can be made again from a list.
#[derive(Drop)]
pub struct Recorded<S> {
    inner: S,
    choices: Vec<u64>,
    // A choice could not be kept for lack of memory, so the kept ones would make a different run.
    is_cut: bool,
}

impl<S> Recorded<S> {
    /// Records the choices of this schedule.
    pub fn new(alloc: Global, inner: S) -> Recorded<S> {
        Recorded {
            inner,
            choices: Vec::new(alloc),
            is_cut: false,
        }
    }
}

impl<S: Drop> Recorded<S> {
    /// The choices made; `Listed` repeats the run from them. Out of memory if some could not be kept.
    pub fn into_choices(self) -> Result<Vec<u64>, AllocError>
        ensures ok { IfOk result (λ choices. (self.is_cut ≡ false) × (choices ≡ self.choices)) }
        ensures cut { OnErr result (self.is_cut ≡ true) }
    {
        if self.is_cut {
            return Err(AllocError);
        }
        Ok(self.choices)
    }
}

impl<S: Schedule> Schedule for Recorded<S> {
    fn next(&mut self, choices: u64) -> u64
        requires { 0 < choices }
        ensures below { result < choices }
        ensures kept { self.new.is_cut ≡ false → (self.old.is_cut ≡ false)
            × (self.new.choices.items ≡ self.old.choices.items ++ result ∷ []) }
    {
        let choice = self.inner.next(choices);
        self.is_cut = self.is_cut || self.choices.push(choice).is_err();
        choice
    }
}

/// The schedule of a list of numbers, each taken modulo the number of choices. After the last number all take turns, so
/// that a run goes on however much of the list is cut off.
#[derive(Drop)]
pub struct Listed {
    numbers: IntoIter<u64>,
    // How many choices were made after the last number.
    later: u64,
}

impl Listed {
    /// The schedule of these numbers. With an empty list, all take turns.
    pub fn new(numbers: Vec<u64>) -> Listed {
        Listed {
            numbers: numbers.into_iter(),
            later: 0,
        }
    }
}

impl Schedule for Listed {
    fn next(&mut self, choices: u64) -> u64
        requires { 0 < choices }
        ensures below { result < choices }
        ensures listed { (number : ℕ) (rest : List ℕ) → self.old.numbers.rest.items ≡ number ∷ rest →
            (result ≡ number % choices) × (self.new.numbers.rest.items ≡ rest) }
    {
        let number = match self.numbers.next() {
            Some(number) => number,
            None => {
                self.later = self.later.wrapping_add(1);
                self.later
            }
        };
        number % choices
    }
}
