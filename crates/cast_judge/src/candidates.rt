//! The values that were proposed in an instance.
ghost use Rattle.std.specs.Prelude.{◌≡◌, [], position, length, OnOk};
ghost use Rattle.std.specs.List.{list_any};
ghost use Rattle.cast_judge.specs.Candidates.{is_for, is_decided, count_decided, with_candidate, with_decision};

use std::alloc::{AllocError, Global};
use std::marker::Model;

#[derive(Clone, Copy)]
pub struct Candidate {
    pub value: u64,
    pub decided: bool,
}

/// The values proposed in an instance, each once, and whether each is decided. They lie together, so that a line with a
/// decision reads one stretch of memory. Contracts see them as a list.
#[derive(Drop)]
pub struct Candidates {
    all: Vec<Candidate>,
}

impl Model for Candidates {
    ghost use Rattle.std.specs.Prelude.{List};
    ghost use Rattle.cast_judge.specs.declared.candidates.Candidate.{Candidate};

    ghost Value = { List Candidate };

    ghost view = { λ candidates. candidates.all.items };
}

impl Candidates {
    /// Creates an empty list without allocating.
    pub fn new(alloc: Global) -> Candidates
        ensures { result ≡ [] }
    {
        Candidates {
            all: Vec::new(alloc),
        }
    }

    pub fn len(&self) -> usize
        ensures { result ≡ length self.now }
    {
        self.all.len()
    }

    /// Whether the value was proposed.
    pub fn has(&self, value: u64) -> bool
        ensures { result ≡ list_any (is_for value) self.now }
    {
        self.all.iter().any(|candidate| candidate.value == value)
    }

    pub fn is_decided(&self, value: u64) -> bool
        ensures { result ≡ is_decided self.now value }
    {
        match self.place(value) {
            Some(place) => self.all[place].decided,
            None => false,
        }
    }

    pub fn count_decided(&self) -> usize
        ensures { result ≡ count_decided self.now }
    {
        self.all
            .iter()
            .filter(|candidate| candidate.decided)
            .count()
    }

    pub fn propose(&mut self, value: u64) -> Result<(), AllocError>
        ensures { OnOk result (self.new ≡ with_candidate self.old value) }
    {
        if self.has(value) {
            return Ok(());
        }
        self.all.push(Candidate {
            value,
            decided: false,
        })?;
        Ok(())
    }

    /// Notes that a proposed value is decided. Another value changes nothing.
    pub fn decide(&mut self, value: u64)
        ensures { self.new ≡ with_decision self.old value }
    {
        if let Some(place) = self.place(value) {
            self.all[place] = Candidate {
                value,
                decided: true,
            };
        }
    }

    // The place of the first candidate with this value.
    fn place(&self, value: u64) -> Option<usize>
        ensures { result ≡ position (is_for value) self.now }
    {
        self.all
            .iter()
            .position(|candidate| candidate.value == value)
    }
}
