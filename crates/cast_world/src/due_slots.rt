//! The slots of a round, kept as runs: a node mostly owes a peer slots in succession, and there may be millions.
ghost use Rattle.std.specs.Prelude.{◌≡◌, ◌+◌, ◌<◌, ◌≤◌, ◌^◌, ◌++◌, ◌∷◌, [], ◌-◌, length, drop, map, IfSome, IfNone, OnOk, OnErr};
ghost use Rattle.std.specs.List.{range_with_len};
ghost use Rattle.cast_world.specs.Plans.{due_of};
ghost use Rattle.cast_world.specs.DueRuns.{slots_of, rest_of, slots_from};

use crate::due_run::Run;
use cast_message::NodeId;
use std::alloc::{AllocError, Global};
use std::marker::Model;

// More slots than a list can have.
const TOO_MANY: u64 = 1 << 61;

/// A slot that a live node owes another live node.
#[derive(Clone, Copy)]
pub struct DueSlot {
    pub from: NodeId,
    pub to: NodeId,
    pub slot: u64,
}

impl Model for DueSlot {
    ghost use Rattle.cast_model.specs.Rounds.{Due};

    ghost Value = { Due };

    ghost view = { λ d. record { from = d.from; to = d.to; slot = d.slot } };

    ghost inverse = { λ d. record { from = d.from; to = d.to; slot = d.slot } };
}

/// Slots that are due. Contracts see the list of them.
#[derive(Drop)]
pub struct DueSlots {
    runs: Vec<Run>,
    // The run at the front; those before it were taken.
    place: usize,
    // The number of slots.
    len: u64,
}

impl Model for DueSlots {
    ghost use Rattle.std.specs.Prelude.{◌≡◌, ◌<◌, ◌≤◌, ◌^◌, List, length};
    ghost use Rattle.cast_model.specs.Rounds.{Due};
    ghost use Rattle.cast_world.specs.DueRuns.{slots_from};

    ghost Value = { List Due };

    ghost view = { λ d. slots_from d.place d.runs.items };

    ghost invariant = { λ d. (d.place ≤ length d.runs.items)
        × (d.len ≡ length (slots_from d.place d.runs.items)) × (d.len ≤ 2 ^ 61) };
}

impl DueSlots {
    /// No slots. It allocates nothing.
    pub fn new(alloc: Global) -> DueSlots
        ensures { result ≡ [] }
    {
        DueSlots {
            runs: Vec::new(alloc),
            place: 0,
            len: 0,
        }
    }

    pub fn len(&self) -> u64
        ensures len { result ≡ length self.now }
        ensures few { result ≤ 2 ^ 61 }
    {
        self.len
    }

    /// Appends slots in succession that one node owes another, from the first up to the end.
    pub(crate) fn push_run(
        &mut self,
        from: NodeId,
        to: NodeId,
        first: u64,
        end: u64,
    ) -> Result<(), AllocError>
        requires { first < end }
        ensures ok { OnOk result (self.new
            ≡ self.old ++ map (due_of from to) (range_with_len first (end - first))) }
        ensures err { OnErr result (self.new ≡ self.old) }
    {
        if end - first > TOO_MANY - self.len {
            return Err(AllocError);
        }
        self.runs.push(Run {
            from,
            to,
            first,
            more: end - first - 1,
        })?;
        self.len += end - first;
        Ok(())
    }

    /// The first slots in succession that one node owes another, if there are any.
    #[inline(always)]
    pub(crate) fn first_run(&self) -> Option<Run>
        ensures some { IfSome result (λ run. self.now ≡ slots_of run ++ drop (run.more + 1) self.now) }
        ensures none { IfNone result (self.now ≡ []) }
    {
        Some(*self.runs.get(self.place)?)
    }

    /// Takes off as many of the first slots.
    #[inline(always)]
    pub(crate) fn skip(&mut self, count: u64)
        ensures { self.new ≡ drop count self.old }
    {
        self.place = skip_slots(&mut self.runs, self.place, count);
        self.len = self.len.saturating_sub(count);
    }

    /// Takes the first slot, if there is one.
    pub fn pop_front(&mut self) -> Option<DueSlot>
        ensures some { IfSome result (λ due. self.old ≡ due ∷ self.new) }
        ensures none { IfNone result (self.old ≡ []) }
        ensures empty { IfNone result (self.new ≡ []) }
    {
        let run = *self.runs.get(self.place)?;
        match run.rest() {
            Some(rest) => self.runs[self.place] = rest,
            None => self.place += 1,
        }
        self.len -= 1;
        Some(run.slot())
    }
}

impl Run {
    fn slot(self) -> DueSlot
        ensures { slots_of self ≡ result ∷ rest_of self }
    {
        DueSlot {
            from: self.from,
            to: self.to,
            slot: self.first,
        }
    }

    // The slots after the first, if there are any.
    fn rest(self) -> Option<Run>
        ensures some { IfSome result (λ rest. slots_of rest ≡ rest_of self) }
        ensures none { IfNone result (rest_of self ≡ []) }
    {
        if self.more == 0 {
            return None;
        }
        Some(Run {
            from: self.from,
            to: self.to,
            first: self.first + 1,
            more: self.more - 1,
        })
    }

    // The slots after as many of the first, which are not all.
    fn after(self, count: u64) -> Run
        requires { count ≤ self.more }
        ensures { slots_of result ≡ drop count (slots_of self) }
    {
        Run {
            from: self.from,
            to: self.to,
            first: self.first + count,
            more: self.more - count,
        }
    }
}

// Takes as many of the first slots off the runs from this place on. Returns the place from which on the others are.
fn skip_slots(runs: &mut Vec<Run>, place: usize, count: u64) -> usize
    requires { place ≤ length runs.old.items }
    ensures place { result ≤ length runs.new.items }
    ensures slots { slots_from result runs.new.items
        ≡ drop count (slots_from place runs.old.items) }
{
    if count == 0 {
        return place;
    }
    let Some(&run) = runs.get(place) else {
        return place;
    };
    if count <= run.more {
        runs[place] = run.after(count);
        return place;
    }
    skip_slots(runs, place + 1, count - run.more - 1)
}
