//! Rounds: every slot that a live node owes another is sent, taken and acknowledged. After two rounds in which no event is refused
//! there is rest. `at_rest` says what live nodes have delivered and decided then.
ghost use Rattle.std.specs.Prelude.{◌≡◌, ℕ, ◌<◌, ◌+◌, ◌^◌, ◌++◌, ◌∷◌, [], ◌==◌, ◌||◌, cond, IfOk, IfSome, IfNone, IsSome, OnOk, length, slice_index_or};
ghost use Rattle.cast_message.specs.declared.config.Config.{Config as Settings};
ghost use Rattle.cast_model.specs.History.{History};
ghost use Rattle.cast_model.specs.Replies.{IsAccepted};
ghost use Rattle.cast_model.specs.Rounds.{Rest, HoldTheSame, AreAccepted, plan, after_round};
ghost use Rattle.cast_world.specs.Group.{Stands, StandingFor};
ghost use Rattle.cast_world.specs.Plans.{events_from};
ghost use Rattle.cast_world.specs.Settled.{SettlesFront};
ghost use Rattle.cast_world.specs.Rounds.{TakesAll, TakesRound, Spreads, events_after};

use crate::due_slots::{DueSlot, DueSlots};
use crate::world::World;
use cast_message::{Event, FRAME_LIMIT, List, StepFault};
use std::alloc::AllocError;

// The number of values of a `NodeId`.
const NODE_IDS: usize = 256;

impl World {
    /// The events of one round from here: those that settle each slot that is due (`DueSlot::events`), in order. Frames are numbered
    /// as if a node could make any number of them.
    pub fn round_plan(&self) -> Result<List<Event>, AllocError>
        ensures exact { StandingFor self.now (λ config past.
            IfOk result (λ events. events ≡ plan config past)) }
    {
        let alloc = self.allocator();
        let mut due = self.due()?;
        // How many frames of each node the events make so far.
        let mut made = [0; NODE_IDS];
        let mut events = Vec::with_capacity(alloc, 4 * due.len() as usize)?;
        'slots: while let Some(slot) = due.pop_front() {
            self.add_events(slot, &made, &mut events)?;
            count_frames(slot, &mut made);
        }
        Ok(List::from_vec(events))
    }

    /// Takes the events of one round from here, slot by slot, and returns how many frames they made. A round is refused as
    /// `FramesFull` if its next event is, as `Memory` if that has no cause of refusal and it is out of memory, and never else. The
    /// events before a refusal stay done. If nothing is due, a round is never refused.
    ///
    /// After a round each live node holds exactly what some live node held before it. If all of them held the same before, the
    /// group is then at rest. So it is at rest after two rounds.
    pub fn round(&mut self) -> Result<u64, StepFault>
        ensures takes { StandingFor self.old (λ config past.
            TakesRound config past result self.new) }
        ensures spreads { StandingFor self.old (λ config past.
            IfOk result (λ _. Spreads config past)) }
        ensures rests { StandingFor self.old (λ config past.
            HoldTheSame config past → IfOk result (λ _. Rest config (after_round config past))) }

        // After the second of two rounds there is rest.
        ensures second { (config : Settings) (past : History) → IsAccepted config past →
            AreAccepted config past (plan config past) →
            Stands config (after_round config past) self.old →
            IfOk result (λ _. Rest config (after_round config (after_round config past))) }
    {
        let Ok(mut due) = self.due() else {
            return self.unlisted();
        };
        let frames = 2 * due.len();
        'slots: while let Some(slot) = self.next_slot(&mut due) {
            self.settle(&slot)?;
        }
        Ok(frames)
    }

    // Takes off the next slot that it doesn't settle without news, if there is one.
    fn next_slot(&mut self, due: &mut DueSlots) -> Option<DueSlot>
        ensures some { IfSome result (λ slot.
            SettlesFront self.old due.old (slot ∷ due.new) self.new) }
        ensures none { IfNone result (SettlesFront self.old due.old [] self.new) }
        ensures fewer { IsSome result → length due.new < length due.old }
    {
        self.settle_while_silent(due);
        due.pop_front()
    }

    // Takes the four events that settle a slot, up to the first that is refused.
    fn settle(&mut self, due: &DueSlot) -> Result<(), StepFault>
        ensures { StandingFor self.old (λ config past.
            TakesAll config past (events_from self.old due.now) result self.new) }
    {
        let carry = self.frame_count(due.from);
        let took = self.frame_count(due.to);
        let events = due.events(carry, took);
        self.take_all(&events)
    }

    // The result of a round that has no room for its slots. Its first event may have a cause of refusal all the same.
    fn unlisted(&self) -> Result<u64, StepFault>
        ensures { StandingFor self.now (λ config past. TakesRound config past result self.now) }
    {
        match self.first_giver() {
            Some(giver) if self.frame_count(giver) >= FRAME_LIMIT => Err(StepFault::FramesFull),
            Some(_) => Err(StepFault::Memory),
            None => Ok(0),
        }
    }

    // Takes these events, up to the first that is refused.
    fn take_all(&mut self, events: &[Event]) -> Result<(), StepFault>
        ensures { StandingFor self.old (λ config past.
            TakesAll config past events.now result self.new) }
    {
        for event in events {
            self.step(event)?;
        }
        Ok(())
    }

    // The events that settle a slot, if this many frames were made besides those of the world.
    fn add_events(
        &self,
        due: DueSlot,
        made: &[u64],
        events: &mut Vec<Event>,
    ) -> Result<(), AllocError>
        requires size { length made.now ≡ 256 }
        requires from { slice_index_or made.now due.from 0 < 2 ^ 63 }
        requires to { slice_index_or made.now due.to 0 < 2 ^ 63 }
        ensures { OnOk result (events.new.items
            ≡ events.old.items ++ events_after self.now made.now due) }
    {
        let carry = self.frame_count(due.from) + made[usize::from(due.from.0)];
        let took = self.frame_count(due.to) + made[usize::from(due.to.0)];
        events.extend(due.events(carry, took))
    }
}

// Each end of a slot makes a frame.
fn count_frames(due: DueSlot, made: &mut [u64])
    requires size { length made.old ≡ 256 }
    requires from { slice_index_or made.old due.from 0 < 2 ^ 63 }
    requires to { slice_index_or made.old due.to 0 < 2 ^ 63 }
    ensures size { length made.new ≡ 256 }
    ensures counted { (p : ℕ) → p < 256 → slice_index_or made.new p 0
        ≡ slice_index_or made.old p 0 + cond (due.from == p || due.to == p) 1 0 }
{
    let DueSlot { from, to, slot: _ } = due;
    made[usize::from(from.0)] += 1;
    if from != to {
        made[usize::from(to.0)] += 1;
    }
}
