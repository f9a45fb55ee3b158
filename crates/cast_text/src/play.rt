//! Plays a script: takes its events one by one, and two rounds for a settle, and shows each event to an observer.
ghost use Rattle.std.specs.Prelude.{◌<◌, length, List, [], ◌∷◌, Result, Ok, OnOk, IfSome, IfNone, IsSome, IsTrue};
ghost use Rattle.cast_world.specs.Group.{Stands, StandingFor};
ghost use Rattle.cast_world.specs.Plans.{events_from};
ghost use Rattle.cast_text.specs.declared.fault.TextFault.{TextFault as AnyFault};
ghost use Rattle.cast_text.specs.Played.{Played, Taken, SettleBegun, SettleEnded, tried, one_left, round_left, settled, left_by, played, Observes, Overlooks, Skips, Plays, PlaysAll, ShowsReply};

use crate::fault::TextFault;
use cast_message::{Event, Reply};
use cast_script::{Script, ScriptEvent};
use cast_world::{DueSlot, DueSlots, World, is_want_of_memory};

/// Sees what is taken as a script is played. `saw` describes calls that led from one of its states to another: what
/// they showed, in order, and whether one failed. By the laws of `Observes`, what is shown is appended to what was
/// shown before, and a failed observer sees nothing more. So `play` promises for every observer that it saw everything
/// played, unless it failed or memory ran out.
pub trait Observer {
    /// The outcome of calls that showed this.
    ghost saw: { Self → Self → Result (Unit {0}) AnyFault → List Played → Type 0 };

    /// It has not failed, and can see more.
    ghost ready: { Self → Type 0 };

    /// An event was taken, with this reply.
    fn see_event(&mut self, index: u64, event: &Event, reply: &Reply) -> Result<(), TextFault>
        requires { ready self.old }
        ensures ready { OnOk result (ready self.new) }
        ensures saw { saw self.old self.new result (Taken index event.now reply.now ∷ []) };

    /// The next events are those of a settle.
    fn see_settle_begin(&mut self)
        requires { ready self.old }
        ensures ready { ready self.new }
        ensures saw { saw self.old self.new (Ok tt) (SettleBegun ∷ []) };

    /// The settle in this place of the script is over.
    fn see_settle_end(&mut self, index: u64) -> Result<(), TextFault>
        requires { ready self.old }
        ensures ready { OnOk result (ready self.new) }
        ensures saw { saw self.old self.new result (SettleEnded index ∷ []) };

    /// Whether it need not see accepted silent events: sends, acknowledgements, and arrivals that deliver and decide
    /// nothing.
    fn overlooks_silence(&self) -> bool
        ensures { IsTrue result → Overlooks saw ready self.now };

    ghost laws: { Observes saw ready };
}

/// Plays the events of a script in a new world of its group, and shows them to an observer. It stops if memory runs out
/// or the observer fails.
pub fn play<O: Observer>(
    world: &mut World,
    script: &Script,
    observer: &mut O,
) -> Result<(), TextFault>
    requires ready { O.ready observer.old }
    requires world { Stands script.now.config [] world.old }
    ensures ready { OnOk result (O.ready observer.new) }
    ensures saw { O.saw observer.old observer.new result (played script.now) }
{
    for (index, event) in script.events.as_slice().iter().enumerate() {
        play_script_event(world, index as u64, event, observer)?;
    }
    Ok(())
}

fn play_script_event<O: Observer>(
    world: &mut World,
    index: u64,
    event: &ScriptEvent,
    observer: &mut O,
) -> Result<(), TextFault>
    requires { O.ready observer.old }
    ensures ready { OnOk result (O.ready observer.new) }
    ensures plays { StandingFor world.old (λ config past. PlaysAll O.saw config
        (left_by config index past event.now) world.new observer.old observer.new result) }
{
    match event {
        ScriptEvent::Core(event) => {
            let _accepted = play_event(world, index, event, observer)?;
            Ok(())
        }
        ScriptEvent::Settle => {
            observer.see_settle_begin();
            play_rounds(world, index, observer)?;
            observer.see_settle_end(index)
        }
    }
}

// Plays two rounds, or one in which an event was refused.
fn play_rounds<O: Observer>(
    world: &mut World,
    index: u64,
    observer: &mut O,
) -> Result<(), TextFault>
    requires { O.ready observer.old }
    ensures ready { OnOk result (O.ready observer.new) }
    ensures plays { StandingFor world.old (λ config past. PlaysAll O.saw config
        (settled config index past) world.new observer.old observer.new result) }
{
    if play_round(world, index, observer)? {
        let _accepted = play_round(world, index, observer)?;
    }
    Ok(())
}

// Plays one round, slot by slot of those that are due at its beginning. Returns whether no event was refused.
fn play_round<O: Observer>(
    world: &mut World,
    index: u64,
    observer: &mut O,
) -> Result<bool, TextFault>
    requires { O.ready observer.old }
    ensures ready { OnOk result (O.ready observer.new) }
    ensures plays { StandingFor world.old (λ config past. Plays O.saw config
        (round_left config index past) world.new observer.old observer.new result) }
{
    let mut due = world.due()?;
    'slots: while let Some(slot) = next_slot(world, &mut due, observer) {
        if !play_slot(world, index, &slot, observer)? {
            return Ok(false);
        }
    }
    Ok(true)
}

// Takes off the next slot, if there is one. If the observer overlooks silent events, the slots before it were settled by such.
fn next_slot<O: Observer>(world: &mut World, due: &mut DueSlots, observer: &O) -> Option<DueSlot>
    ensures some { IfSome result (λ slot. Skips O.saw O.ready observer.now
        world.old due.old (slot ∷ due.new) world.new) }
    ensures none { IfNone result (Skips O.saw O.ready observer.now world.old due.old [] world.new) }
    ensures fewer { IsSome result → length due.new < length due.old }
{
    if !observer.overlooks_silence() {
        return due.pop_front();
    }
    // (most slots yield no news)
    world.settle_while_silent(due);
    due.pop_front()
}

// Plays the four events that settle a slot, up to the first that is refused. Returns whether none was refused.
#[inline(always)]
fn play_slot<O: Observer>(
    world: &mut World,
    index: u64,
    slot: &DueSlot,
    observer: &mut O,
) -> Result<bool, TextFault>
    requires { O.ready observer.old }
    ensures ready { OnOk result (O.ready observer.new) }
    ensures plays { StandingFor world.old (λ config past. Plays O.saw config
        (tried config index past (events_from world.old slot.now)) world.new observer.old observer.new result) }
{
    let carry = world.frame_count(slot.from);
    let took = world.frame_count(slot.to);
    let events = slot.events(carry, took);
    play_events(world, index, &events, observer)
}

// Plays these events up to the first that is refused. Returns whether none was refused.
fn play_events<O: Observer>(
    world: &mut World,
    index: u64,
    events: &[Event],
    observer: &mut O,
) -> Result<bool, TextFault>
    requires { O.ready observer.old }
    ensures ready { OnOk result (O.ready observer.new) }
    ensures plays { StandingFor world.old (λ config past. Plays O.saw config
        (tried config index past events.now) world.new observer.old observer.new result) }
{
    for event in events {
        if !play_event(world, index, event, observer)? {
            return Ok(false);
        }
    }
    Ok(true)
}

// Takes one event. Returns whether it was accepted.
#[inline(always)]
fn play_event<O: Observer>(
    world: &mut World,
    index: u64,
    event: &Event,
    observer: &mut O,
) -> Result<bool, TextFault>
    requires { O.ready observer.old }
    ensures ready { OnOk result (O.ready observer.new) }
    ensures plays { StandingFor world.old (λ config past. Plays O.saw config
        (one_left config index past event.now) world.new observer.old observer.new result) }
{
    // (most events are silent)
    if observer.overlooks_silence() {
        if world.step_if_silent(event) {
            return Ok(true);
        }
    }
    // (the reply is not moved, since nothing here keeps it)
    show_reply(index, event, &world.step(event), observer)
}

// Shows the reply to an event. Returns whether it was accepted.
fn show_reply<O: Observer>(
    index: u64,
    event: &Event,
    reply: &Reply,
    observer: &mut O,
) -> Result<bool, TextFault>
    requires { O.ready observer.old }
    ensures ready { OnOk result (O.ready observer.new) }
    ensures shows { ShowsReply O.saw index event.now reply.now observer.old observer.new result }
{
    if is_want_of_memory(reply) {
        return Err(TextFault::Memory);
    }
    observer.see_event(index, event, reply)?;
    Ok(reply.is_ok())
}
