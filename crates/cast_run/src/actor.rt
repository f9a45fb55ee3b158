//! What takes steps until it has ended, in a thread of its own or in turn with others.
ghost use Rattle.std.specs.Prelude.{◌≡◌};
ghost use Rattle.cast_box.specs.Lists.{HasTakenOfEnded};
ghost use Rattle.cast_carrier.specs.Carriers.{IsSameCarrier};
ghost use Rattle.cast_run.specs.Actors.{ComesFrom, StaysFrom};
ghost use Rattle.cast_run.specs.declared.actor.Step.TheVariants.{Ended};

use cast_carrier::{Board, CARRIER_PAUSE, Carrier, Pause, Waiting};
use std::sync::Wait;

/// The result of a step.
#[derive(Clone, Copy)]
pub enum Step {
    /// Something was done.
    Moved,
    /// There was nothing to do, or others should have the processor.
    Idle,
    /// It takes no more steps, and the board says so.
    Ended,
}

/// An engine, a carrier or a job: it takes one step after another.
pub trait Actor {
    /// The second is the first, some steps later.
    ghost from: { Self → Self → Type 0 };

    /// Takes a step. An actor that has ended does nothing, and returns `Ended` again.
    fn step<R: Wait>(&mut self, rt: &R, board: &Board) -> Step
        requires { ComesFrom from self.old }
        ensures same { StaysFrom from self.old self.new };

    /// How its thread waits after an idle step.
    fn pause(&self) -> Pause;
}

/// Runs an actor's steps until it has ended.
pub fn run_actor<A: Actor, R: Wait>(rt: &R, mut actor: A, board: &Board) -> A
    requires { A.from actor actor }
    ensures { A.from actor result }
{
    let mut waiting = Waiting::new();
    for _ in rt.forever() {
        if !step_on(rt, &mut actor, board, &mut waiting) {
            break;
        }
    }
    actor
}

// Runs one step of an actor, and waits if it was idle. Returns whether the actor goes on.
fn step_on<A: Actor, R: Wait>(rt: &R, actor: &mut A, board: &Board, waiting: &mut Waiting) -> bool
    requires { ComesFrom A.from actor.old }
    ensures { StaysFrom A.from actor.old actor.new }
{
    match actor.step(rt, board) {
        Step::Moved => waiting.found(),
        Step::Idle => waiting.wait(rt, actor.pause()),
        Step::Ended => return false,
    }
    true
}

impl Actor for Carrier {
    ghost use Rattle.cast_carrier.specs.Carriers.{IsSameCarrier};

    ghost from = { IsSameCarrier };

    // Carries a parcel. If there was none, although its engine had ended before or the run was given up, the carrier
    // has ended and its outbox is empty.
    fn step<R: Wait>(&mut self, rt: &R, board: &Board) -> Step
        requires { ComesFrom IsSameCarrier self.old }
        ensures same { StaysFrom IsSameCarrier self.old self.new }
        ensures empty { result ≡ Ended →
            HasTakenOfEnded self.new.outbox.ended self.new.outbox.taken }
    {
        let node = usize::from(self.node().0);
        let last = board.has_ended(node);
        if self.carry(rt) {
            return Step::Moved;
        }
        if !last {
            return Step::Idle;
        }
        board.settle(node);
        Step::Ended
    }

    fn pause(&self) -> Pause {
        CARRIER_PAUSE
    }
}
