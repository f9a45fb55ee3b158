//! Everything in a group that takes steps, and how it takes them in the order of a schedule.
ghost use Rattle.std.specs.Prelude.{IfOk};
ghost use Rattle.cast_run.specs.Actors.{AreStill, CameBack, ComesFrom, HaveBegun, StaysFrom};
ghost use Rattle.cast_run.specs.Fairly.{AreSameBut, ChangesOnly, RanFairly};

use crate::actor::{Actor, Step};
use crate::engine_actor::EngineActor;
use crate::job::ClientJob;
use crate::jobs::Seat;
use crate::limits::Steps;
use crate::schedule::Schedule;
use crate::waits::{Place, Waits};
use cast_carrier::{Board, Carrier};
use cast_engine::Gate;
use std::alloc::{AllocError, Global};
use std::sync::Wait;

/// An engine and a carrier for each node of a group, and a job for each of its clients.
#[derive(Drop)]
pub struct Actors<J, G> {
    pub engines: Vec<EngineActor<G>>,
    pub carriers: Vec<Carrier>,
    pub jobs: Vec<Seat<J>>,
}

impl<J: ClientJob + Drop, G: Gate + Drop> Actors<J, G> {
    // Runs one step of one actor. Returns whether it has another.
    fn step<R: Wait>(&mut self, rt: &R, board: &Board, place: Place) -> bool
        requires { ComesFrom (CameBack J.fact) self.old }
        ensures same { StaysFrom (CameBack J.fact) self.old self.new }
        ensures only { ChangesOnly place self.old self.new }
    {
        match place {
            Place::Engine(node) => step_at(rt, board, &mut self.engines, node),
            Place::Carrier(node) => step_at(rt, board, &mut self.carriers, node),
            Place::Job(place) => step_at(rt, board, &mut self.jobs, place),
        }
    }
}

fn step_at<A: Actor, R: Wait>(rt: &R, board: &Board, actors: &mut Vec<A>, place: usize) -> bool
    requires { ComesFrom (AreStill A.from) actors.old.items }
    ensures same { StaysFrom (AreStill A.from) actors.old.items actors.new.items }
    ensures only { AreSameBut place actors.old.items actors.new.items }
{
    if place >= actors.len() {
        return false;
    }
    let actor = &mut actors[place];
    match actor.step(rt, board) {
        Step::Moved | Step::Idle => true,
        Step::Ended => false,
    }
}

/// Runs the actors in this thread, one step at a time, until all have ended or as many steps were taken as they may. The
/// schedule chooses who is next, unless an actor has waited too long. So at each moment each actor has ended, or has waited
/// for fewer steps than the longest wait and the number of actors make (`fair`).
pub fn run_by<J: ClientJob + Drop, G: Gate + Drop, S: Schedule, R: Wait>(
    rt: &R,
    alloc: Global,
    mut actors: Actors<J, G>,
    board: &Board,
    steps: Steps,
    schedule: &mut S,
) -> Result<Actors<J, G>, AllocError>
    requires begun { HaveBegun J.fact actors.jobs.items }
    ensures back { IfOk result (CameBack J.fact actors) }
    ensures fair { IfOk result (RanFairly steps.longest_wait actors) }
{
    let mut waits = Waits::new(
        alloc,
        actors.engines.len(),
        actors.jobs.len(),
        steps.longest_wait,
    )?;
    for _ in 0..steps.most {
        let Some(place) = waits.next(schedule) else {
            break;
        };
        if !actors.step(rt, board, waits.at(place)) {
            waits.end(place);
        }
    }
    Ok(actors)
}
