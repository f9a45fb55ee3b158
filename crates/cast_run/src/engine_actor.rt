//! An engine with what it uses in its turns.
ghost use Rattle.std.specs.Prelude.{◌≡◌, IfOk};
ghost use Rattle.cast_box.specs.Ends.{IsNextToEnd};
ghost use Rattle.cast_engine.specs.Engines.{IsSameEngine, Leaves, Tells, WereTold, trays_at, with_ended};
ghost use Rattle.cast_run.specs.Actors.{ComesFrom, StaysFrom};

use crate::actor::{Actor, Step};
use cast_box::Putter;
use cast_carrier::{Board, Pause};
use cast_engine::{Engine, EngineParts, Gate, Quiet, Turn};
use cast_journal::Parcel;
use std::alloc::{AllocError, Global};
use std::marker::Model;
use std::sync::Wait;

/// An engine with its gate, and its word on the board. Contracts see the engine.
#[derive(Drop)]
pub struct EngineActor<G> {
    engine: Engine,
    gate: G,
    quiet: Quiet,
}

impl<G> Model for EngineActor<G> {
    ghost use Rattle.cast_engine.specs.Engines.{EngineState};
    ghost use Rattle.cast_engine.specs.contracts.engine.Engine as engines;

    ghost Value = { EngineState };

    ghost coded = { engines.the_row.coded };

    ghost view = { λ a. a.engine };
}

impl<G: Drop> EngineActor<G> {
    /// The engine of a node, with this gate.
    pub fn new(
        alloc: Global,
        engine: Engine,
        gate: G,
        node: usize,
        board: &Board,
    ) -> Result<EngineActor<G>, AllocError>
        ensures { IfOk result (λ a. a ≡ engine) }
    {
        let quiet = Quiet::new(alloc, node, board.len())?;
        Ok(EngineActor {
            engine,
            gate,
            quiet,
        })
    }

    /// Ends the next putter of the inbox.
    pub fn end_inbox(&mut self, putter: Putter<Parcel>)
        requires { IsNextToEnd putter self.old.inbox }
        ensures { self.new ≡ with_ended self.old putter.put }
    {
        self.engine.end_inbox(putter);
    }

    pub fn into_parts(self) -> EngineParts
        ensures ends { (result.outbox ≡ self.outbox) × (result.inbox ≡ self.inbox)
            × (result.desk ≡ self.desk) }
        ensures leaves { Leaves self result.log result.node result.ended }
        ensures tells { Tells self result.log result.node }
        ensures told { WereTold result.log (trays_at self.desk) }
    {
        let EngineActor { engine, .. } = self;
        engine.into_parts()
    }
}

impl<G: Gate> Actor for EngineActor<G> {
    ghost use Rattle.cast_engine.specs.Engines.{IsSameEngine};

    ghost from = { IsSameEngine };

    // Takes a turn, unless the run was given up.
    #[tactic(auto, using(cast_engine::proofs::Again::engine_again))]
    fn step<R: Wait>(&mut self, rt: &R, board: &Board) -> Step
        requires { ComesFrom IsSameEngine self.old }
        ensures same { StaysFrom IsSameEngine self.old self.new }
    {
        if board.is_abandoned() {
            self.quiet.end(board, false);
            return Step::Ended;
        }
        let turn = self.engine.turn(rt, &mut self.gate, board, &mut self.quiet);
        match turn {
            Turn::Moved => Step::Moved,
            Turn::Idle => Step::Idle,
            Turn::Stopped => {
                self.quiet.end(board, true);
                Step::Ended
            }
            Turn::Ended => {
                self.quiet.end(board, false);
                Step::Ended
            }
        }
    }

    fn pause(&self) -> Pause {
        self.engine.pause()
    }
}
