//! Everything a run needs before its first step.
ghost use Rattle.std.specs.Prelude.{◌≡◌, ◌≢◌, ℕ, length, map, slice_get, Some, IfOk, IfErr, OnOk, vec_len};
ghost use Rattle.cast_message.specs.declared.live_fault.LiveFault.TheVariants.{Threads};
ghost use Rattle.cast_run.specs.declared.jobs.Seat.{Seat};
ghost use Rattle.cast_run.specs.Faults.{JobsFit, Fits, IsFaultOf};
ghost use Rattle.cast_run.specs.Group.{IsGroup, AreSetUp};
ghost use Rattle.cast_run.specs.Fresh.{HaveDesksOf};
ghost use Rattle.cast_run.specs.Planned.{faults_of, HaveFaults};
ghost use Rattle.cast_run.specs.Jobs.{IsCount};
ghost use Rattle.cast_run.specs.Ready.{IsReady};
ghost use Rattle.cast_run.specs.Reports.{AreSeated};
ghost use Rattle.cast_run.specs.Seats.{seat_job, seat_client, IsFreshSeat};

use crate::actors::Actors;
use crate::desks::make_desks;
use crate::engine_actor::EngineActor;
use crate::fits::count_fitting;
use crate::jobs::{Seat, seat_jobs};
use crate::limits::Limits;
use crate::make::{Group, make_group};
use crate::room::Room;
use cast_carrier::{Board, Carrier};
use cast_engine::Engine;
use cast_message::{Config, Fault, FaultPlan, LiveFault, NodeId};
use std::alloc::{AllocError, Global};
use std::sync::Arc;

/// The actors of a group, the board where they post that they have ended, and room for what they leave.
#[derive(Drop)]
pub struct Prepared<J, G> {
    pub actors: Actors<J, G>,
    pub board: Arc<Board, Global>,
    pub room: Room<J>,
}

/// What runs these jobs with these gates, or why they are not run.
pub fn prepare<J: Drop, G: Drop>(
    alloc: Global,
    config: &Config,
    plan: &FaultPlan,
    jobs: Vec<(NodeId, J)>,
    gates: Vec<G>,
    limits: Limits,
) -> Result<Prepared<J, G>, LiveFault>
    ensures ready { IfOk result (λ made.
        IsReady config.now plan.now.faults jobs.items made.actors made.room) }
    ensures fits { OnOk result
        (Fits config.now.nodes jobs.items (vec_len gates) plan.now.faults) }
    ensures fault { IfErr result
        (IsFaultOf config.now.nodes jobs.items (vec_len gates) plan.now.faults) }
    ensures alone { IfErr result (λ fault. fault ≢ Threads) }
{
    let nodes = config.nodes() as usize;
    let counts = count_fitting(config, plan, jobs.as_slice(), gates.len())?;
    let counts = &counts[..nodes];
    let room = Room::new(alloc, counts, jobs.len())?;
    let board = make_board(alloc, counts)?;
    let (group, jobs) = make_actors(alloc, config, plan.faults.as_slice(), limits, jobs, counts)?;
    let engines = add_gates(alloc, group.engines, gates, &board)?;
    Ok(Prepared {
        actors: Actors {
            engines,
            carriers: group.carriers,
            jobs,
        },
        board,
        room,
    })
}

fn make_board(alloc: Global, counts: &[u64]) -> Result<Arc<Board, Global>, AllocError> {
    let board = Arc::new(alloc, Board::new(alloc, counts)?)?;
    Ok(board)
}

// A group with boxes of the configuration's size, and the jobs with their clients. Each node has as many jobs as its
// count says.
fn make_actors<J: Drop>(
    alloc: Global,
    config: &Config,
    faults: &[Fault],
    limits: Limits,
    jobs: Vec<(NodeId, J)>,
    counts: &[u64],
) -> Result<(Group, Vec<Seat<J>>), AllocError>
    requires fit { JobsFit config.now.nodes jobs.items }
    requires counted { IsCount config.now.nodes jobs.items counts.now }
    ensures group { IfOk result (λ r. IsGroup r.0.engines.items r.0.carriers.items
        × (length r.0.engines.items ≡ config.now.nodes)
        × (length r.0.carriers.items ≡ config.now.nodes)) }
    ensures set { IfOk result (λ r. AreSetUp config.now faults.now r.0.engines.items) }
    ensures plan { IfOk result (λ r. HaveFaults (faults_of faults.now) r.0.carriers.items) }
    ensures desks { IfOk result (λ r. HaveDesksOf config.now.box_size r.0.engines.items) }
    ensures seated { IfOk result (λ r.
        AreSeated r.0.engines.items (map seat_client r.1.items)) }
    ensures jobs { IfOk result (λ r. map seat_job r.1.items ≡ jobs.items) }
    ensures fresh { IfOk result (λ r. (i : ℕ) (s : Seat J) → slice_get r.1.items i ≡ Some s →
        IsFreshSeat s) }
{
    let (desks, waiting) = make_desks(alloc, config.box_size(), counts)?;
    let seats = Vec::with_capacity(alloc, jobs.len())?;
    let group = make_group(alloc, config, faults, limits.turns, desks)?;
    let seats = seat_jobs(jobs, waiting, seats, limits.calls);
    Ok((group, seats))
}

// The engines with their gates.
fn add_gates<G: Drop>(
    alloc: Global,
    engines: Vec<Engine>,
    gates: Vec<G>,
    board: &Board,
) -> Result<Vec<EngineActor<G>>, AllocError>
    requires { length gates.items ≡ length engines.items }
    ensures { IfOk result (λ actors. actors.items ≡ engines.items) }
{
    let mut gates = gates.into_iter();
    let mut actors = Vec::new(alloc);
    for engine in engines {
        let gate = gates.next().unwrap();
        let actor = EngineActor::new(alloc, engine, gate, actors.len(), board)?;
        actors.push(actor)?;
    }
    Ok(actors)
}
