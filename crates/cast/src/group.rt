//! Runs a group of jobs with the usual gates and limits.
ghost use Rattle.std.specs.Prelude.{◌≡◌, [], ℕ, false, slice_get, Some, IfOk, IfErr, OnOk};
ghost use Rattle.cast_run.specs.Faults.{Fits, IsFaultOf};
ghost use Rattle.cast_run.specs.Jobs.{told_job};
ghost use Rattle.cast_run.specs.Ran.{IsRun};

use cast_message::{Config, NodeId};
use cast_run::{
    ClientJob, Limits, LiveFault, LiveRun, OpenGate, Seeded, find_misfit, run_live, run_scheduled,
};
use cast_script::FaultPlan;
use std::alloc::Global;
use std::sync::Wait;
use std::thread::Threads;

/// By default, an engine takes this many turns at most, and a job is called this often at most. A job that waits is
/// called some hundred times in one turn of its engine.
pub const USUAL_LIMITS: Limits = Limits {
    turns: 4_000_000,
    calls: 400_000_000,
};

/// By default, a run by a seed takes this many steps at most.
pub const USUAL_STEPS: u64 = 100_000_000;

/// Runs a group in threads as `run_live` does, with gates that let every turn pass, and `USUAL_LIMITS`. The result
/// (`ran`) and the refusals are those of `run_live`.
pub fn run_group<J: ClientJob + Send + Drop + 'static, R: Threads + Wait + Copy + Send + 'static>(
    rt: R,
    alloc: Global,
    config: Config,
    plan: &FaultPlan,
    jobs: Vec<(NodeId, J)>,
) -> Result<LiveRun<J>, LiveFault>
    requires facts { (i node : ℕ) (job : J) → slice_get jobs.items i ≡ Some (told_job node job)
        → J.fact job job [] [] false }
    ensures ran { IfOk result (IsRun config plan.now.faults J.fact jobs.items) }
    ensures fits { OnOk result (Fits config.nodes jobs.items config.nodes plan.now.faults) }
    ensures fault { IfErr result
        (IsFaultOf config.nodes jobs.items config.nodes plan.now.faults) }
{
    // A misfit is reported before any memory is allocated.
    if let Some(misfit) = find_misfit(&config, plan, jobs.as_slice(), config.nodes() as usize) {
        return Err(misfit);
    }
    let gates = OpenGate::for_nodes(alloc, config.nodes())?;
    run_live(rt, alloc, config, plan, jobs, gates, USUAL_LIMITS)
}

/// Runs a group in the calling thread as `run_scheduled` does, by the schedule of a seed, as `castgroup live --seed`
/// does. Gates let every turn pass; `USUAL_LIMITS` and `USUAL_STEPS` apply. The same seed makes the same run. The
/// result has the same clauses as in threads.
pub fn run_group_by_seed<J: ClientJob + Drop, R: Wait>(
    rt: &R,
    alloc: Global,
    config: Config,
    plan: &FaultPlan,
    jobs: Vec<(NodeId, J)>,
    seed: u64,
) -> Result<LiveRun<J>, LiveFault>
    requires facts { (i node : ℕ) (job : J) → slice_get jobs.items i ≡ Some (told_job node job)
        → J.fact job job [] [] false }
    ensures ran { IfOk result (IsRun config plan.now.faults J.fact jobs.items) }
    ensures fits { OnOk result (Fits config.nodes jobs.items config.nodes plan.now.faults) }
    ensures fault { IfErr result
        (IsFaultOf config.nodes jobs.items config.nodes plan.now.faults) }
{
    if let Some(misfit) = find_misfit(&config, plan, jobs.as_slice(), config.nodes() as usize) {
        return Err(misfit);
    }
    let gates = OpenGate::for_nodes(alloc, config.nodes())?;
    let mut schedule = Seeded::mixed(seed);
    run_scheduled(
        rt,
        alloc,
        config,
        plan,
        jobs,
        gates,
        USUAL_LIMITS,
        USUAL_STEPS,
        &mut schedule,
    )
}
