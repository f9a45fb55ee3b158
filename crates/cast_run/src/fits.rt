//! Whether the jobs, gates and plan given for a group fit it.
ghost use Rattle.std.specs.Prelude.{◌≢◌, IfOk, IfErr, IfSome, IfNone, OnOk, OnErr};
ghost use Rattle.cast_message.specs.declared.live_fault.LiveFault.TheVariants.{Threads};
ghost use Rattle.cast_run.specs.Faults.{Fits, IsFaultOf, IsMisfit};
ghost use Rattle.cast_run.specs.Jobs.{IsCount};

use crate::jobs::{JobCounts, count_jobs};
use cast_carrier::is_planned;
use cast_message::{Config, FaultPlan, LiveFault, NodeId};

/// How many jobs each node has, or why the group is not run: the same cause that `find_misfit` returns. It allocates
/// nothing.
pub fn count_fitting<J>(
    config: &Config,
    plan: &FaultPlan,
    jobs: &[(NodeId, J)],
    gates: usize,
) -> Result<JobCounts, LiveFault>
    ensures counts { IfOk result (IsCount 64 jobs.now) }
    ensures fits { OnOk result (Fits config.now.nodes jobs.now gates plan.now.faults) }
    ensures fault { IfErr result (IsFaultOf config.now.nodes jobs.now gates plan.now.faults) }
    ensures misfit { OnErr result (¬ Fits config.now.nodes jobs.now gates plan.now.faults) }
    ensures alone { IfErr result (λ fault. fault ≢ Threads) }
{
    let nodes = config.nodes();
    let Some(counts) = count_jobs(nodes, jobs) else {
        return Err(LiveFault::Jobs);
    };
    if gates as u64 != nodes {
        return Err(LiveFault::Gates);
    }
    if !is_planned(nodes, plan.faults.as_slice()) {
        return Err(LiveFault::Plan);
    }
    Ok(counts)
}

/// Why a group is not run with these, as far as that shows before anything is started: the first cause that holds, or
/// none if all fits. It allocates nothing.
pub fn find_misfit<J>(
    config: &Config,
    plan: &FaultPlan,
    jobs: &[(NodeId, J)],
    gates: usize,
) -> Option<LiveFault>
    ensures fits { IfNone result (Fits config.now.nodes jobs.now gates plan.now.faults) }
    ensures misfit { IfSome result (IsMisfit config.now.nodes jobs.now gates plan.now.faults) }
{
    count_fitting(config, plan, jobs, gates).err()
}
