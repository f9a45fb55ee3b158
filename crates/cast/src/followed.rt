//! A group of followers after its run, with machines that have taken all that their nodes delivered.
ghost use Rattle.std.specs.Prelude.{◌≡◌, ℕ, List, slice_get, IfOk, IfErr, OnOk};
ghost use Rattle.cast_message.specs.declared.config.Config.{Config as Configured};
ghost use Rattle.cast_run.specs.Faults.{Fits, IsFaultOf};
ghost use Rattle.cast_message.specs.declared.plan.Fault.{Fault};
ghost use Rattle.cast.specs.declared.follower.Follower.{Follower as Following};
ghost use Rattle.cast.specs.Followers.{FollowerFact, AreNewFollowers};
ghost use Rattle.cast_run.specs.Ran.{IsRun};
ghost use Rattle.cast.specs.Followed.{AreCaughtUp, IsFollowed, told_by};

use crate::follower::Follower;
use crate::followers::Followers;
use crate::group::{run_group, run_group_by_seed};
use crate::machine::Machine;
use cast_desk::{Notice, feed};
use cast_merge::{Assembly, assemble};
use cast_message::{Config, List};
use cast_node::{GroupReport, NodeReport};
use cast_run::{ClientReport, LiveFault, LiveRun};
use cast_script::FaultPlan;
use std::alloc::{AllocError, Global};
use std::sync::Wait;
use std::thread::Threads;

/// What a group of followers gives back.
#[derive(Drop)]
pub struct Followed<M> {
    /// The machines, in the order their followers were added. Each has taken all that its node delivered.
    pub machines: Vec<M>,
    /// The node of each follower and what happened to its items, in the same order.
    pub clients: Vec<ClientReport>,
    /// How each node ended, with its log and its state.
    pub report: GroupReport,
    /// What all nodes did, as one list of events, with the replies, and the group after them. Its `world.at_rest()`
    /// says whether the group is at rest, and `world.live(node)` whether a node has not crashed.
    pub assembly: Assembly,
}

/// Runs a group of followers in threads, as `run_group` does, and merges what its nodes logged. A follower passes what
/// it hears to its machine while the group runs. After all threads have ended, the machine takes what its node
/// delivered after the follower was done. The run is refused as `run_group` is.
///
/// So each machine has taken exactly what its node delivered, in order: from each sender a prefix of its broadcast,
/// each item once. At rest live nodes have delivered the same from each sender. In uniform mode, that needs `faults` to
/// be 0, or at most `faults` crashed nodes.
pub fn run_followers<M: Machine + Send + Drop + 'static, R: Threads + Wait + Copy + Send + 'static>(
    rt: R,
    alloc: Global,
    config: Config,
    plan: &FaultPlan,
    followers: Followers<M>,
) -> Result<Followed<M>, LiveFault>
    ensures followed { IfOk result (IsFollowed M.stands config plan.now.faults followers) }
    ensures fits { OnOk result (Fits config.nodes followers config.nodes plan.now.faults) }
    ensures fault { IfErr result
        (IsFaultOf config.nodes followers config.nodes plan.now.faults) }
{
    let live = run_group(rt, alloc, config, plan, followers.into_jobs())?;
    Ok(conclude(alloc, live)?)
}

/// Runs a group of followers in the calling thread, as `run_group_by_seed` does; the same seed makes the same run. The
/// result has the same clauses as in threads.
pub fn run_followers_by_seed<M: Machine + Drop, R: Wait>(
    rt: &R,
    alloc: Global,
    config: Config,
    plan: &FaultPlan,
    followers: Followers<M>,
    seed: u64,
) -> Result<Followed<M>, LiveFault>
    ensures followed { IfOk result (IsFollowed M.stands config plan.now.faults followers) }
    ensures fits { OnOk result (Fits config.nodes followers config.nodes plan.now.faults) }
    ensures fault { IfErr result
        (IsFaultOf config.nodes followers config.nodes plan.now.faults) }
{
    let live = run_group_by_seed(rt, alloc, config, plan, followers.into_jobs(), seed)?;
    Ok(conclude(alloc, live)?)
}

// Merges the logs, and lets each machine take the rest of what its node delivered.
fn conclude<M: Machine + Drop>(
    alloc: Global,
    run: LiveRun<Follower<M>>,
) -> Result<Followed<M>, AllocError>
    ensures { IfOk result (λ followed.
        (config : Configured) (faults : List Fault) (followers : List (ℕ × Following M))
        → IsRun config faults (FollowerFact M.stands) followers run
        → AreNewFollowers M.stands followers
        → IsFollowed M.stands config faults followers followed) }
{
    let LiveRun {
        report,
        clients,
        jobs,
    } = run;
    let assembly = assemble(alloc, &report)?;
    let machines = catch_up(alloc, report.reports(), clients.as_slice(), jobs)?;
    Ok(Followed {
        machines,
        clients,
        report,
        assembly,
    })
}

// The machine of each follower, after it has taken what its client was sent but it has not yet heard.
fn catch_up<M: Machine + Drop>(
    alloc: Global,
    reports: &[NodeReport],
    clients: &[ClientReport],
    followers: Vec<Follower<M>>,
) -> Result<Vec<M>, AllocError>
    ensures { IfOk result (λ machines.
        AreCaughtUp M.stands reports.now clients.now followers.items machines.items) }
{
    let mut machines = Vec::new(alloc);
    for follower in followers {
        let told = told_to(alloc, reports, clients, machines.len())?;
        machines.push(follower.caught_up(told.as_slice()))?;
    }
    Ok(machines)
}

// All that the log of its node says to the client at this place, if both exist.
fn told_to(
    alloc: Global,
    reports: &[NodeReport],
    clients: &[ClientReport],
    place: usize,
) -> Result<List<Notice>, AllocError>
    ensures { IfOk result (λ told. told ≡ told_by reports.now (slice_get clients.now place)) }
{
    let Some(client) = clients.get(place) else {
        return Ok(List::new(alloc));
    };
    let Some(report) = reports.get(usize::from(client.node.0)) else {
        return Ok(List::new(alloc));
    };
    feed(alloc, &report.log, client.client)
}
