//! Runs the group of a script, and reports what happened to it.
ghost use Rattle.std.specs.Prelude.{◌≡◌, ◌<◌, ◌++◌, ◌∷◌, [], false, length, IfOk, IfErr, IsSome, OnOk, map, vec_len};
ghost use Rattle.cast_run.specs.Faults.{Fits, IsFaultOf};
ghost use Rattle.cast_run.specs.Jobs.{told_job};
ghost use Rattle.cast_run.specs.Ran.{IsRun};
ghost use Rattle.cast_run.specs.SubmitAll.{SubmitsGiven};
ghost use Rattle.cast_text.specs.Text.{TakesInput, Tells};
ghost use Rattle.cast_live.specs.Live.{events_of, IsFinished, IsNewJob, AreNewJobs, items_of, IsOfRunning, IsRunOf};
ghost use Rattle.cast_live.specs.Replayed.{RecordsReplay};
ghost use Rattle.cast_live.specs.Outputs.{AreSound, RunsGroup, is_of_output};

use crate::outputs::RunOutputs;
use crate::summary::Summary;
use crate::verdict::judge_run;
use cast_log::{EntryKind, KindRef, Log};
use cast_message::{Config, Item, List, NodeId};
use cast_node::GroupReport;
use cast_record::Meter;
use cast_run::{
    ClientReport, CountingGate, LiveFault, LiveRun, Progress, Schedule, SubmitAll, find_misfit,
    run_live, run_scheduled,
};
use cast_script::{FaultPlan, Script};
use cast_text::{TextFault, read_script_text};
use cast_world::World;
use std::alloc::{AllocError, Global};
use std::io::{Read, Write};
use std::sync::{Arc, Wait};
use std::thread::Threads;

/// The result of a run. Its merged logs say what happened: the group as a whole takes these events, and their record is
/// judged. Neither is kept.
#[derive(Drop)]
pub struct FinishedRun {
    pub report: GroupReport,
    /// The group after these events.
    pub world: World,
    pub summary: Summary,
    /// How many orders its nodes' desks had left.
    pub left: u64,
}

/// How a group is run.
#[derive(Drop)]
pub enum Way<S> {
    /// In threads.
    Threads,
    /// In the calling thread, in the order of a schedule. The run takes at most as many steps as its turns, its calls
    /// and its carriers' parcels may need.
    By(S),
}

/// Reads a script to its end, runs its group with its plan and a client for each of its jobs, and writes the requested
/// texts. The script's events are not used. Nothing is written before the run has ended; until then `progress` shows
/// another thread how far it is.
///
/// After `Write` or `Memory` each writer has a prefix of its text; after any other fault it has nothing.
pub fn live_text<
    R: Read,
    S: Write,
    F: Write,
    C: Schedule + Drop,
    T: Threads + Wait + Copy + Send + 'static,
>(
    rt: T,
    alloc: Global,
    reader: &mut Meter<R>,
    outputs: &mut RunOutputs<S, F>,
    progress: &Arc<Progress, Global>,
    way: Way<C>,
) -> Result<FinishedRun, TextFault>
    requires { (reader.old.failed ≡ false) × AreSound outputs.old }
    // It is a run of the script that was read, and each writer has exactly its text of that run; or the fault's cause
    // holds.
    ensures exact { RunsGroup (R.remaining reader.old.inner) reader.new.failed
        S.contents F.contents outputs.old outputs.new result }
    // Running the written script, if it is not too long for an input, writes the record of the run, in which no line is
    // a refusal.
    ensures law { IfOk result (λ run. IsSome outputs.old.replay
        → RecordsReplay run.report.config (events_of run)) }
    // Only what failed is reported.
    ensures told { Tells result reader.new.failed (is_of_output result) }
    ensures taken { TakesInput (R.remaining reader.old.inner) (R.remaining reader.new.inner) }
{
    let script = read_script_text(alloc, reader)?;
    progress.expect(count_due(&script));
    let run = run_script(rt, alloc, script, progress, way)?;
    outputs.write(alloc, &run)?;
    Ok(run)
}

// How many deliveries a run of the script can make: each item at each node. A run where a node does not stop by itself,
// or an item is refused, may make fewer.
fn count_due(script: &Script) -> u64 {
    let mut items = 0u64;
    for (_node, job) in script.jobs.as_slice() {
        items = items.saturating_add(job.as_slice().len() as u64);
    }
    items.saturating_mul(script.config.nodes())
}

// The number of steps that a group's turns, calls and carriers' parcels may need.
fn count_steps(script: &Script) -> u64 {
    let jobs = script.jobs.as_slice().len() as u64;
    let all = jobs.saturating_add(2 * script.config.nodes());
    script.turns.saturating_mul(all)
}

// Runs the group of a script, with its plan and a client for each of its jobs, and merges its logs. All threads have
// ended when it returns. `Live` says that the group does not fit the jobs and plan, or a thread did not start. `Memory`
// is only for lack of memory.
fn run_script<S: Schedule + Drop, T: Threads + Wait + Copy + Send + 'static>(
    rt: T,
    alloc: Global,
    script: Script,
    progress: &Arc<Progress, Global>,
    way: Way<S>,
) -> Result<FinishedRun, TextFault>
    ensures config { IfOk result (λ run. run.report.config ≡ script.config) }
    ensures ran { IfOk result (λ run. IsRunOf script run.report.reports) }
    ensures ok { IfOk result IsFinished }
    ensures err { IfErr result (IsOfRunning script) }
{
    let steps = count_steps(&script);
    let Script {
        config,
        turns,
        plan,
        jobs,
        ..
    } = script;
    // A misfit is reported before any memory is requested.
    if let Some(misfit) = find_misfit(&config, &plan, jobs.as_slice(), config.nodes() as usize) {
        return Err(TextFault::from(misfit));
    }
    let gates = CountingGate::for_nodes(alloc, config.nodes(), progress)?;
    let jobs = submit_all(alloc, jobs)?;
    let run = run_jobs(rt, alloc, config, &plan, jobs, gates, turns, steps, way)?;
    Ok(merge_logs(alloc, run)?)
}

// Runs the jobs of a script, in threads or by a schedule.
fn run_jobs<S: Schedule + Drop, T: Threads + Wait + Copy + Send + 'static>(
    rt: T,
    alloc: Global,
    config: Config,
    plan: &FaultPlan,
    jobs: Vec<(NodeId, SubmitAll)>,
    gates: Vec<CountingGate>,
    turns: u64,
    steps: u64,
    way: Way<S>,
) -> Result<LiveRun<SubmitAll>, LiveFault>
    requires { AreNewJobs jobs.items }
    ensures ran { IfOk result (IsRun config plan.now.faults SubmitsGiven jobs.items) }
    ensures fits { OnOk result
        (Fits config.nodes jobs.items (vec_len gates) plan.now.faults) }
    ensures fault { IfErr result
        (IsFaultOf config.nodes jobs.items (vec_len gates) plan.now.faults) }
{
    match way {
        Way::Threads => run_live(rt, alloc, config, plan, jobs, gates, turns),
        Way::By(mut schedule) => run_scheduled(
            &rt,
            alloc,
            config,
            plan,
            jobs,
            gates,
            turns,
            steps,
            &mut schedule,
        ),
    }
}

impl FinishedRun {
    /// How many orders the nodes of the run refused.
    pub fn count_refused(&self) -> u64 {
        let mut refused = 0u64;
        for report in self.report.reports() {
            for place in 0..report.log.len() {
                refused = refused.saturating_add(u64::from(is_refused(&report.log, place)));
            }
        }
        refused
    }
}

fn is_refused(log: &Log, place: usize) -> bool
    requires { place < length log.now }
{
    match log.entry(place).kind {
        KindRef::Whole(EntryKind::Refused { .. }) => true,
        _ => false,
    }
}

// Lets the group take the merged events, and the judge judge them.
fn merge_logs(alloc: Global, run: LiveRun<SubmitAll>) -> Result<FinishedRun, AllocError>
    ensures report { IfOk result (λ finished. finished.report ≡ run.report) }
    ensures ok { IfOk result IsFinished }
{
    let left = count_left(run.clients.as_slice());
    let report = run.report;
    let (world, verdict) = judge_run(alloc, &report)?;
    // This tells the prover that they are linked.
    let _linked = report.reports();
    let summary = Summary {
        rest: world.at_rest(),
        verdict,
    };
    Ok(FinishedRun {
        report,
        world,
        summary,
        left,
    })
}

fn count_left(clients: &[ClientReport]) -> u64 {
    let mut left = 0u64;
    for client in clients {
        left = left.saturating_add(client.left);
    }
    left
}

// For each of the script's jobs, one that submits its items.
fn submit_all(
    alloc: Global,
    jobs: List<(NodeId, List<Item>)>,
) -> Result<Vec<(NodeId, SubmitAll)>, AllocError>
    ensures new { IfOk result (λ all. AreNewJobs all.items) }
    ensures items { IfOk result (λ all. map items_of all.items ≡ jobs) }
{
    let mut all = Vec::new(alloc);
    for (node, items) in jobs.into_vec() {
        add_job(&mut all, node, items)?;
    }
    Ok(all)
}

fn add_job(
    all: &mut Vec<(NodeId, SubmitAll)>,
    node: NodeId,
    items: List<Item>,
) -> Result<(), AllocError>
    ensures { OnOk result ((job : SubmitAll) × IsNewJob job × (job.left ≡ items)
        × (all.new.items ≡ all.old.items ++ told_job node job ∷ [])) }
{
    all.push((node, SubmitAll::new(items)))?;
    Ok(())
}
