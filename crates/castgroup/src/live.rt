//! The command `live`: runs a script's group in threads or by seeds, and keeps the requested texts.
use crate::console::Console;
use crate::explain::{Stop, tell_stop};
use crate::input::{Source, open_source};
use crate::output::Target;
use crate::outputs::{keep_outputs, open_outputs, summary_target, warn_of_lengths};
use crate::progress::ProgressReporter;
use crate::remarks::{remark_on_orders, remark_on_overwriting, remark_on_script};
use crate::seeds::live_seeds;
use crate::status::Status;
use cast_command::{LiveTask, RunPlaces, Running, Taken};
use cast_live::{FinishedRun, Summary, Way, live_text};
use cast_record::Meter;
use cast_run::{Progress, Seeded};
use cast_text::{TextFault, Verdict};
use std::io::{IsTerminal, Read, Stderr};
use std::rt::{Clock, Runtime};
use std::sync::Wait;
use std::thread::Threads;

/// Runs the group of a script, and writes what was requested.
pub fn run_live<R: Runtime + AllocGlobal + Threads + Wait + Clock + Copy + Send + 'static>(
    console: &Console<'_, R>,
    task: LiveTask<'_>,
) -> Status {
    match task.running {
        Running::InThreads => live_once(console, &task, None),
        Running::BySeed(seed) => live_once(console, &task, Some(seed)),
        Running::BySeeds(seeds) => live_seeds(console, &task, seeds),
    }
}

// Runs the group once, in threads or by a seed.
fn live_once<R: Runtime + AllocGlobal + Threads + Wait + Copy + Send + 'static>(
    console: &Console<'_, R>,
    task: &LiveTask<'_>,
    seed: Option<u64>,
) -> Status {
    let mut source = open_script(console, task);
    let group = Group {
        seed,
        summary: summary_target(&task.places),
        places: task.places,
        progress_to: progress_stream(console, task),
    };
    match run_group(console, &mut source, group) {
        Ok(run) => {
            remark_on_orders(console, &run);
            remark_on_script(console, source, Taken::Group, None);
            status_of(run.summary)
        }
        Err(stop) => tell_stop(console, stop, source),
    }
}

/// Opens the script. If remarks are made, it warns of an output that is the script's own file.
pub fn open_script<'a, R: Runtime + AllocGlobal>(
    console: &Console<'_, R>,
    task: &LiveTask<'a>,
) -> Source<'a, R::File, R::Reader> {
    let mut source = open_source(console, task.script);
    if console.explains && remark_on_overwriting(console, task) {
        source.keep_all(console.rt.alloc());
    }
    source
}

/// Where progress is shown, if it is.
pub fn progress_stream<R>(console: &Console<'_, R>, task: &LiveTask<'_>) -> Option<Stderr> {
    if task.tells_progress || console.stderr.is_terminal() {
        Some(console.stderr)
    } else {
        None
    }
}

/// How a group runs, and which texts are kept.
#[derive(Clone, Copy)]
pub struct Group<'a> {
    /// The seed of its schedule; without one it runs in threads.
    pub seed: Option<u64>,
    pub summary: Target<'a>,
    pub places: RunPlaces<'a>,
    pub progress_to: Option<Stderr>,
}

/// Runs the group of the script, and writes all that was requested. What can't be written does not stop the rest.
pub fn run_group<
    'a,
    I: Read + Drop,
    R: Runtime + AllocGlobal + Threads + Wait + Copy + Send + 'static,
>(console: &Console<'a, R>, input: I, group: Group<'a>) -> Result<FinishedRun, Stop<'a>> {
    let (rt, alloc) = (console.rt, console.rt.alloc());
    let mut outputs = match open_outputs(console, group.summary, &group.places) {
        Ok(outputs) => outputs,
        Err(fault) => return Err(Stop::Fault(fault)),
    };
    let Ok(progress) = Progress::for_group(alloc) else {
        return Err(Stop::Fault(TextFault::Memory));
    };
    let reporter = ProgressReporter::start(*rt, alloc, group.progress_to, &progress);
    let mut reader = Meter::new(input);
    let way = match group.seed {
        None => Way::Threads,
        Some(seed) => Way::By(Seeded::mixed(seed)),
    };
    let run = live_text(*rt, alloc, &mut reader, &mut outputs, &progress, way);
    if let Some(reporter) = reporter {
        reporter.stop(rt);
    }
    let is_whole = matches!(run, Ok(_) | Err(TextFault::Write));
    let kept = keep_outputs(console, outputs, &group.places, is_whole);
    warn_of_lengths(console, kept);
    outcome_of(run, kept.stop)
}

// The run, if all its outputs were written; else why not.
fn outcome_of<'a>(
    run: Result<FinishedRun, TextFault>,
    stop: Option<Stop<'a>>,
) -> Result<FinishedRun, Stop<'a>> {
    match (run, stop) {
        (Ok(run), None) => Ok(run),
        (Ok(_) | Err(TextFault::Write), Some(stop)) => Err(stop),
        (Err(fault), _) => Err(Stop::Fault(fault)),
    }
}

/// The status of a run whose outputs were written.
pub fn status_of(summary: Summary) -> Status {
    match (summary.verdict, summary.rest) {
        (Verdict::Bad { .. }, _) => Status::Bad,
        (Verdict::Good, false) => Status::Restless,
        (Verdict::Good, true) => Status::Good,
    }
}
