//! Runs a group by many seeds, several at once: in each thread a lot, the seeds of some numbers in succession. What is
//! reported of them is in the order of the seeds.
use cast_command::Seeds;
use cast_live::{FinishedRun, RunOutputs, Summary, Way, live_text};
use cast_node::EngineEnd;
use cast_record::Meter;
use cast_run::{Progress, Seeded};
use cast_text::TextFault;
use std::alloc::{AllocError, Global};
use std::sync::{Arc, Wait};
use std::thread::{JoinHandle, Threads};
use std::{io, thread};

/// What is reported of the run of a seed.
#[derive(Drop)]
pub struct SeedReport {
    pub seed: u64,
    pub summary: Summary,
    /// What makes the run odd, each after a blank.
    pub oddities: String,
}

/// What is reported of the seeds of a lot, up to the first that could not be run, and why it could not.
#[derive(Drop)]
pub struct Lot {
    pub reports: Vec<SeedReport>,
    pub fault: Option<TextFault>,
}

/// Which seeds are run at once: from number `start` on, this many lots of this size.
#[derive(Clone, Copy)]
pub struct Batch {
    pub start: u64,
    pub lots: u64,
    pub size: u64,
}

impl Batch {
    /// The number after the last.
    pub fn end(self) -> u64 {
        self.start
            .saturating_add(self.lots.saturating_mul(self.size))
    }
}

/// Runs the seeds of a batch, each lot in a thread of its own where one can be started, else after the others.
pub fn run_batch<R: Threads + Wait + Copy + Send + 'static>(
    rt: R,
    alloc: Global,
    text: &Arc<Vec<u8>, Global>,
    seeds: Seeds,
    batch: Batch,
) -> Result<Vec<Lot>, AllocError> {
    let Batch { start, lots, size } = batch;
    let mut lots_running = Vec::with_capacity(alloc, lots as usize)?;
    let mut lots_done = Vec::with_capacity(alloc, lots as usize)?;
    for lot in 0..lots {
        let first = start.saturating_add(lot.saturating_mul(size));
        lots_running.push((first, start_lot(rt, alloc, text, seeds, first, size)))?;
    }
    for (first, running) in lots_running {
        let lot = match running {
            Some(thread) => thread.join(&rt),
            None => run_lot(&rt, alloc, text.as_slice(), seeds, first, size),
        };
        lots_done.push(lot)?;
    }
    Ok(lots_done)
}

// Runs a lot in a thread of its own, if there is memory for it and it starts.
fn start_lot<R: Threads + Wait + Copy + Send + 'static>(
    rt: R,
    alloc: Global,
    text: &Arc<Vec<u8>, Global>,
    seeds: Seeds,
    first: u64,
    size: u64,
) -> Option<JoinHandle<Lot>> {
    let text = Arc::try_clone(text).ok()?;
    let run = move || run_lot(&rt, alloc, text.as_slice(), seeds, first, size);
    thread::spawn(&rt, run).ok()
}

// Runs the seeds of these numbers, but none past the last.
fn run_lot<R: Threads + Wait + Copy + Send + 'static>(
    rt: &R,
    alloc: Global,
    text: &[u8],
    seeds: Seeds,
    first: u64,
    size: u64,
) -> Lot {
    let mut reports = Vec::new(alloc);
    let end = first.saturating_add(size).min(seeds.times);
    let run = run_seeds(rt, alloc, text, seeds, first, end, &mut reports);
    Lot {
        reports,
        fault: run.err(),
    }
}

fn run_seeds<R: Threads + Wait + Copy + Send + 'static>(
    rt: &R,
    alloc: Global,
    text: &[u8],
    seeds: Seeds,
    first: u64,
    end: u64,
    reports: &mut Vec<SeedReport>,
) -> Result<(), TextFault> {
    let progress = Progress::for_group(alloc)?;
    for number in first..end {
        let seed = seeds.first.wrapping_add(number);
        let run = run_seed(rt, alloc, text, &progress, seed)?;
        let oddities = oddities_of(alloc, &run)?;
        let report = SeedReport {
            seed,
            summary: run.summary,
            oddities,
        };
        if reports.push(report).is_err() {
            return Err(TextFault::Memory);
        }
    }
    Ok(())
}

// Runs the script's group by the seed. Nobody reads the summary's text.
fn run_seed<R: Threads + Wait + Copy + Send + 'static>(
    rt: &R,
    alloc: Global,
    mut text: &[u8],
    progress: &Arc<Progress, Global>,
    seed: u64,
) -> Result<FinishedRun, TextFault> {
    let mut outputs: RunOutputs<io::Sink, io::Sink> = RunOutputs {
        summary: Meter::new(io::sink()),
        record: None,
        replay: None,
    };
    let mut reader = Meter::new(&mut text);
    let way = Way::By(Seeded::mixed(seed));
    live_text(*rt, alloc, &mut reader, &mut outputs, progress, way)
}

// What makes the run odd, each after a blank. Nodes that neither stopped nor crashed are odd; a crash is not, since
// only the plan causes it. So are a group that is not at rest, and orders that were left in desks or refused.
fn oddities_of(alloc: Global, run: &FinishedRun) -> Result<String, AllocError> {
    let mut odd = String::new(alloc);
    for (node, report) in run.report.reports().iter().enumerate() {
        if let Some(end) = odd_end(report.ended) {
            odd.push_str(format!(in alloc; " ends {node} {end}")?.as_str())?;
        }
    }
    if !run.summary.rest {
        odd.push_str(" rest no")?;
    }
    if run.left > 0 {
        odd.push_str(format!(in alloc; " left {}", run.left)?.as_str())?;
    }
    let refused = run.count_refused();
    if refused > 0 {
        odd.push_str(format!(in alloc; " refused {refused}")?.as_str())?;
    }
    Ok(odd)
}

fn odd_end(ended: EngineEnd) -> Option<&'static str> {
    match ended {
        EngineEnd::Stopped | EngineEnd::Crashed => None,
        EngineEnd::TurnLimit => Some("turnlimit"),
        EngineEnd::LogFull => Some("logfull"),
        EngineEnd::ClockFull => Some("clockfull"),
    }
}
