//! The command `live` with many seeds: a line for each odd run, and how many runs there were.
use crate::console::Console;
use crate::explain::{Stop, tell_stop};
use crate::live::{Group, open_script, progress_stream, run_group, status_of};
use crate::lots::{Batch, Lot, SeedReport, run_batch};
use crate::output::{Sink, Target, open_sink};
use crate::outputs::summary_target;
use crate::remarks::remark_on_script;
use crate::status::Status;
use cast_command::{LiveTask, Seeds, Taken};
use cast_live::Summary;
use cast_record::Meter;
use cast_text::{TextFault, Verdict, read_input};
use std::alloc::{AllocError, Global};
use std::io::{Read, Write};
use std::rt::{Clock, Runtime};
use std::sync::{Arc, Wait};
use std::thread;
use std::thread::Threads;
use std::time::Instant;

// More threads than this are not started at once.
const MOST_AT_ONCE: u64 = 256;

// A lot has no more seeds than this.
const LARGEST_LOT: u64 = 64;

// Lots that take less time than this may be larger.
const SHORT_MILLIS: u128 = 100;

/// Runs the group of a script by each of the seeds, several at once. The requested texts are those of the first odd run, or else of the
/// last.
pub fn live_seeds<R: Runtime + AllocGlobal + Threads + Wait + Clock + Copy + Send + 'static>(
    console: &Console<'_, R>,
    task: &LiveTask<'_>,
    seeds: Seeds,
) -> Status {
    let mut source = open_script(console, task);
    match run_and_keep(console, &mut source, task, seeds) {
        Ok(status) => {
            remark_on_script(console, source, Taken::Group, None);
            status
        }
        Err(stop) => tell_stop(console, stop, source),
    }
}

// Runs all, keeps what was requested of one, and writes how many runs there were.
fn run_and_keep<
    'a,
    I: Read + Drop,
    R: Runtime + AllocGlobal + Threads + Wait + Clock + Copy + Send + 'static,
>(
    console: &Console<'a, R>,
    input: I,
    task: &LiveTask<'a>,
    seeds: Seeds,
) -> Result<Status, Stop<'a>> {
    let text = match read_input(console.rt.alloc(), &mut Meter::new(input)) {
        Ok(text) => text,
        Err(fault) => return Err(Stop::Fault(fault)),
    };
    let Ok(text) = Arc::new(console.rt.alloc(), text) else {
        return Err(Stop::Fault(TextFault::Memory));
    };
    let mut lines = open_sink(console, summary_target(&task.places));
    let tally = run_all(console, &text, task, seeds, &mut lines)?;
    let kept = keep_one(console, text.as_slice(), task, tally.kept);
    let Tally { at_rest, good, .. } = tally;
    let times = seeds.times;
    let line = format!(in console.rt.alloc(); "{times} runs, {at_rest} at rest, {good} good\n");
    match (kept, put_line(line, &mut lines)) {
        (Ok(()), Ok(())) => Ok(tally.status),
        (Err(kept), Err(told)) => Err(kept.or_memory(told)),
        (Err(stop), Ok(())) | (Ok(()), Err(stop)) => Err(stop),
    }
}

// Runs the group by this seed again, if texts of it are to be kept.
fn keep_one<'a, R: Runtime + AllocGlobal + Threads + Wait + Copy + Send + 'static>(
    console: &Console<'a, R>,
    mut text: &[u8],
    task: &LiveTask<'a>,
    seed: u64,
) -> Result<(), Stop<'a>> {
    if task.places.is_empty() {
        return Ok(());
    }
    let group = Group {
        seed: Some(seed),
        summary: Target::Memory,
        places: task.places,
        progress_to: None,
    };
    let _run = run_group(console, &mut text, group)?;
    Ok(())
}

// Writes a line, if there was memory to make it.
fn put_line<'a, R: Runtime>(
    line: Result<String, AllocError>,
    lines: &mut Sink<'a, R>,
) -> Result<(), Stop<'a>> {
    match line {
        Ok(line) => match lines.write_all(line.as_bytes()) {
            Ok(()) => Ok(()),
            Err(_) => Err(Stop::Output(lines.failure())),
        },
        Err(_) => Err(Stop::Fault(TextFault::Memory)),
    }
}

/// The totals of all runs.
#[derive(Clone, Copy)]
struct Tally {
    at_rest: u64,
    good: u64,
    status: Status,
    // The seed of the first odd run, or else of the last.
    kept: u64,
    is_as_hoped: bool,
}

impl Tally {
    fn new(seeds: Seeds) -> Tally {
        Tally {
            at_rest: 0,
            good: 0,
            status: Status::Good,
            kept: seeds.first,
            is_as_hoped: true,
        }
    }

    fn add(&mut self, seed: u64, summary: Summary, is_as_hoped: bool) {
        let is_good = matches!(summary.verdict, Verdict::Good);
        self.at_rest = self.at_rest.saturating_add(u64::from(summary.rest));
        self.good = self.good.saturating_add(u64::from(is_good));
        self.status = self.status.or_worse(status_of(summary));
        if self.is_as_hoped {
            self.kept = seed;
        }
        self.is_as_hoped = self.is_as_hoped && is_as_hoped;
    }
}

// Runs all, batch by batch, and writes a line for each odd run.
fn run_all<'a, R: Runtime + AllocGlobal + Threads + Wait + Clock + Copy + Send + 'static>(
    console: &Console<'a, R>,
    text: &Arc<Vec<u8>, Global>,
    task: &LiveTask<'a>,
    seeds: Seeds,
    lines: &mut Sink<'a, R>,
) -> Result<Tally, Stop<'a>> {
    let mut tally = Tally::new(seeds);
    let mut last = match progress_stream(console, task) {
        Some(_) => Instant::now(console.rt).ok(),
        None => None,
    };
    let mut batch = first_batch(console.rt, seeds);
    for _ in 0..seeds.times {
        if batch.start >= seeds.times {
            break;
        }
        let began = Instant::now(console.rt).ok();
        let Ok(lots) = run_batch(*console.rt, console.rt.alloc(), text, seeds, batch) else {
            return Err(Stop::Fault(TextFault::Memory));
        };
        for lot in lots {
            tell_lot(console, lot, &mut tally, lines)?;
        }
        let end = batch.end();
        batch = Batch {
            start: end,
            size: next_size(console.rt, began, batch.size),
            ..batch
        };
        last = tell_runs(console, last, end.min(seeds.times), seeds.times);
    }
    Ok(tally)
}

// One seed for each thread: as many threads as were asked for, or as there are processors.
fn first_batch<R: Threads>(rt: &R, seeds: Seeds) -> Batch {
    let processors = match thread::available_parallelism(rt) {
        Ok(count) => count.get() as u64,
        Err(_) => 1,
    };
    Batch {
        start: 0,
        lots: seeds
            .at_once
            .unwrap_or(processors)
            .min(seeds.times)
            .min(MOST_AT_ONCE),
        size: 1,
    }
}

// The size of the next lots: twice the last, if those took so little time that starting threads counts.
fn next_size<R: Clock>(rt: &R, began: Option<Instant>, size: u64) -> u64 {
    match began.and_then(|began| began.elapsed(rt).ok()) {
        Some(took) if took.as_millis() < SHORT_MILLIS => size.saturating_mul(2).min(LARGEST_LOT),
        _ => size,
    }
}

// Adds the runs of a lot, and writes a line for each odd one.
fn tell_lot<'a, R: Runtime + AllocGlobal>(
    console: &Console<'a, R>,
    lot: Lot,
    tally: &mut Tally,
    lines: &mut Sink<'a, R>,
) -> Result<(), Stop<'a>> {
    let alloc = console.rt.alloc();
    for report in lot.reports {
        let SeedReport {
            seed,
            summary,
            oddities,
        } = report;
        if !oddities.is_empty() {
            put_line(format!(in alloc; "seed {seed}{oddities}\n"), lines)?;
        }
        tally.add(seed, summary, oddities.is_empty());
    }
    match lot.fault {
        Some(fault) => Err(Stop::Fault(fault)),
        None => Ok(()),
    }
}

// Reports how many runs were made, if the last report is a second or more ago, and returns its time. Returns nothing if
// there are to be no reports.
fn tell_runs<R: Clock>(
    console: &Console<'_, R>,
    last: Option<Instant>,
    runs: u64,
    times: u64,
) -> Option<Instant> {
    if last?.elapsed(console.rt).ok()?.as_secs() == 0 {
        return last;
    }
    // If standard error fails, there is nobody to report to.
    let _ = eprintln!(console.stderr; "castgroup: {runs} of {times} runs");
    Instant::now(console.rt).ok()
}
