//! Shows the progress of a long run of `live`: a line a second on standard error.
use cast_run::Progress;
use std::alloc::Global;
use std::io::{Stderr, Write};
use std::sync::atomic::{AtomicBool, Ordering};
use std::sync::{Arc, Wait};
use std::thread;
use std::thread::{Parker, Threads};
use std::time::Duration;

const LINE_SECONDS: u64 = 1;

// How many milliseconds the program waits for a line that is being written.
const LAST_LINE_MILLIS: u64 = 1000;

/// What the reporting thread shares with the thread that waits for the run.
#[derive(Drop)]
struct Bell {
    ended: AtomicBool,
    // A line is being written.
    speaks: AtomicBool,
    parker: Parker,
}

/// A thread that reports the run's progress until it learns that the run has ended. It is not joined: if standard error
/// takes nothing, the thread waits for that, and the run's result is still reported. Only a line being written at the
/// end is waited for, about a second at most.
#[derive(Drop)]
pub struct ProgressReporter {
    bell: Arc<Bell, Global>,
}

impl ProgressReporter {
    /// Starts a thread that reports, before those of the run start. If there is no stream, or no memory or thread for
    /// it, nothing is reported, and the run goes on.
    pub fn start<T: Threads + Wait + Copy + Send + 'static>(
        rt: T,
        alloc: Global,
        stderr: Option<Stderr>,
        progress: &Arc<Progress, Global>,
    ) -> Option<ProgressReporter> {
        let stderr = open_stream(stderr?)?;
        let bell = Bell {
            ended: AtomicBool::new(false),
            speaks: AtomicBool::new(false),
            parker: Parker::new(),
        };
        let bell = Arc::new(alloc, bell).ok()?;
        let progress = Arc::try_clone(progress).ok()?;
        let heard = Arc::try_clone(&bell).ok()?;
        let tell = move || tell_each_second(&rt, stderr, &progress, &heard);
        let _thread = thread::spawn(&rt, tell).ok()?;
        Some(ProgressReporter { bell })
    }

    /// Stops reporting, since the run has ended.
    pub fn stop<R: Wait>(&self, rt: &R) {
        self.bell.ended.store(true, Ordering::SeqCst);
        self.bell.parker.unpark();
        let nap = Parker::new();
        for _ in 0..LAST_LINE_MILLIS {
            if !self.bell.speaks.load(Ordering::SeqCst) {
                return;
            }
            nap.park_timeout(rt, Duration::from_millis(1));
        }
    }
}

// A stream that was there when the program began. Otherwise a file that the run creates may have its place.
fn open_stream(mut stderr: Stderr) -> Option<Stderr> {
    stderr.write(&[]).ok()?;
    Some(stderr)
}

fn tell_each_second<R: Wait>(rt: &R, stderr: Stderr, progress: &Progress, bell: &Bell) {
    for _ in rt.forever() {
        bell.parker
            .park_timeout(rt, Duration::from_secs(LINE_SECONDS));
        // The stopper sets its flag before it checks whether a line is being written, so one of the two sees the other.
        bell.speaks.store(true, Ordering::SeqCst);
        let ended = bell.ended.load(Ordering::SeqCst);
        if !ended {
            tell_line(&stderr, progress);
        }
        bell.speaks.store(false, Ordering::SeqCst);
        if ended {
            return;
        }
    }
}

// Nothing is written before the script is read.
fn tell_line(stderr: &Stderr, progress: &Progress) {
    let due = progress.due();
    let deliveries = progress.deliveries();
    let turns = progress.turns();
    if due == 0 && turns == 0 {
        return;
    }
    // If standard error fails, there is nobody to report to.
    let _ = eprintln!(stderr; "castgroup: {deliveries} of {due} deliveries, {turns} turns");
}
