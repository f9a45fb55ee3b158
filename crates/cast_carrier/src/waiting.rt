//! How a thread that finds nothing to do lets others run.
//!
//! To the scheduler, a thread that yields the processor again and again is as busy as one that works. Carriers with
//! nothing to carry, and engines that receive nothing, would keep a core for themselves, while others share the rest.
//! If all cores have work, there is something to do after a few turns of the others, and a sleep would only delay it.
use std::sync::Wait;
use std::thread;
use std::thread::Parker;
use std::time::Duration;

/// How a thread waits. It first yields the processor `patience` times in succession. Then it sleeps `nap` microseconds
/// at a time, to which the system adds some fifty.
#[derive(Clone, Copy)]
pub struct Pause {
    pub patience: u64,
    pub nap: u64,
}

/// The shortest useful sleep, in microseconds.
pub const SHORT_NAP: u64 = 20;

/// A thread that sometimes has nothing to do.
#[derive(Drop)]
pub struct Waiting {
    parker: Parker,
    // How often in succession there was nothing to do.
    waits: u64,
}

impl Waiting {
    /// A thread that had something to do.
    pub fn new() -> Waiting {
        Waiting {
            parker: Parker::new(),
            waits: 0,
        }
    }

    /// Notes that there was something to do.
    pub fn found(&mut self) {
        self.waits = 0;
    }

    /// Lets others run, since there was nothing to do.
    pub fn wait<R: Wait>(&mut self, rt: &R, pause: Pause) {
        if self.waits < pause.patience {
            self.waits += 1;
            thread::yield_now();
        } else {
            self.parker
                .park_timeout(rt, Duration::from_micros(pause.nap));
        }
    }
}
