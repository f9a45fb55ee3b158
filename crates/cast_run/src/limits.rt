//! How long a group may run, counted in steps, since nothing in it reads a clock.

/// How many turns an engine may take, and how often a job may be called.
///
/// An engine that finds nothing to do sleeps, but a job does not, since nothing says what it waits for. In threads, a
/// job that waits for another node's news is called some hundred times as often as its engine takes turns. So a job
/// that waits needs more calls than there are turns.
#[derive(Clone, Copy)]
pub struct Limits {
    pub turns: u64,
    pub calls: u64,
}

/// One number for both.
impl From<u64> for Limits {
    fn from(limit: u64) -> Limits {
        Limits {
            turns: limit,
            calls: limit,
        }
    }
}

/// For how many steps of others an actor usually waits at most, before it takes the next.
///
/// A group has up to 384 actors. By an odd seed, which stays with an actor for up to 64 steps, an actor of such a group
/// waits some 12,500 steps on the average. That it waits a million steps by a seed has a chance below 10^-30. So runs by
/// seeds are as their seeds alone make them.
pub const LONGEST_WAIT: u64 = 1_048_576;

/// How many steps a run by a schedule may take, and how many of others an actor may wait for, before it takes the next
/// whatever the schedule chooses.
#[derive(Clone, Copy)]
pub struct Steps {
    pub most: u64,
    pub longest_wait: u64,
}

/// So many steps, with the usual longest wait.
impl From<u64> for Steps {
    fn from(most: u64) -> Steps {
        Steps {
            most,
            longest_wait: LONGEST_WAIT,
        }
    }
}
