//! Whether an engine sends again too soon, or a peer is silent, and how the engine waits then. No contract speaks of it.
//!
//! An engine sends again what is lost after a number of turns, not after a time. On a processor of its own, an idle
//! turn takes less than a microsecond. Meanwhile a peer may wait for milliseconds while another program runs. So an
//! engine would send again and again what is still under way, until the logs are full. Two signs show this, and make
//! the engine sleep in idle turns:
//!
//! - Word of a slot that was acknowledged before. A frame comes twice only if it was sent twice, or a plan repeats it.
//!   The engine then sleeps twice as long as before, and half as long after some calm. The timer of TCP backs off for
//!   the same reason (Karn and Partridge, 1987; RFC 6298).
//! - A peer's silence, before any word can come. So much was sent again to it since its last frame that not all of it
//!   can be lost. The peer may have no processor for the moment. A longer silence means a link that loses everything;
//!   there no sleep helps.
use cast_carrier::{Pause, SHORT_NAP};
use cast_message::{Config, Frame, FrameBody, NodeId};
use cast_node::Node;
use cast_resend::{PeerSet, TURNS_UNTIL_AGAIN, is_owed};
use std::alloc::{AllocError, Global};

// Without haste, an engine yields in this many idle turns in a row, longer than it takes to send again all that it
// owes. Afterwards it owes only engines that have ended, or its outbox is full, or memory is out. Then it only waits
// for others.
const AT_EASE: Pause = Pause {
    patience: 2 * TURNS_UNTIL_AGAIN as u64,
    nap: SHORT_NAP,
};

// In haste, an engine yields this often, and then sleeps.
const SHORT_PATIENCE: u64 = 8;

// The first sleep and the longest, in microseconds.
const FIRST_NAP: u64 = SHORT_NAP;

const LONG_NAP: u64 = 128 * SHORT_NAP;

// Within this many turns an engine gets word of a slot, before it sends the slot again.
const PERIOD: u64 = TURNS_UNTIL_AGAIN as u64;

// After this many periods without haste it sleeps half as long.
const CALM_PERIODS: u64 = 4;

// An engine is in haste if at least this many words of a period, and one in `SHARE_AGAIN`, are of slots acknowledged
// before. Lost frames hardly ever cause such words.
const LEAST_AGAIN: u64 = 16;

const SHARE_AGAIN: u64 = 2;

// How long an engine sleeps while a peer is silent, in microseconds.
const NAP_IN_SILENCE: u64 = 4 * SHORT_NAP;

// A peer is silent if this many slots, and no fewer than a whole window, were sent again to it since its last frame. At
// `LONG_SILENCE` times that number it no longer counts as silent.
const LEAST_UNANSWERED: u64 = 16;

const LONG_SILENCE: u64 = 4;

// The number of slots sent again to a peer since its last frame.
#[derive(Clone, Copy)]
struct Unanswered(u64);

impl Unanswered {
    const NONE: Unanswered = Unanswered(0);

    // Counts one more slot.
    fn add(&mut self) {
        self.0 = self.0.saturating_add(1);
    }

    // Whether the peer is silent, but not for long. `window` is the most slots under way to it.
    fn is_silence(self, window: u64) -> bool {
        let least = LEAST_UNANSWERED.max(window);
        self.0 >= least && self.0 < least.saturating_mul(LONG_SILENCE)
    }
}

/// How much an engine has sent again too soon of late, or without an answer.
#[derive(Drop)]
pub struct Haste {
    // How long it sleeps, in microseconds; 0 without haste.
    nap: u64,
    // The number of periods since `nap` was last set.
    calm: u64,
    // The number of turns in this period.
    turns: u64,
    // How many words of slots came in this period, and how many of them were of slots acknowledged before.
    heard: u64,
    again: u64,
    // By peer.
    unanswered: Vec<Unanswered>,
}

impl Haste {
    /// An engine without haste. All memory that it needs is allocated here.
    pub fn new(alloc: Global, config: &Config) -> Result<Haste, AllocError> {
        let unanswered = vec![in alloc; Unanswered::NONE; config.nodes() as usize]?;
        Ok(Haste {
            nap: 0,
            calm: 0,
            turns: 0,
            heard: 0,
            again: 0,
            unanswered,
        })
    }

    /// Counts a turn.
    pub fn pass(&mut self) {
        self.turns = self.turns.saturating_add(1);
        if self.turns < PERIOD {
            return;
        }
        self.begin_period();
        self.calm = self.calm.saturating_add(1);
        if self.calm >= CALM_PERIODS {
            let half = self.nap / 2;
            self.sleep_for(if half < FIRST_NAP { 0 } else { half });
        }
    }

    /// Notes a frame from a peer before the node takes it. Word of a slot that is no longer owed shows that the slot was
    /// sent again too soon.
    pub fn meet(&mut self, node: &Node, frame: &Frame) {
        if let Some(unanswered) = self.unanswered.get_mut(usize::from(frame.from.0)) {
            *unanswered = Unanswered::NONE;
        }
        if let FrameBody::Took { slot } = &frame.body {
            self.note(!is_owed(node, frame.from, *slot));
        }
    }

    /// Notes that a slot is sent again to the peer.
    pub fn send_again(&mut self, to: NodeId) {
        if let Some(unanswered) = self.unanswered.get_mut(usize::from(to.0)) {
            unanswered.add();
        }
    }

    // Notes word of a slot; `again` says whether the slot was acknowledged before. In the period after the sleep
    // changed, such words change nothing: after a longer sleep, they are of slots sent again earlier.
    fn note(&mut self, again: bool) {
        self.heard = self.heard.saturating_add(1);
        self.again = self.again.saturating_add(u64::from(again));
        let often = self.again >= LEAST_AGAIN && self.again >= self.heard / SHARE_AGAIN;
        if often && (self.nap == 0 || self.calm > 0) {
            self.sleep_for(self.nap.saturating_mul(2).max(FIRST_NAP).min(LONG_NAP));
            self.begin_period();
        }
    }

    /// How the engine waits in an idle turn. These peers have not ended, and `window` is the most slots under way to one.
    pub fn pause(&self, peers: &PeerSet, window: u64) -> Pause {
        let nap = if self.has_silent(peers, window) {
            self.nap.max(NAP_IN_SILENCE)
        } else {
            self.nap
        };
        if nap == 0 {
            return AT_EASE;
        }
        Pause {
            patience: SHORT_PATIENCE,
            nap,
        }
    }

    // Whether one of these peers is silent.
    fn has_silent(&self, peers: &PeerSet, window: u64) -> bool {
        for peer in 0..self.unanswered.len() {
            if self.unanswered[peer].is_silence(window) && is_in(peers, peer) {
                return true;
            }
        }
        false
    }

    fn sleep_for(&mut self, nap: u64) {
        self.nap = nap;
        self.calm = 0;
    }

    fn begin_period(&mut self) {
        self.turns = 0;
        self.heard = 0;
        self.again = 0;
    }
}

fn is_in(peers: &PeerSet, peer: usize) -> bool {
    match NodeId::from_number(peer as u64) {
        Some(peer) => peers.contains(peer),
        None => false,
    }
}
