//! The proved core, the judge and the peer for C, and so for other languages. `bindings/` has the header, and what Rust and
//! Python make of it.
//!
//! Each export makes one call of the kit, in numbers and byte slices, and states the clauses of that call. It returns a
//! status with the numbers of docs/FORMATS.md:
//!
//! - 0: done.
//! - 1: no such call. A handle holds nothing, or something where it shouldn't, or a number names no kind.
//! - 2: refused. 3: a bad record. 5: out of memory. 6: a buffer is too short.
//!
//! What else C must keep to at each call is in `bindings/c/castgroup.h`.
#![tactic(auto)]

mod deliveries;
mod exploring;
mod judge;
mod judge_handle;
mod numbers;
mod parts;
mod peer;
mod peer_handle;
mod peer_numbers;
mod peer_out;
mod readers;
mod status;
mod step;
mod stream;
mod text;
mod world;
mod world_handle;

use judge_handle::JudgeHandle;
use peer_handle::PeerHandle;
use world_handle::WorldHandle;

// C may pass each handle to another thread.
fn handles_cross_threads() {
    cross::<WorldHandle>();
    cross::<JudgeHandle>();
    cross::<PeerHandle>();
}

fn cross<T: Send>() {}
