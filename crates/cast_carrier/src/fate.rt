//! What a plan does to a frame.
ghost use Rattle.std.specs.Prelude.{◌≡◌, ◌↔◌, IsTrue};
ghost use Rattle.cast_carrier.specs.Fates.{is_kind, is_among, IsAmong, is_one_of, suffered, fate_by, fate_in, ordinal_of, one_more, counted_in};

use crate::faults::CarrierFaults;
use cast_journal::Parcel;
use cast_message::{Fault, FrameKind, Frames, NodeId};

/// How many frames of each kind were taken for a target.
#[derive(Clone, Copy)]
pub struct Ordinals {
    pub carry: u64,
    pub took: u64,
}

/// What happens to a frame.
#[derive(Clone, Copy)]
pub struct Fate {
    pub lost: bool,
    /// How many more frames are taken for its target before it is handed on.
    pub delay: u64,
    pub twice: bool,
}

const UNHARMED: Fate = Fate {
    lost: false,
    delay: 0,
    twice: false,
};

impl Fate {
    // Adds what one fault does to the frame. `self` is changed in place: passed by value, fault after fault, its
    // padding is copied each time, and the processor waits for that.
    fn suffer(&mut self, fault: &Fault, frame: &NamedFrame)
        ensures { self.new ≡ suffered frame.now self.old fault.now }
    {
        match fault {
            Fault::Lose(frames) => self.lost = self.lost || frame.is_one_of(frames),
            Fault::Repeat(frames) => self.twice = self.twice || frame.is_one_of(frames),
            Fault::Delay { frames, count } => {
                if frame.is_one_of(frames) {
                    self.delay = self.delay.max(*count);
                }
            }
            Fault::Crash { .. } => {}
        }
    }
}

/// The fate of a parcel by the plan; its frame is counted. A frame for a target without ordinals is not counted, and
/// meets no fault.
pub fn fate_of(faults: &CarrierFaults, ordinals: &mut [Ordinals], parcel: &Parcel) -> Fate
    ensures fate { result ≡ fate_in faults.now ordinals.old parcel.now.frame }
    ensures counts { ordinals.new ≡ counted_in ordinals.old parcel.now.frame }
{
    let to = parcel.frame.to;
    let kind = parcel.frame.body.kind();
    let target = usize::from(to.0);
    if target >= ordinals.len() {
        return UNHARMED;
    }
    let counts = &mut ordinals[target];
    let ordinal = count(counts, kind);
    let frame = NamedFrame {
        kind,
        from: parcel.frame.from,
        to,
        ordinal,
    };
    fate_by(faults.for_target(to), &frame)
}

// The ordinal of the next frame of the kind; it stays at its greatest value.
fn count(counts: &mut Ordinals, kind: FrameKind) -> u64
    ensures ordinal { result ≡ ordinal_of kind counts.old }
    ensures counts { counts.new ≡ one_more kind counts.old }
{
    match kind {
        FrameKind::Carry => {
            let ordinal = counts.carry;
            counts.carry = ordinal.saturating_add(1);
            ordinal
        }
        FrameKind::Took => {
            let ordinal = counts.took;
            counts.took = ordinal.saturating_add(1);
            ordinal
        }
    }
}

/// What the faults of a plan can name about a frame.
#[derive(Drop)]
pub struct NamedFrame {
    pub kind: FrameKind,
    pub from: NodeId,
    pub to: NodeId,
    pub ordinal: u64,
}

impl NamedFrame {
    fn is_one_of(&self, frames: &Frames) -> bool
        ensures { result ≡ is_one_of self.now frames.now }
    {
        // Most faults are about other frames, and a division is slow.
        if frames.to != self.to || !is_kind(frames.kind, self.kind) || frames.from != self.from {
            return false;
        }
        is_among(frames.first, frames.step, self.ordinal)
    }
}

fn is_kind(kind: FrameKind, other: FrameKind) -> bool
    ensures { result ≡ is_kind kind other }
{
    matches!(
        (kind, other),
        (FrameKind::Carry, FrameKind::Carry) | (FrameKind::Took, FrameKind::Took)
    )
}

// Whether the ordinal is first, first + step, first + 2 * step, ..; if step is 0, only first.
fn is_among(first: u64, step: u64, ordinal: u64) -> bool
    ensures is { result ≡ is_among first step ordinal }
    ensures multiples { IsTrue result ↔ IsAmong first step ordinal }
{
    if step == 0 {
        return ordinal == first;
    }
    first <= ordinal && (ordinal - first) % step == 0
}

fn fate_by(faults: &[Fault], frame: &NamedFrame) -> Fate
    ensures { result ≡ fate_by frame.now faults.now }
{
    let mut fate = UNHARMED;
    for fault in faults {
        fate.suffer(fault, frame);
    }
    fate
}
