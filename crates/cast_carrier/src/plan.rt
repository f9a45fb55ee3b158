//! What a plan may name, and what it says about each node.
ghost use Rattle.std.specs.Prelude.{◌≡◌, ◌≢◌, [], ◌↔◌, None, IsTrue, IfOk, OnErr};
ghost use Rattle.std.specs.List.{filter};
ghost use Rattle.cast_carrier.specs.Plans.{ArePlanned, IsPlanned, IsLink, crash_by, crash_from, IsLeastCrash, is_from, is_at, least};

use cast_message::{Fault, NodeId};
use std::alloc::{AllocError, Global};

/// Whether each fault names nodes of the group, and no link from a node to itself. It allocates nothing.
pub fn is_planned(nodes: u64, faults: &[Fault]) -> bool
    ensures { IsTrue result ↔ ArePlanned nodes faults.now }
{
    for fault in faults {
        if !names_nodes(nodes, *fault) {
            return false;
        }
    }
    true
}

fn names_nodes(nodes: u64, fault: Fault) -> bool
    ensures { IsTrue result ↔ IsPlanned nodes fault }
{
    match fault {
        Fault::Lose(frames) | Fault::Repeat(frames) | Fault::Delay { frames, .. } => {
            is_link(nodes, frames.from, frames.to)
        }
        Fault::Crash { node, .. } => u64::from(node.0) < nodes,
    }
}

fn is_link(nodes: u64, from: NodeId, to: NodeId) -> bool
    ensures { IsTrue result ↔ IsLink nodes from to }
{
    u64::from(from.0) < nodes && u64::from(to.0) < nodes && from != to
}

/// After how many entries the node crashes, if it is to crash; of several counts, the least.
pub fn crash_of(node: NodeId, faults: &[Fault]) -> Option<u64>
    ensures is { result ≡ crash_from node None faults.now }
    ensures least { IsLeastCrash node faults.now result }
{
    let mut crash = None;
    for fault in faults {
        crash = crash_by(node, crash, *fault);
    }
    crash
}

fn crash_by(node: NodeId, earliest: Option<u64>, fault: Fault) -> Option<u64>
    ensures { result ≡ crash_by node earliest fault }
{
    match fault {
        Fault::Crash {
            node: other,
            entries,
        } => {
            if other == node {
                least(earliest, entries)
            } else {
                earliest
            }
        }
        Fault::Lose(_) | Fault::Repeat(_) | Fault::Delay { .. } => earliest,
    }
}

fn least(earliest: Option<u64>, entries: u64) -> Option<u64>
    ensures { result ≡ least earliest entries }
{
    match earliest {
        Some(other) if other <= entries => earliest,
        _ => Some(entries),
    }
}

/// The faults of a node's frames, in their order. It can run out of memory only if there are some.
pub fn faults_from(alloc: Global, node: NodeId, faults: &[Fault]) -> Result<Vec<Fault>, AllocError>
    ensures ok { IfOk result (λ own. own.items ≡ filter (is_from node) faults.now) }
    ensures err { OnErr result (filter (is_from node) faults.now ≢ []) }
{
    faults_at(alloc, LinkEnd::Maker, usize::from(node.0), faults)
}

/// An end of a link.
#[derive(Clone, Copy)]
pub(crate) enum LinkEnd {
    /// The node that makes the frames.
    Maker,
    /// The node that they are for.
    Target,
}

/// As `faults_from`, for frames whose link has this node at that end.
pub(crate) fn faults_at(
    alloc: Global,
    end: LinkEnd,
    node: usize,
    faults: &[Fault],
) -> Result<Vec<Fault>, AllocError>
    ensures ok { IfOk result (λ own. own.items ≡ filter (is_at end node) faults.now) }
    ensures err { OnErr result (filter (is_at end node) faults.now ≢ []) }
{
    let mut own = Vec::new(alloc);
    for fault in faults {
        if is_at(end, node, *fault) {
            own.push(*fault)?;
        }
    }
    Ok(own)
}

fn is_at(end: LinkEnd, node: usize, fault: Fault) -> bool
    ensures { result ≡ is_at end node fault }
{
    match fault {
        Fault::Lose(frames) | Fault::Repeat(frames) | Fault::Delay { frames, .. } => {
            let at = match end {
                LinkEnd::Maker => frames.from,
                LinkEnd::Target => frames.to,
            };
            usize::from(at.0) == node
        }
        Fault::Crash { .. } => false,
    }
}
