//! A node of a broadcast group: what it holds, gives, waits for, delivers and decides. And the reports of nodes that ran apart: logs
//! and nodes, linked.
#![tactic(auto)]

ghost use Rattle.cast_node.specs.Promise.{BeginsWithNothing, GoesOnBySteps, DeliversAsItsSteps, DecidesAsItsSteps, OwesAsItsSteps, KnowsAsItsSteps, MakesTheFrames};

mod deliveries;
mod giving;
mod node;
mod outgoing;
mod report;

pub use cast_log::{Entry, EntryKind, EntryRef, KindRef, Log, OpenLog, Origin};
pub use deliveries::no_news;
pub use node::{Node, Numbers};
pub use report::{EngineEnd, GroupReport, NodeReport};

/// A law of every node, whatever steps it took and whatever frames came to it. A new node matches no steps. A node that matches its
/// steps answers the next as the definitions say, or is out of memory. It then matches one step more, or the same if that was refused
/// or the frame could not have been made. What it delivered, decided, owes, knows to be held and sends is what they say.
pub fn answers_by_its_steps()
    ensures begins { BeginsWithNothing }
    ensures goes_on { GoesOnBySteps }
    ensures delivered { DeliversAsItsSteps }
    ensures decided { DecidesAsItsSteps }
    ensures owed { OwesAsItsSteps }
    ensures known { KnowsAsItsSteps }
    ensures frames { MakesTheFrames }
{}
