//! Where the group disagrees with the logs.
ghost use Rattle.std.specs.Prelude.{◌≡◌, ◌<◌, IfNone, IsOk, IsTrue, Ok, length, map, slice_index_or};
ghost use Rattle.std.specs.List.{All};
ghost use Rattle.cast_node.specs.Linked.{outcome_in};
ghost use Rattle.cast_logfile.specs.Merging.{outcome_at, IsAt, AreAt};
ghost use Rattle.cast_logfile.specs.declared.merging.StepPlace.{StepPlace as Place};

use crate::file_log::LoggedStep;
use crate::merging::StepPlace;
use crate::same::has_outcome;
use cast_message::{Answer, List, Reply, StepFault};
use std::alloc::AllocError;

/// Why logs don't merge into a run of the group.
#[derive(Clone, Copy)]
pub enum Misfit {
    /// The group refuses the step at this place.
    Refused { at: StepPlace, fault: StepFault },
    /// Its deliveries or decisions differ there, or the frame is for another node.
    Differs { at: StepPlace },
    /// Memory ran out.
    Memory,
}

impl From<AllocError> for Misfit {
    fn from(_refused: AllocError) -> Misfit {
        Misfit::Memory
    }
}

/// The first step that is refused, whose frame arrives at a node other than the log's, or whose deliveries or decisions
/// differ from the logged ones.
pub fn find_misfit(
    logs: &[List<LoggedStep>],
    order: &[StepPlace],
    replies: &[Reply],
) -> Option<Misfit>
    ensures accepted { IfNone result (All IsOk replies.now) }
    ensures outcomes { IfNone result
        (map outcome_in replies.now ≡ map (outcome_at logs.now) order.now) }
    ensures places { IfNone result (AreAt order.now replies.now) }
{
    if order.len() != replies.len() {
        return Some(Misfit::Memory);
    }
    'each: for index in 0..order.len() {
        let at = place_in(order, index);
        let misfit = misfit_at(logs, at, &replies[index]);
        if misfit.is_some() {
            return misfit;
        }
    }
    None
}

fn misfit_at(logs: &[List<LoggedStep>], at: StepPlace, reply: &Reply) -> Option<Misfit>
    ensures accepted { IfNone result (IsOk reply.now) }
    ensures outcome { IfNone result (outcome_in reply.now ≡ outcome_at logs.now at) }
    ensures place { IfNone result (IsAt at.node reply.now) }
{
    match reply {
        Ok(answer) => {
            let Some(log) = logs.get(at.node) else {
                return Some(Misfit::Differs { at });
            };
            let Some(step) = log.as_slice().get(at.place) else {
                return Some(Misfit::Differs { at });
            };
            if is_at(answer, at.node) && has_outcome(answer, &step.outcome) {
                None
            } else {
                Some(Misfit::Differs { at })
            }
        }
        Err(fault) => Some(Misfit::Refused { at, fault: *fault }),
    }
}

// Whether the step belongs to this node: a frame that arrived is for it.
fn is_at(answer: &Answer, node: usize) -> bool
    ensures { IsTrue result → IsAt node (Ok answer.now) }
{
    match answer {
        Answer::Arrived { node: target, .. } => usize::from(target.0) == node,
        _ => true,
    }
}

fn place_in(order: &[StepPlace], index: usize) -> StepPlace
    requires { index < length order.now }
    ensures { (other : Place) → result ≡ slice_index_or order.now index other }
{
    order[index]
}
