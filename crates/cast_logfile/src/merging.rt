//! The steps of a group's logs in one list, taken by the whole group.
ghost use Rattle.std.specs.Prelude.{◌≡◌, ℕ, ◌<◌, ◌≤◌, ◌⊎◌, None, MatchOption, IfOk, length, map};
ghost use Rattle.cast_model.specs.Replies.{replies};
ghost use Rattle.cast_model.specs.Headline.{DeliversPrefixes, DeliversNothingAfterClose, DecidesProposals, DecidesFewValues, DecidesWithinFaults};
ghost use Rattle.cast_logfile.specs.Fronts.{taken_of, HasStep};
ghost use Rattle.cast_logfile.specs.Merging.{IsWhole, Tells, event_at, log_of};

use crate::file_log::LoggedStep;
use crate::misfit::{Misfit, find_misfit};
use cast_message::{Config, Event, List, Reply};
use cast_world::{World, run_events};
use std::alloc::{AllocError, Global};

/// Where a step is: its node's log, and its place there.
#[derive(Clone, Copy)]
pub struct StepPlace {
    pub node: usize,
    pub place: usize,
}

/// The steps of all logs as events of one group, its replies to them, and the group afterwards.
#[derive(Drop)]
pub struct Merged {
    pub order: List<StepPlace>,
    pub events: List<Event>,
    pub replies: List<Reply>,
    pub world: World,
}

/// Lets the group take the steps of the logs, by stamp, then by node. An error is the first step that it refuses, or
/// whose deliveries or decisions differ from the logged ones, or out of memory. Any logs will do, wherever they come
/// from.
pub fn merge_steps(
    alloc: Global,
    config: Config,
    logs: &[List<LoggedStep>],
) -> Result<Merged, Misfit>
    ensures tells { IfOk result (λ merged.
        Tells logs.now merged.order merged.events merged.replies) }
    ensures replies { IfOk result (λ merged. merged.replies ≡ replies config merged.events) }

    // What each node delivers from a sender is a prefix of what that sender broadcast, with nothing after its close.
    ensures prefix { IfOk result (λ merged.
        DeliversPrefixes config merged.events merged.replies) }
    ensures closed { IfOk result (λ merged.
        DeliversNothingAfterClose merged.events merged.replies) }

    // Each decided value was proposed in its instance. If the faults are fewer than k, at most k values are decided in
    // it. For any k, they are at most one more than the tolerated faults.
    ensures proposed { IfOk result (λ merged.
        DecidesProposals config merged.events merged.replies) }
    ensures few { IfOk result (λ merged. DecidesFewValues config merged.replies) }
    ensures within { IfOk result (λ merged. DecidesWithinFaults config merged.replies) }
{
    let order = order_by_stamp(alloc, logs)?;
    let events = events_of(alloc, logs, order.as_slice())?;
    let (world, replies) = run_events(alloc, config, events.as_slice())?;
    if let Some(misfit) = find_misfit(logs, order.as_slice(), replies.as_slice()) {
        return Err(misfit);
    }
    Ok(Merged {
        order,
        events,
        replies,
        world,
    })
}

// The steps by stamp, then by node.
fn order_by_stamp(alloc: Global, logs: &[List<LoggedStep>]) -> Result<List<StepPlace>, AllocError>
    ensures { IfOk result (IsWhole logs.now) }
{
    let mut at = vec![in alloc; 0usize; logs.len()]?;
    let mut order = List::new(alloc);
    'steps: for _step in 0..u64::MAX {
        let Some(node) = next_node(logs, at.as_slice()) else {
            return Ok(order);
        };
        let place = at[node];
        let Some(next) = place.checked_add(1) else {
            return Err(AllocError);
        };
        order.push(StepPlace { node, place })?;
        at[node] = next;
    }
    Err(AllocError)
}

// The node whose step comes next: of the steps left at these places, the one with the least stamp, and of equal ones
// the first.
fn next_node(logs: &[List<LoggedStep>], at: &[usize]) -> Option<usize>
    requires { length at.now ≡ length logs.now }
    ensures { MatchOption result
        ((p : ℕ) → p < length logs.now → length (log_of logs.now p) ≤ taken_of at.now p)
        (HasStep logs.now at.now) }
{
    let mut first: Option<Front> = None;
    'nodes: for node in 0..logs.len() {
        first = first_front(first, front_at(&logs[node], node, at[node]));
    }
    match first {
        Some(front) => Some(front.node),
        None => None,
    }
}

// What is left of a node's log, by its first stamp.
#[derive(Clone, Copy)]
struct Front {
    node: usize,
    stamp: u64,
}

fn front_at(log: &List<LoggedStep>, node: usize, at: usize) -> Option<Front>
    ensures { MatchOption result (length log.now ≤ at)
        (λ front. (front.node ≡ node) × (at < length log.now)) }
{
    match log.as_slice().get(at) {
        Some(step) => Some(Front {
            node,
            stamp: step.stamp,
        }),
        None => None,
    }
}

fn first_front(first: Option<Front>, other: Option<Front>) -> Option<Front>
    ensures one { (result ≡ first) ⊎ (result ≡ other) }
    ensures none { result ≡ None → (first ≡ None) × (other ≡ None) }
{
    match (first, other) {
        (Some(one), Some(two)) => Some(if two.stamp < one.stamp { two } else { one }),
        (Some(one), None) => Some(one),
        (None, two) => two,
    }
}

fn events_of(
    alloc: Global,
    logs: &[List<LoggedStep>],
    order: &[StepPlace],
) -> Result<List<Event>, AllocError>
    ensures { IfOk result (λ events. events ≡ map (event_at logs.now) order.now) }
{
    let mut events = List::with_capacity(alloc, order.len())?;
    for place in order {
        events.push(event_of(logs, *place)?)?;
    }
    Ok(events)
}

fn event_of(logs: &[List<LoggedStep>], place: StepPlace) -> Result<Event, AllocError>
    ensures { IfOk result (λ event. event ≡ event_at logs.now place) }
{
    let Some(log) = logs.get(place.node) else {
        return Err(AllocError);
    };
    let Some(step) = log.as_slice().get(place.place) else {
        return Err(AllocError);
    };
    step.event.copy()
}
