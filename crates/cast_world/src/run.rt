//! A whole run: the replies to a list of events, and the world after them.
ghost use Rattle.std.specs.Prelude.{◌≡◌, IfOk};
ghost use Rattle.cast_model.specs.Replies.{history, replies, is_want_of_memory};
ghost use Rattle.cast_model.specs.Headline.{DeliversPrefixes, DeliversNothingAfterClose, DecidesProposals, DecidesFewValues, DecidesWithinFaults};
ghost use Rattle.cast_world.specs.Group.{Stands};

use crate::world::World;
use cast_message::{Config, Event, List, Reply, StepFault};
use std::alloc::{AllocError, Global};

/// The group after these events, and the replies to them, in order. If a step is out of memory, the call is too.
pub fn run_events(
    alloc: Global,
    config: Config,
    events: &[Event],
) -> Result<(World, List<Reply>), AllocError>
    ensures replies { IfOk result (λ run. run.1 ≡ replies config events.now) }
    ensures stands { IfOk result (λ run. Stands config (history config events.now) run.0) }

    // What a node delivers from a sender is a prefix of what that sender broadcast, with nothing after its close.
    ensures prefix { IfOk result (λ run. DeliversPrefixes config events.now run.1) }
    ensures closed { IfOk result (λ run. DeliversNothingAfterClose events.now run.1) }

    // Each decided value was proposed in its instance, which has at most f + 1 of them, and at most k if f is below k.
    ensures proposed { IfOk result (λ run. DecidesProposals config events.now run.1) }
    ensures few { IfOk result (λ run. DecidesFewValues config run.1) }
    ensures within { IfOk result (λ run. DecidesWithinFaults config run.1) }
{
    let mut world = World::new(alloc, config)?;
    let mut replies = List::with_capacity(alloc, events.len())?;
    for event in events {
        let reply = world.step(event);
        if is_want_of_memory(&reply) {
            return Err(AllocError);
        }
        replies.push(reply)?;
    }
    Ok((world, replies))
}

/// Whether a step was out of memory.
pub fn is_want_of_memory(reply: &Reply) -> bool
    ensures { result ≡ is_want_of_memory reply.now }
{
    matches!(reply, Err(StepFault::Memory))
}
