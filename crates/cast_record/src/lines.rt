//! The lines that an event and its reply have in a record.
ghost use Rattle.std.specs.Prelude.{◌≡◌, ◌<◌, ◌++◌, length, IfOk, OnOk, OnErr};
ghost use Rattle.cast_message.specs.StepCode.{step_code};
ghost use Rattle.cast_record.specs.Lines.{answer_lines, lines_for, outcome_lines, refusal_lines};

use crate::line::{Line, MOST_CODE};
use cast_message::{Answer, Event, List, Message, NodeId, Outcome, Reply, StepFault};
use std::alloc::{AllocError, Global};

/// The lines of an event, which has this index in its script, and its reply. An accepted order has its broadcast, and then what it
/// delivered and decided; an arrival has what it delivered and decided; a crash has itself; a send or an acknowledgement has none.
/// A refusal has itself, but none if it is out of memory, which ends a record. A reply that does not fit the event has no lines. It
/// takes memory only if there are lines.
pub fn lines_of(
    alloc: Global,
    index: u64,
    event: &Event,
    reply: &Reply,
) -> Result<List<Line>, AllocError>
    ensures exact { IfOk result (λ lines. lines ≡ lines_for index event.now reply.now) }
    ensures err { OnErr result (0 < length (lines_for index event.now reply.now)) }
{
    let mut lines = List::new(alloc);
    match reply {
        Ok(answer) => put_answer(&mut lines, event, answer)?,
        Err(fault) => put_refusal(&mut lines, index, *fault)?,
    }
    Ok(lines)
}

fn put_answer(lines: &mut List<Line>, event: &Event, answer: &Answer) -> Result<(), AllocError>
    ensures ok { OnOk result (lines.new ≡ lines.old ++ answer_lines event.now answer.now) }
    ensures err { OnErr result (0 < length (answer_lines event.now answer.now)) }
{
    match (event, answer) {
        (Event::Order { node, item }, Answer::Ordered { number, outcome }) => {
            lines.push(Line::Broadcast(Message {
                sender: *node,
                number: *number,
                item: item.copy()?,
            }))?;
            put_outcome(lines, *node, outcome)
        }
        (Event::Arrive { .. }, Answer::Arrived { node, outcome }) => {
            put_outcome(lines, *node, outcome)
        }
        (Event::Crash { node }, Answer::Down) => lines.push(Line::Crashed { node: *node }),
        _ => Ok(()),
    }
}

fn put_refusal(lines: &mut List<Line>, index: u64, fault: StepFault) -> Result<(), AllocError>
    ensures ok { OnOk result (lines.new ≡ lines.old ++ refusal_lines index (step_code fault)) }
    ensures err { OnErr result (0 < length (refusal_lines index (step_code fault))) }
{
    let code = fault.code();
    if code <= MOST_CODE {
        lines.push(Line::Refused { index, code })?;
    }
    Ok(())
}

// What was delivered at the node, and then what was decided there.
fn put_outcome(lines: &mut List<Line>, node: NodeId, outcome: &Outcome) -> Result<(), AllocError>
    ensures ok { OnOk result (lines.new ≡ lines.old ++ outcome_lines node outcome.now) }
    ensures err { OnErr result (0 < length (outcome_lines node outcome.now)) }
{
    for message in outcome.deliveries.as_slice() {
        lines.push(Line::Delivered {
            node,
            message: message.copy()?,
        })?;
    }
    for decision in outcome.decisions.as_slice() {
        lines.push(Line::Decided {
            node,
            decision: *decision,
        })?;
    }
    Ok(())
}
