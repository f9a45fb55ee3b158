//! The rules of a good record, each as a question about what is kept of the lines so far.
ghost use Rattle.std.specs.Prelude.{◌≡◌, nat_lt};
ghost use Rattle.cast_record.specs.Rules.{is_head, names_below};
ghost use Rattle.cast_record.specs.WordLines.{line_said};
ghost use Rattle.cast_judge.specs.Kept.{rule_by, is_out_of_place, breaks_prefix, is_after_close, is_not_proposed, is_of_too_many, is_after_crash, is_proposed_twice, is_second_proposal};
ghost use Rattle.cast_judge.specs.Kept.{count_with, instance_at};

use crate::kept::{Kept, Stage};
use cast_message::{Decision, NodeId};
use cast_record::{ItemWord, WordLine};

/// The least rule that the line breaks, if it breaks one.
pub fn broken_rule(kept: &Kept, line: &WordLine<'_>) -> Option<u64>
    ensures { result ≡ rule_by kept.now (line_said line.now) }
{
    if is_out_of_place(kept, line) {
        Some(0)
    } else if breaks_prefix(kept, line) {
        Some(1)
    } else if is_after_close(kept, line) {
        Some(2)
    } else if is_not_proposed(kept, line) {
        Some(3)
    } else if is_of_too_many(kept, line) {
        Some(4)
    } else if is_after_crash(kept, line) {
        Some(5)
    } else if is_proposed_twice(kept, line) {
        Some(6)
    } else {
        None
    }
}

fn is_out_of_place(kept: &Kept, line: &WordLine<'_>) -> bool
    ensures { result ≡ is_out_of_place kept.now (line_said line.now) }
{
    match kept.stage {
        Stage::Start => !is_head(line),
        Stage::Body => is_head(line) || !names_below(kept.nodes.len() as u64, line),
        Stage::Ended => true,
    }
}

fn breaks_prefix(kept: &Kept, line: &WordLine<'_>) -> bool
    ensures { result ≡ breaks_prefix kept.now (line_said line.now) }
{
    match line {
        WordLine::Broadcast { sender, number, .. } => *number != kept.item_count(*sender),
        WordLine::Delivered {
            node,
            sender,
            number,
            item,
        } => { *number != kept.delivered(*node, *sender) || !kept.has_item(*sender, *number, item) }
        _ => false,
    }
}

fn is_after_close(kept: &Kept, line: &WordLine<'_>) -> bool
    ensures { result ≡ is_after_close kept.now (line_said line.now) }
{
    match line {
        WordLine::Broadcast { sender, .. } => match kept.node(*sender) {
            Some(node) => node.closed,
            None => false,
        },
        _ => false,
    }
}

fn is_not_proposed(kept: &Kept, line: &WordLine<'_>) -> bool
    ensures { result ≡ is_not_proposed kept.now (line_said line.now) }
{
    match line {
        WordLine::Decided { decision, .. } => match kept.instances.get(decision.instance) {
            Some(instance) => !instance.is_proposed(decision.value),
            None => true,
        },
        _ => false,
    }
}

fn is_of_too_many(kept: &Kept, line: &WordLine<'_>) -> bool
    ensures { result ≡ is_of_too_many kept.now (line_said line.now) }
{
    match line {
        WordLine::Decided { decision, .. } => {
            kept.faults < kept.choices && exceeds_choices(kept, *decision)
        }
        _ => false,
    }
}

fn is_after_crash(kept: &Kept, line: &WordLine<'_>) -> bool
    ensures { result ≡ is_after_crash kept.now (line_said line.now) }
{
    match line {
        WordLine::Broadcast { sender, .. } => kept.has_crashed(*sender),
        WordLine::Delivered { node, .. }
        | WordLine::Decided { node, .. }
        | WordLine::Crashed { node } => kept.has_crashed(*node),
        _ => false,
    }
}

fn is_proposed_twice(kept: &Kept, line: &WordLine<'_>) -> bool
    ensures { result ≡ is_proposed_twice kept.now (line_said line.now) }
{
    match line {
        WordLine::Broadcast { sender, item, .. } => is_second_proposal(kept, *sender, item),
        _ => false,
    }
}

fn is_second_proposal(kept: &Kept, sender: NodeId, item: &ItemWord<'_>) -> bool
    ensures { result ≡ is_second_proposal kept.now sender item.now }
{
    match item.proposal() {
        Some((instance, _)) => match kept.instances.get(instance) {
            Some(instance) => instance.has_proposed(sender),
            None => false,
        },
        None => false,
    }
}

fn exceeds_choices(kept: &Kept, decision: Decision) -> bool
    ensures { result ≡ nat_lt kept.now.choices
        (count_with (instance_at kept.now.instances decision.instance).candidates
        decision.value) }
{
    match kept.instances.get(decision.instance) {
        Some(instance) => instance.exceeds(kept.choices, decision.value),
        None => kept.choices < 1,
    }
}

fn is_head(line: &WordLine<'_>) -> bool
    ensures { result ≡ is_head (line_said line.now) }
{
    matches!(line, WordLine::Head { .. } | WordLine::Head2 { .. })
}

fn names_below(nodes: u64, line: &WordLine<'_>) -> bool
    ensures { result ≡ names_below nodes (line_said line.now) }
{
    match line {
        WordLine::Broadcast { sender, .. } => u64::from(sender.0) < nodes,
        WordLine::Delivered { node, sender, .. } => {
            u64::from(node.0) < nodes && u64::from(sender.0) < nodes
        }
        WordLine::Decided { node, .. } | WordLine::Crashed { node } => u64::from(node.0) < nodes,
        _ => true,
    }
}
