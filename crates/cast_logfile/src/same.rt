//! Whether two outcomes are the same.
ghost use Rattle.std.specs.Prelude.{◌≡◌, IsTrue};
ghost use Rattle.cast_model.specs.OwnSteps.{nothing};
ghost use Rattle.cast_node.specs.Linked.{outcome_in_answer};

use cast_message::{Answer, Decision, Item, Message, Outcome};

/// Whether a step delivered and decided this.
pub fn has_outcome(answer: &Answer, outcome: &Outcome) -> bool
    ensures { IsTrue result → outcome_in_answer answer.now ≡ outcome.now }
{
    match answer {
        Answer::Ordered { outcome: own, .. } => is_same(own, outcome),
        Answer::Arrived { outcome: own, .. } => is_same(own, outcome),
        Answer::Sent { .. } | Answer::Down => is_nothing(outcome),
    }
}

fn is_nothing(outcome: &Outcome) -> bool
    ensures { IsTrue result → outcome.now ≡ nothing }
{
    outcome.deliveries.as_slice().is_empty() && outcome.decisions.as_slice().is_empty()
}

fn is_same(one: &Outcome, other: &Outcome) -> bool
    ensures { IsTrue result → one.now ≡ other.now }
{
    are_same_messages(one.deliveries.as_slice(), other.deliveries.as_slice())
        && are_same_decisions(one.decisions.as_slice(), other.decisions.as_slice())
}

fn are_same_messages(one: &[Message], other: &[Message]) -> bool
    ensures { IsTrue result → one.now ≡ other.now }
{
    if one.len() != other.len() {
        return false;
    }
    'each: for place in 0..one.len() {
        if !is_same_message(&one[place], &other[place]) {
            return false;
        }
    }
    true
}

fn are_same_decisions(one: &[Decision], other: &[Decision]) -> bool
    ensures { IsTrue result → one.now ≡ other.now }
{
    if one.len() != other.len() {
        return false;
    }
    'each: for place in 0..one.len() {
        if !is_same_decision(one[place], other[place]) {
            return false;
        }
    }
    true
}

fn is_same_decision(one: Decision, other: Decision) -> bool
    ensures { IsTrue result → one ≡ other }
{
    one.instance == other.instance && one.value == other.value
}

fn is_same_message(one: &Message, other: &Message) -> bool
    ensures { IsTrue result → one.now ≡ other.now }
{
    one.sender.0 == other.sender.0
        && one.number == other.number
        && is_same_item(&one.item, &other.item)
}

fn is_same_item(one: &Item, other: &Item) -> bool
    ensures { IsTrue result → one.now ≡ other.now }
{
    match (one, other) {
        (Item::Data(one), Item::Data(other)) => one.as_slice() == other.as_slice(),
        (
            Item::Propose { instance, value },
            Item::Propose {
                instance: other_instance,
                value: other_value,
            },
        ) => instance == other_instance && value == other_value,
        (Item::Close, Item::Close) => true,
        _ => false,
    }
}
