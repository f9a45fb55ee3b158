//! What is wrong with an element of a script's lists: a value that is not what is expected there.
use crate::explain::excerpt::cut;
use serde_json::Value;
use std::alloc::{AllocError, Global};

/// What is expected of a number.
pub const NUMBER: &str = "a whole number from 0 to 18446744073709551615, without point or exponent";

const EVENT: &str =
    "an event: [\"order\",NODE,ITEM..], [\"send\",FROM,TO,SLOT], [\"ack\",FROM,TO,SLOT], \
[\"arrive\",FROM,SEQ], [\"crash\",NODE] or [\"settle\"]";

const ORDER: &str =
    "[\"order\",NODE,ITEM..], where ITEM.. is \"data\",HEX or \"propose\",INSTANCE,VALUE or \"close\"";

const FAULT: &str =
    "a fault: [\"lose\",KIND,FROM,TO,FIRST,STEP], [\"repeat\",KIND,FROM,TO,FIRST,STEP], \
[\"delay\",KIND,FROM,TO,FIRST,STEP,COUNT] or [\"crash\",NODE,ENTRIES]";

const ITEMS: &str =
    "a list of items, each [\"data\",HEX] or [\"propose\",INSTANCE,VALUE] or [\"close\"]";

const ITEM: &str = "an item: [\"data\",HEX] or [\"propose\",INSTANCE,VALUE] or [\"close\"]";

/// A value that is not what is expected.
#[derive(Clone, Copy)]
pub struct Flaw<'a> {
    pub value: &'a Value,
    pub expected: &'static str,
}

impl Flaw<'_> {
    /// The value, and what is expected.
    pub fn words(self, alloc: Global) -> Result<String, AllocError> {
        let Flaw { value, expected } = self;
        let text = value.to_string(alloc)?;
        let found = cut(alloc, text.as_bytes())?;
        format!(in alloc; "{found} is not {expected}")
    }
}

/// What is wrong with the value if it is to be an event.
pub fn event_flaw(value: &Value) -> Flaw<'_> {
    let flaw = match name_and_places(value) {
        Some(("order", places)) => order_flaw(value, places),
        Some(("send", places)) => link_flaw(value, places, "[\"send\",FROM,TO,SLOT]"),
        Some(("ack", places)) => link_flaw(value, places, "[\"ack\",FROM,TO,SLOT]"),
        Some(("arrive", places)) => count_flaw(value, places, "[\"arrive\",FROM,SEQ]"),
        Some(("crash", places)) => crash_flaw(value, places),
        Some(("settle", places)) => unless(places.is_empty(), value, "[\"settle\"]"),
        _ => None,
    };
    flaw.unwrap_or(Flaw {
        value,
        expected: EVENT,
    })
}

/// What is wrong with the value if it is to be a fault of a plan.
pub fn fault_flaw(value: &Value) -> Flaw<'_> {
    let flaw = match name_and_places(value) {
        Some(("lose", places)) => frames_flaw(value, places, "[\"lose\",KIND,FROM,TO,FIRST,STEP]"),
        Some(("repeat", places)) => {
            frames_flaw(value, places, "[\"repeat\",KIND,FROM,TO,FIRST,STEP]")
        }
        Some(("delay", places)) => delay_flaw(value, places),
        Some(("crash", places)) => count_flaw(value, places, "[\"crash\",NODE,ENTRIES]"),
        _ => None,
    };
    flaw.unwrap_or(Flaw {
        value,
        expected: FAULT,
    })
}

/// What is wrong with the value if it is to be a job.
pub fn job_flaw(value: &Value) -> Flaw<'_> {
    let flaw = match places(value) {
        Some([node, items]) => not_node(node).or(items_flaw(items)),
        _ => None,
    };
    flaw.unwrap_or(Flaw {
        value,
        expected: "a job: [NODE,[[ITEM..],[ITEM..],..]]",
    })
}

fn places(value: &Value) -> Option<&[Value]> {
    let list = value.as_array()?;
    Some(list.as_slice())
}

fn name_and_places(value: &Value) -> Option<(&str, &[Value])> {
    let (word, others) = places(value)?.split_first()?;
    Some((word.as_str()?, others))
}

fn order_flaw<'a>(value: &'a Value, places: &'a [Value]) -> Option<Flaw<'a>> {
    match places {
        [node, item @ ..] => not_node(node).or(item_flaw(value, item, ORDER)),
        [] => wrong(value, ORDER),
    }
}

// Two nodes and a number.
fn link_flaw<'a>(value: &'a Value, places: &'a [Value], form: &'static str) -> Option<Flaw<'a>> {
    match places {
        [from, to, slot] => not_node(from).or(not_node(to)).or(not_number(slot)),
        _ => wrong(value, form),
    }
}

// A node and a number.
fn count_flaw<'a>(value: &'a Value, places: &'a [Value], form: &'static str) -> Option<Flaw<'a>> {
    match places {
        [node, count] => not_node(node).or(not_number(count)),
        _ => wrong(value, form),
    }
}

fn crash_flaw<'a>(value: &'a Value, places: &'a [Value]) -> Option<Flaw<'a>> {
    match places {
        [node] => not_node(node),
        _ => wrong(value, "[\"crash\",NODE]"),
    }
}

// A kind of frame, a link, the first frame and the step.
fn frames_flaw<'a>(value: &'a Value, places: &'a [Value], form: &'static str) -> Option<Flaw<'a>> {
    match places {
        [kind, from, to, first, step] => not_kind(kind)
            .or(not_node(from))
            .or(not_node(to))
            .or(not_number(first))
            .or(not_number(step)),
        _ => wrong(value, form),
    }
}

fn delay_flaw<'a>(value: &'a Value, places: &'a [Value]) -> Option<Flaw<'a>> {
    match places {
        [kind, from, to, first, step, count] => not_kind(kind)
            .or(not_node(from))
            .or(not_node(to))
            .or(not_number(first))
            .or(not_number(step))
            .or(not_number(count)),
        _ => wrong(value, "[\"delay\",KIND,FROM,TO,FIRST,STEP,COUNT]"),
    }
}

// What is wrong with the places of the item in this value.
fn item_flaw<'a>(value: &'a Value, places: &'a [Value], form: &'static str) -> Option<Flaw<'a>> {
    let whole = wrong(value, form);
    let Some((word, others)) = places.split_first() else {
        return whole;
    };
    match (word.as_str(), others) {
        (Some("data"), [digits]) => not_digits(digits),
        (Some("propose"), [instance, proposed]) => not_number(instance).or(not_number(proposed)),
        (Some("close"), []) => None,
        _ => whole,
    }
}

// The first item that is not one.
fn items_flaw(value: &Value) -> Option<Flaw<'_>> {
    let Some(items) = places(value) else {
        return wrong(value, ITEMS);
    };
    for item in items {
        let flaw = match places(item) {
            Some(places) => item_flaw(item, places, ITEM),
            None => wrong(item, ITEM),
        };
        if flaw.is_some() {
            return flaw;
        }
    }
    None
}

fn not_node(value: &Value) -> Option<Flaw<'_>> {
    let is_node = matches!(value.as_u64(), Some(0..=255));
    unless(is_node, value, "a node, a whole number from 0 to 255")
}

/// Says if the value is not a number.
pub fn not_number(value: &Value) -> Option<Flaw<'_>> {
    unless(value.as_u64().is_some(), value, NUMBER)
}

fn not_kind(value: &Value) -> Option<Flaw<'_>> {
    unless(
        matches!(value.as_str(), Some("carry" | "took")),
        value,
        "\"carry\" or \"took\"",
    )
}

fn not_digits(value: &Value) -> Option<Flaw<'_>> {
    let are_digits = match value.as_str() {
        Some(text) => text.len() % 2 == 0 && text.as_bytes().iter().all(|byte| is_digit(*byte)),
        None => false,
    };
    unless(
        are_digits,
        value,
        "a text with two digits, 0 to 9 and a to f, for each byte",
    )
}

fn is_digit(byte: u8) -> bool {
    matches!(byte, b'0'..=b'9' | b'a'..=b'f')
}

/// What is expected of the value, if it is wrong.
pub fn unless<'a>(is_right: bool, value: &'a Value, expected: &'static str) -> Option<Flaw<'a>> {
    if is_right {
        None
    } else {
        wrong(value, expected)
    }
}

fn wrong<'a>(value: &'a Value, expected: &'static str) -> Option<Flaw<'a>> {
    Some(Flaw { value, expected })
}
