//! What is wrong with a script as a whole: it is not an object, or a member is unknown, missing or of the wrong kind.
use crate::explain::element::{Flaw, NUMBER, not_number, unless};
use crate::explain::excerpt::quoted;
use serde_json::Value;
use std::alloc::{AllocError, Global};

/// The numbers that a script must have.
const NEEDED: [&str; 3] = ["nodes", "faults", "choices"];

/// The numbers that a script may have.
const NUMBERS: [&str; 5] = [
    "item_limit",
    "log_limit",
    "box_size",
    "first_stamp",
    "turns",
];

/// The lists that a script may have.
const LISTS: [&str; 3] = ["events", "plan", "jobs"];

/// What is wrong with the value as a whole.
pub fn members_words(alloc: Global, value: &Value) -> Result<String, AllocError> {
    let Some(members) = value.as_object() else {
        let expected = "an object";
        return Flaw { value, expected }.words(alloc);
    };
    for name in members.keys() {
        if !is_known(name.as_str()) {
            let found = quoted(alloc, name.as_bytes())?;
            return format!(in alloc; "no member is called {found}");
        }
    }
    for name in NEEDED {
        if value.get(name).is_none() {
            return format!(in alloc; "member \"{name}\" is missing: {NUMBER}");
        }
    }
    match wrong_member(value) {
        Some(wrong) => wrong_words(alloc, wrong),
        None => format!(in alloc; "a member is not of its kind"),
    }
}

fn is_known(name: &str) -> bool {
    NEEDED.contains(&name) || NUMBERS.contains(&name) || LISTS.contains(&name) || name == "mode"
}

/// A member of the wrong kind.
#[derive(Clone, Copy)]
struct Wrong<'a> {
    name: &'static str,
    flaw: Flaw<'a>,
}

fn wrong_words(alloc: Global, wrong: Wrong<'_>) -> Result<String, AllocError> {
    let Wrong { name, flaw } = wrong;
    let words = flaw.words(alloc)?;
    format!(in alloc; "member \"{name}\": {words}")
}

fn wrong_member(value: &Value) -> Option<Wrong<'_>> {
    for name in NEEDED {
        if let Some(wrong) = wrong_number(value, name) {
            return Some(wrong);
        }
    }
    for name in NUMBERS {
        if let Some(wrong) = wrong_number(value, name) {
            return Some(wrong);
        }
    }
    if let Some(wrong) = wrong_mode(value) {
        return Some(wrong);
    }
    for name in LISTS {
        if let Some(wrong) = wrong_list(value, name) {
            return Some(wrong);
        }
    }
    None
}

fn wrong_number<'a>(value: &'a Value, name: &'static str) -> Option<Wrong<'a>> {
    let flaw = not_number(value.get(name)?)?;
    Some(Wrong { name, flaw })
}

fn wrong_mode(value: &Value) -> Option<Wrong<'_>> {
    let mode = value.get("mode")?;
    let is_known = matches!(mode.as_str(), Some("basic" | "uniform"));
    let flaw = unless(is_known, mode, "\"basic\" or \"uniform\"")?;
    Some(Wrong { name: "mode", flaw })
}

fn wrong_list<'a>(value: &'a Value, name: &'static str) -> Option<Wrong<'a>> {
    let list = value.get(name)?;
    let flaw = unless(list.is_array(), list, "a list")?;
    Some(Wrong { name, flaw })
}
