//! What is wrong with a script: where it is not JSON, which member or element is wrong, or which limit it breaks.
use crate::explain::element::{Flaw, event_flaw, fault_flaw, job_flaw};
use crate::explain::members::members_words;
use crate::explain::settings::settings_words;
use cast_script::ScriptFault;
use serde_json::Value;
use std::alloc::{AllocError, Global};

/// Why these bytes are refused as a script with this fault.
pub fn script_words(alloc: Global, bytes: &[u8], fault: ScriptFault) -> Result<String, AllocError> {
    match Value::from_slice(alloc, bytes) {
        Ok(value) => value_words(alloc, &value, fault),
        Err(error) if error.is_memory() => Err(AllocError),
        Err(error) => match other_input(bytes) {
            Some(words) => String::from_str(alloc, words),
            None => format!(in alloc; "{error}"),
        },
    }
}

// What these bytes are, if they are not JSON but something else that the program knows.
fn other_input(bytes: &[u8]) -> Option<&'static str> {
    if bytes.is_empty() {
        return Some("the input is empty, where a script is expected");
    }
    let is_record = bytes.starts_with(b"cast/1 ") || bytes.starts_with(b"cast/2 ");
    is_record.then_some("this is a record, which judge takes, where a script is expected")
}

fn value_words(alloc: Global, value: &Value, fault: ScriptFault) -> Result<String, AllocError> {
    match fault {
        ScriptFault::Shape { index: 0 } => members_words(alloc, value),
        ScriptFault::Shape { index } => element_words(alloc, value, index - 1),
        ScriptFault::Config(fault) => settings_words(alloc, value, fault),
        ScriptFault::NotJson | ScriptFault::Memory => format!(in alloc; "{fault}"),
    }
}

// What is wrong with the element at this place in the list of events, plan and jobs.
fn element_words(alloc: Global, value: &Value, place: u64) -> Result<String, AllocError> {
    let events = list(value, "events");
    let plan = list(value, "plan");
    let jobs = list(value, "jobs");
    let place = place as usize;
    if place < events.len() {
        return flaw_words(alloc, "events", place, event_flaw(&events[place]));
    }
    let place = place - events.len();
    if place < plan.len() {
        return flaw_words(alloc, "plan", place, fault_flaw(&plan[place]));
    }
    let place = place - plan.len();
    if place < jobs.len() {
        return flaw_words(alloc, "jobs", place, job_flaw(&jobs[place]));
    }
    format!(in alloc; "no element has this number")
}

fn list<'a>(value: &'a Value, name: &str) -> &'a [Value] {
    match value.get(name).and_then(Value::as_array) {
        Some(list) => list.as_slice(),
        None => &[],
    }
}

fn flaw_words(
    alloc: Global,
    list: &str,
    place: usize,
    flaw: Flaw<'_>,
) -> Result<String, AllocError> {
    let words = flaw.words(alloc)?;
    format!(in alloc; "{list}, element {place} (counted from 0): {words}")
}
