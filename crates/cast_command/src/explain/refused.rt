//! Which event of a script was refused when it was run, and why.
use crate::commands::refusal_meaning;
use crate::explain::excerpt::cut;
use serde_json::Value;
use std::alloc::{AllocError, Global};

/// A script's refused events: the place of the first, from 0, its code, and their number.
#[derive(Clone, Copy)]
pub struct Refusals {
    pub index: u64,
    pub code: u64,
    pub count: u64,
}

/// Which event of the script in these bytes was refused first, and why.
pub fn refused_words(
    alloc: Global,
    bytes: &[u8],
    refusals: Refusals,
) -> Result<String, AllocError> {
    let Refusals { index, code, count } = refusals;
    let event = event_words(alloc, bytes, index)?;
    let meaning = refusal_meaning(code).unwrap_or("no refusal has this number");
    let words = format!(in alloc;
        "events, element {index} (counted from 0): {event} is refused for {code} ({meaning})"
    )?;
    if count > 1 {
        format!(in alloc; "{words}, the first of {count} refusals")
    } else {
        Ok(words)
    }
}

// The event at this place, as shown.
fn event_words(alloc: Global, bytes: &[u8], index: u64) -> Result<String, AllocError> {
    let script = match Value::from_slice(alloc, bytes) {
        Ok(script) => script,
        Err(error) if error.is_memory() => return Err(AllocError),
        Err(_) => return String::from_str(alloc, "the event"),
    };
    let events = script.get("events").and_then(Value::as_array);
    match events.and_then(|events| events.as_slice().get(index as usize)) {
        Some(event) => {
            let text = event.to_string(alloc)?;
            cut(alloc, text.as_bytes())
        }
        None => String::from_str(alloc, "the event"),
    }
}
