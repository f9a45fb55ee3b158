//! What is wrong with a configuration: the rule that it breaks, and the values that break it.
use cast_message::{ConfigFault, MOST_ENTRIES, MOST_ITEMS, MOST_NODES, MOST_PLACES};
use serde_json::Value;
use std::alloc::{AllocError, Global};

/// The limit that the script's members break, and their values.
pub fn settings_words(
    alloc: Global,
    script: &Value,
    fault: ConfigFault,
) -> Result<String, AllocError> {
    let nodes = number(script, "nodes");
    let faults = number(script, "faults");
    match fault {
        ConfigFault::Nodes => range_words(alloc, script, "nodes", MOST_NODES),
        ConfigFault::Faults => format!(in alloc;
            "faults is {faults} and nodes is {nodes}; faults must be below nodes"
        ),
        ConfigFault::Choices => {
            let choices = number(script, "choices");
            format!(in alloc;
                "choices is {choices} and nodes is {nodes}; choices must be from 1 to nodes"
            )
        }
        ConfigFault::ItemLimit => range_words(alloc, script, "item_limit", MOST_ITEMS),
        ConfigFault::LogLimit => range_words(alloc, script, "log_limit", MOST_ENTRIES),
        ConfigFault::BoxSize => range_words(alloc, script, "box_size", MOST_PLACES),
        ConfigFault::Mode => format!(in alloc;
            "mode is uniform, faults is {faults} and nodes is {nodes}; faults must be fewer than half of nodes"
        ),
    }
}

fn range_words(alloc: Global, script: &Value, name: &str, most: u64) -> Result<String, AllocError> {
    let value = number(script, name);
    format!(in alloc; "{name} is {value}; it must be from 1 to {most}")
}

// The member as a number. The members that a broken rule is about are there or within their limits.
fn number(script: &Value, name: &str) -> u64 {
    script.get(name).and_then(Value::as_u64).unwrap_or(0)
}
