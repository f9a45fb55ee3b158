//! What is wrong with a group that is to run in threads: a job or a fault of the plan that does not fit its nodes.
use cast_desk::MOST_CLIENTS;
use cast_message::{Fault, LiveFault, NodeId};
use cast_script::{Script, ScriptFault, read_script};
use std::alloc::{AllocError, Global};

/// Why the group of the script in these bytes is not run.
pub fn group_words(alloc: Global, bytes: &[u8], fault: LiveFault) -> Result<String, AllocError> {
    let words = match read_script(alloc, bytes) {
        Ok(script) => misfit_words(alloc, &script, fault)?,
        Err(ScriptFault::Memory) => return Err(AllocError),
        Err(_) => None,
    };
    match words {
        Some(words) => Ok(words),
        None => format!(in alloc; "{fault}"),
    }
}

fn misfit_words(
    alloc: Global,
    script: &Script,
    fault: LiveFault,
) -> Result<Option<String>, AllocError> {
    match fault {
        LiveFault::Jobs => jobs_words(alloc, script),
        LiveFault::Plan => plan_words(alloc, script),
        LiveFault::Gates | LiveFault::Memory | LiveFault::Threads => Ok(None),
    }
}

// The first job at a missing node, or one too many for its node.
fn jobs_words(alloc: Global, script: &Script) -> Result<Option<String>, AllocError> {
    let nodes = script.config.nodes();
    let mut counts = [0u8; 256];
    for (place, (node, _items)) in script.jobs.as_slice().iter().enumerate() {
        let NodeId(node) = *node;
        if u64::from(node) >= nodes {
            let words = missing_words(alloc, node, nodes)?;
            return Ok(Some(format!(in alloc; "jobs, element {place} (counted from 0): {words}")?));
        }
        let count = &mut counts[node as usize];
        if u64::from(*count) >= MOST_CLIENTS {
            return Ok(Some(format!(in alloc;
                "jobs, element {place} (counted from 0): node {node} has {MOST_CLIENTS} jobs already, the most of a node"
            )?));
        }
        *count += 1;
    }
    Ok(None)
}

// The first fault that names a missing node, or a link from a node to itself.
fn plan_words(alloc: Global, script: &Script) -> Result<Option<String>, AllocError> {
    let nodes = script.config.nodes();
    for (place, fault) in script.plan.faults.as_slice().iter().enumerate() {
        if let Some(words) = fault_words(alloc, fault, nodes)? {
            return Ok(Some(format!(in alloc; "plan, element {place} (counted from 0): {words}")?));
        }
    }
    Ok(None)
}

fn fault_words(alloc: Global, fault: &Fault, nodes: u64) -> Result<Option<String>, AllocError> {
    let (NodeId(from), NodeId(to)) = match fault {
        Fault::Lose(frames) | Fault::Repeat(frames) | Fault::Delay { frames, .. } => {
            (frames.from, frames.to)
        }
        Fault::Crash {
            node: NodeId(node),
            ..
        } => return find_missing(alloc, &[*node], nodes),
    };
    if let Some(words) = find_missing(alloc, &[from, to], nodes)? {
        return Ok(Some(words));
    }
    if from == to {
        return Ok(Some(format!(in alloc; "there is no link from node {from} to itself")?));
    }
    Ok(None)
}

// The first of these numbers that no node has.
fn find_missing(alloc: Global, numbers: &[u8], nodes: u64) -> Result<Option<String>, AllocError> {
    for number in numbers {
        if u64::from(*number) >= nodes {
            return Ok(Some(missing_words(alloc, *number, nodes)?));
        }
    }
    Ok(None)
}

fn missing_words(alloc: Global, node: u8, nodes: u64) -> Result<String, AllocError> {
    format!(in alloc; "there is no node {node}, as nodes is {nodes} and they are counted from 0")
}
