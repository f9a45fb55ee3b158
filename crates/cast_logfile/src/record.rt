//! What is reported about merged logs: their record, the verdict on it, and the summary.
use crate::gathered::Gathered;
use crate::merging::Merged;
use cast_judge::{Judging, Verdict};
use cast_message::{Config, Event, NodeId, Reply};
use cast_record::{Line, Meter, write_line, write_lines_of};
use cast_world::World;
use itoa::Buffer;
use std::alloc::{AllocError, Global};

pub fn record_of(alloc: Global, config: &Config, merged: &Merged) -> Result<Vec<u8>, AllocError> {
    let mut text = Vec::new(alloc);
    put_line(alloc, &Line::head(config), &mut text)?;
    let replies = merged.replies.as_slice();
    for (index, event) in merged.events.as_slice().iter().enumerate() {
        if let Some(reply) = replies.get(index) {
            put_event(alloc, index as u64, event, reply, &mut text)?;
        }
    }
    put_line(alloc, &Line::End, &mut text)?;
    Ok(text)
}

fn put_line(alloc: Global, line: &Line, text: &mut Vec<u8>) -> Result<(), AllocError> {
    let mut writer = Meter::new(Vec::new(alloc));
    if write_line(line, &mut writer).is_err() {
        return Err(AllocError);
    }
    text.extend_from_slice(writer.into_inner().as_slice())
}

fn put_event(
    alloc: Global,
    index: u64,
    event: &Event,
    reply: &Reply,
    text: &mut Vec<u8>,
) -> Result<(), AllocError> {
    let mut writer = Meter::new(Vec::new(alloc));
    if write_lines_of(index, event, reply, &mut writer).is_err() {
        return Err(AllocError);
    }
    text.extend_from_slice(writer.into_inner().as_slice())
}

pub fn judge_record(alloc: Global, text: &[u8]) -> Result<Verdict, AllocError> {
    let mut judging = Judging::new(alloc);
    if text.len() as u64 >= judging.room() {
        return Err(AllocError);
    }
    judging.feed(text)?;
    judging.finish()
}

/// The summary of merged logs: how each node ended, how many items it delivered from each, whether the group is at
/// rest, and the verdict.
pub fn summary_of(
    alloc: Global,
    gathered: &Gathered,
    world: &World,
    rest: bool,
    verdict: Verdict,
) -> Result<Vec<u8>, AllocError> {
    let mut text = Vec::new(alloc);
    for (node, has_ended) in gathered.have_ended.iter().enumerate() {
        let end = if *has_ended { " stopped" } else { " crashed" };
        text.extend_from_slice(b"node ")?;
        put_number(&mut text, node as u64)?;
        text.extend_from_slice(end.as_bytes())?;
        put_counts(&mut text, gathered.config.nodes(), world, node as u64)?;
        text.extend_from_slice(b"\n")?;
    }
    let rest = if rest { "rest yes\n" } else { "rest no\n" };
    text.extend_from_slice(rest.as_bytes())?;
    put_verdict(&mut text, verdict)?;
    Ok(text)
}

fn put_counts(text: &mut Vec<u8>, nodes: u64, world: &World, node: u64) -> Result<(), AllocError> {
    for sender in 0..nodes {
        text.extend_from_slice(b" ")?;
        put_number(text, count_delivered(world, node, sender))?;
    }
    Ok(())
}

fn count_delivered(world: &World, node: u64, sender: u64) -> u64 {
    match (NodeId::from_number(node), NodeId::from_number(sender)) {
        (Some(node), Some(sender)) => match world.delivered(node, sender) {
            Some(items) => items.len() as u64,
            None => 0,
        },
        _ => 0,
    }
}

fn put_verdict(text: &mut Vec<u8>, verdict: Verdict) -> Result<(), AllocError> {
    match verdict {
        Verdict::Good => text.extend_from_slice(b"verdict good\n"),
        Verdict::Bad { line, rule } => {
            text.extend_from_slice(b"verdict bad ")?;
            put_number(text, line)?;
            text.extend_from_slice(b" ")?;
            put_number(text, rule)?;
            text.extend_from_slice(b"\n")
        }
    }
}

fn put_number(text: &mut Vec<u8>, number: u64) -> Result<(), AllocError> {
    text.extend_from_slice(Buffer::new().format(number).as_bytes())
}
