//! The faults of a script's plan.
ghost use Rattle.std.specs.Prelude.{◌≡◌, map};
ghost use Rattle.serde_json.specs.View.{view};
ghost use Rattle.cast_script.specs.Element.{fault_of, fault_at, kind_of, frames_of, frames_at, delay_of, engine_crash_of};

use crate::element::{Element, Unread, node, places};
use cast_message::{Fault, FrameKind, Frames};
use serde_json::Value;
use std::alloc::Global;

impl Element for Fault {
    ghost element = { fault_of };

    fn read(_alloc: Global, value: &Value) -> Result<Fault, Unread> {
        places(value).and_then(fault).ok_or(Unread::Shape)
    }
}

fn fault(places: &[Value]) -> Option<Fault>
    ensures { result ≡ fault_at (map view places.now) }
{
    let (word, others) = places.split_first()?;
    match word.as_str()? {
        "lose" => frames(others).map(Fault::Lose),
        "repeat" => frames(others).map(Fault::Repeat),
        "delay" => delay(others),
        "crash" => crash(others),
        _ => None,
    }
}

fn frames(places: &[Value]) -> Option<Frames>
    ensures { result ≡ frames_of (map view places.now) }
{
    let [word, from, to, first, step] = places else {
        return None;
    };
    frames_at(word, from, to, first, step)
}

fn delay(places: &[Value]) -> Option<Fault>
    ensures { result ≡ delay_of (map view places.now) }
{
    let [word, from, to, first, step, count] = places else {
        return None;
    };
    Some(Fault::Delay {
        frames: frames_at(word, from, to, first, step)?,
        count: count.as_u64()?,
    })
}

fn frames_at(word: &Value, from: &Value, to: &Value, first: &Value, step: &Value) -> Option<Frames>
    ensures { result ≡ frames_at (view word.now) (view from.now) (view to.now)
        (view first.now) (view step.now) }
{
    Some(Frames {
        kind: kind(word)?,
        from: node(from)?,
        to: node(to)?,
        first: first.as_u64()?,
        step: step.as_u64()?,
    })
}

fn crash(places: &[Value]) -> Option<Fault>
    ensures { result ≡ engine_crash_of (map view places.now) }
{
    let [place, entries] = places else {
        return None;
    };
    Some(Fault::Crash {
        node: node(place)?,
        entries: entries.as_u64()?,
    })
}

fn kind(value: &Value) -> Option<FrameKind>
    ensures { result ≡ kind_of (view value.now) }
{
    match value.as_str()? {
        "carry" => Some(FrameKind::Carry),
        "took" => Some(FrameKind::Took),
        _ => None,
    }
}
