//! The events of a script.
ghost use Rattle.std.specs.Prelude.{◌≡◌, map};
ghost use Rattle.serde_json.specs.View.{view};
ghost use Rattle.cast_script.specs.Element.{among, event_of, other_events, order_of, link_slot_of, send_of, ack_of, arrive_of, crash_of, settle_of};
ghost use Rattle.cast_script.specs.Unread.{Gives};

use crate::element::{Element, LinkSlot, Unread, node, places};
use crate::item::item;
use crate::script::ScriptEvent;
use cast_message::Event;
use serde_json::Value;
use std::alloc::Global;

impl Element for ScriptEvent {
    ghost element = { event_of };

    fn read(alloc: Global, value: &Value) -> Result<ScriptEvent, Unread> {
        let places = places(value).ok_or(Unread::Shape)?;
        let (word, others) = places.split_first().ok_or(Unread::Shape)?;
        match word.as_str().ok_or(Unread::Shape)? {
            "order" => Ok(ScriptEvent::Core(order(alloc, others)?)),
            name => other_event(name, others).ok_or(Unread::Shape),
        }
    }
}

// The event with this name and these places, if it is no order.
fn other_event(name: &str, places: &[Value]) -> Option<ScriptEvent>
    ensures { result ≡ among other_events name.now (map view places.now) }
{
    match name {
        "send" => send(places),
        "ack" => ack(places),
        "arrive" => arrive(places),
        "crash" => crash(places),
        "settle" => settle(places),
        _ => None,
    }
}

fn order(alloc: Global, places: &[Value]) -> Result<Event, Unread>
    ensures { Gives result (order_of (map view places.now)) }
{
    let (first, others) = places.split_first().ok_or(Unread::Shape)?;
    let node = node(first).ok_or(Unread::Shape)?;
    let item = item(alloc, others)?;
    Ok(Event::Order { node, item })
}

fn send(places: &[Value]) -> Option<ScriptEvent>
    ensures { result ≡ send_of (map view places.now) }
{
    let LinkSlot { from, to, slot } = link_slot(places)?;
    Some(ScriptEvent::Core(Event::Send { from, to, slot }))
}

fn ack(places: &[Value]) -> Option<ScriptEvent>
    ensures { result ≡ ack_of (map view places.now) }
{
    let LinkSlot { from, to, slot } = link_slot(places)?;
    Some(ScriptEvent::Core(Event::Ack { from, to, slot }))
}

fn link_slot(places: &[Value]) -> Option<LinkSlot>
    ensures { result ≡ link_slot_of (map view places.now) }
{
    let [from, to, slot] = places else {
        return None;
    };
    Some(LinkSlot {
        from: node(from)?,
        to: node(to)?,
        slot: slot.as_u64()?,
    })
}

fn arrive(places: &[Value]) -> Option<ScriptEvent>
    ensures { result ≡ arrive_of (map view places.now) }
{
    let [from, seq] = places else {
        return None;
    };
    Some(ScriptEvent::Core(Event::Arrive {
        from: node(from)?,
        seq: seq.as_u64()?,
    }))
}

fn crash(places: &[Value]) -> Option<ScriptEvent>
    ensures { result ≡ crash_of (map view places.now) }
{
    let [place] = places else {
        return None;
    };
    Some(ScriptEvent::Core(Event::Crash { node: node(place)? }))
}

fn settle(places: &[Value]) -> Option<ScriptEvent>
    ensures { result ≡ settle_of (map view places.now) }
{
    places.is_empty().then_some(ScriptEvent::Settle)
}
