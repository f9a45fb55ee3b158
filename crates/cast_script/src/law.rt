//! What is proved about the text of a replay. Nothing is computed.
ghost use Rattle.std.specs.Prelude.{◌^◌, ◌<◌};
ghost use Rattle.cast_record.specs.Hex.{AreBytes};
ghost use Rattle.cast_script.specs.Replay.{script_text, item_atoms, SaysReplay, IsReplayIn};
ghost use Rattle.cast_script.specs.ReplayRanges.{AreAtomsWithin, IsEventWithin, AreEventsWithin};

use cast_message::{Config, Event, Item, NodeId};

/// `read_script` reads back what `write_script` writes: a script with just this configuration and these events, and
/// with the defaults of absent members. Otherwise it is out of memory.
pub fn is_read_back(config: &Config, events: &[Event])
    ensures says { SaysReplay (script_text config.now events.now) config.now events.now }
    ensures law { IsReplayIn (script_text config.now events.now) config.now events.now }
{
    tell_number(config.first_stamp());
    tell_events(events);
}

fn tell_events(events: &[Event])
    ensures { AreEventsWithin events.now }
{
    for event in events {
        tell_event(event);
    }
}

fn tell_event(event: &Event)
    ensures { IsEventWithin event.now }
{
    match event {
        Event::Order { node, item } => {
            tell_node(*node);
            tell_item(item);
        }
        Event::Send { from, to, slot } => {
            tell_node(*from);
            tell_node(*to);
            tell_number(*slot);
        }
        Event::Ack { from, to, slot } => {
            tell_node(*from);
            tell_node(*to);
            tell_number(*slot);
        }
        Event::Arrive { from, seq } => {
            tell_node(*from);
            tell_number(*seq);
        }
        Event::Crash { node } => tell_node(*node),
    }
}

fn tell_item(item: &Item)
    ensures { AreAtomsWithin (item_atoms item.now) }
{
    match item {
        Item::Data(payload) => tell_bytes(payload.as_slice()),
        Item::Propose { instance, value } => {
            tell_number(*instance);
            tell_number(*value);
        }
        Item::Close => {}
    }
}

fn tell_node(node: NodeId)
    ensures { node < 256 }
{
    tell_number(u64::from(node.0));
}

fn tell_number(number: u64)
    ensures { number < 2 ^ 64 }
{}

fn tell_bytes(bytes: &[u8])
    ensures { AreBytes bytes.now }
{}
