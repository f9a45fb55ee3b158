//! What the types of a script guarantee about its numbers and bytes, for proofs alone. Nothing is computed.
ghost use Rattle.std.specs.Prelude.{◌^◌, ◌<◌, length};
ghost use Rattle.cast_record.specs.Hex.{AreBytes};
ghost use Rattle.cast_text.specs.Ranges.{HasItemRange, HasEventRange, HasScriptRange, HaveScriptRanges};

use cast_message::{Event, Item};
use cast_script::ScriptEvent;

/// Items that these events order have 64-bit numbers and 8-bit bytes, and there are fewer than 2^64 events.
pub fn tell_ranges(events: &[ScriptEvent])
    ensures ranges { HaveScriptRanges events.now }
    ensures few { length events.now < 2 ^ 64 }
{
    // (for the proof alone: what the contract of `len` says)
    let _count = events.len();
    for event in events {
        tell_script_range(event);
    }
}

fn tell_script_range(event: &ScriptEvent)
    ensures { HasScriptRange event.now }
{
    match event {
        ScriptEvent::Core(event) => tell_event_range(event),
        ScriptEvent::Settle => {}
    }
}

/// The same for the item that one event orders, if it does.
pub fn tell_event_range(event: &Event)
    ensures { HasEventRange event.now }
{
    match event {
        Event::Order { item, .. } => tell_item_range(item),
        _ => {}
    }
}

fn tell_item_range(item: &Item)
    ensures { HasItemRange item.now }
{
    match item {
        Item::Data(payload) => tell_byte_ranges(payload.as_slice()),
        Item::Propose { instance, value } => tell_number_ranges(*instance, *value),
        Item::Close => {}
    }
}

fn tell_number_ranges(instance: u64, value: u64)
    ensures instance { instance < 2 ^ 64 }
    ensures value { value < 2 ^ 64 }
{}

fn tell_byte_ranges(bytes: &[u8])
    ensures { AreBytes bytes.now }
{}
