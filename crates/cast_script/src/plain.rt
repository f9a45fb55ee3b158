//! The plain case of a script: an object of words, numbers, empty lists and one list of events, each an array of words
//! and numbers. Its events are read from tokens one by one, so the value of the whole text is never kept. Any other
//! script is read as a value by `reading`, which also says what is wrong with it.
ghost use Rattle.std.specs.Prelude.{◌≡◌, ◌∷◌, List as Tokens, Some, Ok, IfOk, IfSome, OnOk, option_map};
ghost use Rattle.json.specs.Json.{read_key};
ghost use Rattle.json.specs.Token.{Token as Read, begin_array, end_array, string};
ghost use Rattle.serde_json.specs.Data.{Data, Members, unsigned as unsigned_num, object, put};
ghost use Rattle.serde_json.specs.Read.{number_of as number_in};
ghost use Rattle.serde_json.specs.View.{view, members_view};
ghost use Rattle.cast_script.specs.Element.{number_of, node_of, item_of, item_named, data_of, proposal_of, close_of, order_of, link_slot_of, send_of, ack_of, arrive_of, crash_of, settle_of, event_named};
ghost use Rattle.cast_script.specs.Plain.{IsCell, GivesCells, IsEvent, AreEvents, IsValueOf, IsLike, SaysMembers, SaysPlain};
ghost use Rattle.cast_script.specs.Script.{Reads, said, script_of, settings_in};

use crate::element::{LinkSlot, Unread};
use crate::item::data_item;
use crate::members::{has_known_members_only, list, settings};
use crate::reading::check;
use crate::script::{Script, ScriptEvent};
use cast_message::{Config, Event, FaultPlan, Item, List, NodeId};
use json::{Reader, Scratch, Token};
use serde_json::{Map, Value};
use std::alloc::Global;

// The members of a script. Its events are kept apart, and `others` has an empty list in their place.
#[derive(Drop)]
struct Parts {
    others: Value,
    events: List<ScriptEvent>,
}

/// The script that the bytes say, if it is plain.
pub fn read_plain(alloc: Global, bytes: &[u8]) -> Result<Script, Unread>
    ensures { IfOk result (λ script. Reads (Ok script) bytes.now) }
{
    let Ok(text) = str::from_utf8(bytes) else {
        return Err(Unread::Shape);
    };
    let mut scratch = Scratch::new(alloc);
    let mut reader = Reader::new(text, &mut scratch)?;
    let Some(Token::BeginObject) = reader.next() else {
        return Err(Unread::Shape);
    };
    let parts = members(alloc, &mut reader)?;
    if reader.next().is_some() {
        return Err(Unread::Shape);
    }
    script(alloc, parts).ok_or(Unread::Shape)
}

fn script(alloc: Global, parts: Parts) -> Option<Script>
    ensures { IfSome result (λ script. (found : Members)
        → IsLike found (view parts.others) parts.events
        → script_of (object found) ≡ Ok (said script)) }
{
    let (config, turns) = limits(&parts.others)?;
    Some(Script {
        config,
        turns,
        events: parts.events,
        plan: FaultPlan {
            faults: List::new(alloc),
        },
        jobs: List::new(alloc),
    })
}

// The configuration and the turns that the members say, if plan and jobs are empty.
fn limits(others: &Value) -> Option<(Config, u64)>
    ensures { IfSome result (λ r. SaysPlain (view others.now) (settings_in r.0 r.1)) }
{
    if !has_known_members_only(others) {
        return None;
    }
    let settings = settings(others)?;
    let plan = list(others, "plan")?;
    let jobs = list(others, "jobs")?;
    if !plan.is_empty() || !jobs.is_empty() {
        return None;
    }
    match check(&settings) {
        Ok(config) => Some((config, settings.turns)),
        Err(_) => None,
    }
}

fn members(alloc: Global, reader: &mut Reader<'_>) -> Result<Parts, Unread>
    ensures { IfOk result (λ parts.
        SaysMembers reader.old (view parts.others) parts.events reader.new) }
{
    let mut others = Map::new(alloc);
    let mut events = List::new(alloc);
    'members: while let Some(name) = next_name(reader)? {
        let value = if name == "events" {
            events = list_of_events(alloc, reader)?;
            Value::Array(Vec::new(alloc))
        } else {
            value(alloc, reader)?
        };
        set_member(alloc, name, value, &mut others)?;
    }
    Ok(Parts {
        others: Value::Object(others),
        events,
    })
}

// Gives the member with this name the value, in place of any earlier one.
fn set_member(
    alloc: Global,
    name: &str,
    value: Value,
    members: &mut Map<String, Value>,
) -> Result<(), Unread>
    ensures { OnOk result (members_view members.new.entries
        ≡ put name.now (view value) (members_view members.old.entries)) }
{
    drop(members.insert(String::from_str(alloc, name)?, value)?);
    Ok(())
}

// The name of the next member, or None at the end of the object.
fn next_name<'a>(reader: &mut Reader<'a>) -> Result<Option<&'a str>, Unread>
    ensures { IfOk result (λ name. read_key reader.old
        ≡ Some (option_map (λ s. s.now) name, reader.new)) }
{
    match reader.next_key() {
        Ok(name) => Ok(name),
        Err(_) => Err(Unread::Shape),
    }
}

// A number, a word or an empty list.
fn value(alloc: Global, reader: &mut Reader<'_>) -> Result<Value, Unread>
    ensures { IfOk result (λ value. IsValueOf reader.old (view value) reader.new) }
{
    match reader.next() {
        Some(Token::Number(text)) => Ok(Value::from(unsigned(text)?)),
        Some(Token::String(text)) => Ok(Value::String(String::from_str(alloc, text)?)),
        Some(Token::BeginArray) => {
            end(reader)?;
            Ok(Value::Array(Vec::new(alloc)))
        }
        _ => Err(Unread::Shape),
    }
}

fn list_of_events(alloc: Global, reader: &mut Reader<'_>) -> Result<List<ScriptEvent>, Unread>
    ensures { IfOk result (λ events. (next : Tokens Read)
        × (reader.old ≡ begin_array ∷ next) × AreEvents next events reader.new) }
{
    let Some(Token::BeginArray) = reader.next() else {
        return Err(Unread::Shape);
    };
    let mut events = List::new(alloc);
    'events: while !reader.take_end_array() {
        let event = event(alloc, reader)?;
        events.push(event)?;
    }
    Ok(events)
}

fn event(alloc: Global, reader: &mut Reader<'_>) -> Result<ScriptEvent, Unread>
    ensures { IfOk result (λ event. IsEvent reader.old event reader.new) }
{
    let Some(Token::BeginArray) = reader.next() else {
        return Err(Unread::Shape);
    };
    let name = word(reader)?;
    event_by(alloc, name, reader)
}

// The event with this name and the cells after it.
fn event_by(alloc: Global, name: &str, reader: &mut Reader<'_>) -> Result<ScriptEvent, Unread>
    ensures { GivesCells (event_named name.now) reader.old result reader.new }
{
    match name {
        "order" => Ok(ScriptEvent::Core(order(alloc, reader)?)),
        "send" => send(reader),
        "ack" => ack(reader),
        "arrive" => arrive(reader),
        "crash" => crash(reader),
        "settle" => settle(reader),
        _ => Err(Unread::Shape),
    }
}

fn order(alloc: Global, reader: &mut Reader<'_>) -> Result<Event, Unread>
    ensures { GivesCells order_of reader.old result reader.new }
{
    let node = node(reader)?;
    let item = item(alloc, reader)?;
    Ok(Event::Order { node, item })
}

fn send(reader: &mut Reader<'_>) -> Result<ScriptEvent, Unread>
    ensures { GivesCells send_of reader.old result reader.new }
{
    let LinkSlot { from, to, slot } = link_slot(reader)?;
    Ok(ScriptEvent::Core(Event::Send { from, to, slot }))
}

fn ack(reader: &mut Reader<'_>) -> Result<ScriptEvent, Unread>
    ensures { GivesCells ack_of reader.old result reader.new }
{
    let LinkSlot { from, to, slot } = link_slot(reader)?;
    Ok(ScriptEvent::Core(Event::Ack { from, to, slot }))
}

// The last cells of an array: a link and one of its slots.
fn link_slot(reader: &mut Reader<'_>) -> Result<LinkSlot, Unread>
    ensures { GivesCells link_slot_of reader.old result reader.new }
{
    let from = node(reader)?;
    let to = node(reader)?;
    let slot = number(reader)?;
    end(reader)?;
    Ok(LinkSlot { from, to, slot })
}

fn arrive(reader: &mut Reader<'_>) -> Result<ScriptEvent, Unread>
    ensures { GivesCells arrive_of reader.old result reader.new }
{
    let from = node(reader)?;
    let seq = number(reader)?;
    end(reader)?;
    Ok(ScriptEvent::Core(Event::Arrive { from, seq }))
}

fn crash(reader: &mut Reader<'_>) -> Result<ScriptEvent, Unread>
    ensures { GivesCells crash_of reader.old result reader.new }
{
    let node = node(reader)?;
    end(reader)?;
    Ok(ScriptEvent::Core(Event::Crash { node }))
}

fn settle(reader: &mut Reader<'_>) -> Result<ScriptEvent, Unread>
    ensures { GivesCells settle_of reader.old result reader.new }
{
    end(reader)?;
    Ok(ScriptEvent::Settle)
}

fn item(alloc: Global, reader: &mut Reader<'_>) -> Result<Item, Unread>
    ensures { GivesCells item_of reader.old result reader.new }
{
    let name = word(reader)?;
    item_by(alloc, name, reader)
}

// The item with this name and the cells after it.
fn item_by(alloc: Global, name: &str, reader: &mut Reader<'_>) -> Result<Item, Unread>
    ensures { GivesCells (item_named name.now) reader.old result reader.new }
{
    match name {
        "data" => data(alloc, reader),
        "propose" => proposal(reader),
        "close" => close(reader),
        _ => Err(Unread::Shape),
    }
}

fn data(alloc: Global, reader: &mut Reader<'_>) -> Result<Item, Unread>
    ensures { GivesCells data_of reader.old result reader.new }
{
    let digits = word(reader)?;
    end(reader)?;
    data_item(alloc, digits)
}

fn proposal(reader: &mut Reader<'_>) -> Result<Item, Unread>
    ensures { GivesCells proposal_of reader.old result reader.new }
{
    let instance = number(reader)?;
    let value = number(reader)?;
    end(reader)?;
    Ok(Item::Propose { instance, value })
}

fn close(reader: &mut Reader<'_>) -> Result<Item, Unread>
    ensures { GivesCells close_of reader.old result reader.new }
{
    end(reader)?;
    Ok(Item::Close)
}

fn word<'a>(reader: &mut Reader<'a>) -> Result<&'a str, Unread>
    ensures { IfOk result (λ word. reader.old ≡ string word.now ∷ reader.new) }
{
    match reader.next() {
        Some(Token::String(word)) => Ok(word),
        _ => Err(Unread::Shape),
    }
}

// The number of a node, 0 to 255.
fn node(reader: &mut Reader<'_>) -> Result<NodeId, Unread>
    ensures { IfOk result (λ node. (d : Data)
        × IsCell reader.old d reader.new × (node_of d ≡ Some node)) }
{
    NodeId::from_number(number(reader)?).ok_or(Unread::Shape)
}

fn number(reader: &mut Reader<'_>) -> Result<u64, Unread>
    ensures { IfOk result (λ number. (d : Data)
        × IsCell reader.old d reader.new × (number_of d ≡ Some number)) }
{
    let Some(Token::Number(text)) = reader.next() else {
        return Err(Unread::Shape);
    };
    unsigned(text)
}

// Decimal digits without a leading zero. A number with a sign, a point or an exponent isn't plain, nor is one above 64
// bits.
fn unsigned(text: &str) -> Result<u64, Unread>
    ensures { IfOk result (λ number. number_in text.now ≡ Some (unsigned_num number)) }
{
    cast_record::number(text.as_bytes()).ok_or(Unread::Shape)
}

// The bracket that closes an array.
fn end(reader: &mut Reader<'_>) -> Result<(), Unread>
    ensures { IfOk result (λ _. reader.old ≡ end_array ∷ reader.new) }
{
    if reader.take_end_array() {
        Ok(())
    } else {
        Err(Unread::Shape)
    }
}
