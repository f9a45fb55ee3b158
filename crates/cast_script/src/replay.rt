//! Writes the script of a run: its configuration, and what happened, as core events. `specs/Replay` defines its text.
ghost use Rattle.std.specs.Prelude.{◌≡◌, ◌++◌, ◌∷◌, [], false, map};
ghost use Rattle.std.specs.List.{join_with_byte};
ghost use Rattle.cast_message.specs.declared.event.Event.TheVariants.{Order};
ghost use Rattle.cast_record.specs.Hex.{hex};
ghost use Rattle.cast_record.specs.Written.{Puts};
ghost use Rattle.cast_script.specs.Replay.{number, word_text, event_text, events_text, others_text, members, member_text, members_text, script_text};
ghost use Rattle.cast_script.specs.Cells.{atom_in, cell_text, member_in};

use cast_message::{Config, Event, Item, NodeId};
use cast_record::{Meter, Written, mode_name, write_bytes, write_hex, write_number};
use std::io::Write;

/// What is at a place of an array, or is the value of a member.
#[derive(Drop)]
pub enum Cell<'a> {
    Word(&'a [u8]),
    Number(u64),
    Digits(&'a [u8]),
}

/// A member of a script that is no list.
#[derive(Drop)]
pub struct Member<'a> {
    pub name: &'a [u8],
    pub value: Cell<'a>,
}

/// Writes the script with this configuration, in which these events happen. It allocates nothing. It fails only if the
/// writer fails or takes no byte; the meter remembers this, and a prefix of the text remains.
pub fn write_script<W: Write>(config: &Config, events: &[Event], writer: &mut Meter<W>) -> Written
    requires { writer.old.failed ≡ false }
    ensures { Puts W.contents writer.old writer.new result (script_text config.now events.now) }
{
    write_bytes(b"{", writer)?;
    write_settings(config, writer)?;
    write_bytes(b"\"events\":[", writer)?;
    write_events(events, writer)?;
    write_bytes(b"\n]}", writer)
}

// Writes the members of the configuration, each with a comma.
fn write_settings<W: Write>(config: &Config, writer: &mut Meter<W>) -> Written
    requires { writer.old.failed ≡ false }
    ensures { Puts W.contents writer.old writer.new result (members_text (members config.now)) }
{
    write_members(
        &[
            number_member(b"nodes", config.nodes()),
            number_member(b"faults", config.faults()),
            number_member(b"choices", config.choices()),
            number_member(b"item_limit", config.item_limit()),
            number_member(b"log_limit", config.log_limit()),
            number_member(b"box_size", config.box_size()),
            number_member(b"first_stamp", config.first_stamp()),
            Member {
                name: b"mode",
                value: Cell::Word(mode_name(config.mode())),
            },
        ],
        writer,
    )
}

fn number_member(name: &[u8], value: u64) -> Member<'_>
    ensures { member_in result ≡ (name.now, number value) }
{
    Member {
        name,
        value: Cell::Number(value),
    }
}

// Writes the members, each with a comma.
fn write_members<W: Write>(members: &[Member<'_>], writer: &mut Meter<W>) -> Written
    requires { writer.old.failed ≡ false }
    ensures { Puts W.contents writer.old writer.new result
        (members_text (map member_in members.now)) }
{
    for member in members {
        write_member(member, writer)?;
    }
    Ok(())
}

fn write_member<W: Write>(member: &Member<'_>, writer: &mut Meter<W>) -> Written
    requires { writer.old.failed ≡ false }
    ensures { Puts W.contents writer.old writer.new result (member_text (member_in member.now)) }
{
    write_word(member.name, writer)?;
    write_bytes(b":", writer)?;
    write_cell(&member.value, writer)?;
    write_bytes(b",", writer)
}

// Writes the events, each on its own line, with commas between them.
fn write_events<W: Write>(events: &[Event], writer: &mut Meter<W>) -> Written
    requires { writer.old.failed ≡ false }
    ensures { Puts W.contents writer.old writer.new result (events_text events.now) }
{
    let Some((first, others)) = events.split_first() else {
        return Ok(());
    };
    write_bytes(b"\n", writer)?;
    write_event(first, writer)?;
    write_other_events(others, writer)
}

// Writes the events, each with a comma before its line.
fn write_other_events<W: Write>(events: &[Event], writer: &mut Meter<W>) -> Written
    requires { writer.old.failed ≡ false }
    ensures { Puts W.contents writer.old writer.new result (others_text events.now) }
{
    for event in events {
        write_bytes(b",\n", writer)?;
        write_event(event, writer)?;
    }
    Ok(())
}

fn write_event<W: Write>(event: &Event, writer: &mut Meter<W>) -> Written
    requires { writer.old.failed ≡ false }
    ensures { Puts W.contents writer.old writer.new result (event_text event.now) }
{
    match event {
        Event::Order { node, item } => write_order(*node, item, writer),
        Event::Send { from, to, slot } => {
            let cells = [place(*from), place(*to), Cell::Number(*slot)];
            write_cells(b"send", &cells, writer)
        }
        Event::Ack { from, to, slot } => {
            let cells = [place(*from), place(*to), Cell::Number(*slot)];
            write_cells(b"ack", &cells, writer)
        }
        Event::Arrive { from, seq } => {
            write_cells(b"arrive", &[place(*from), Cell::Number(*seq)], writer)
        }
        Event::Crash { node } => write_cells(b"crash", &[place(*node)], writer),
    }
}

fn place<'a>(node: NodeId) -> Cell<'a>
    ensures { atom_in result ≡ number node }
{
    Cell::Number(u64::from(node.0))
}

fn write_order<W: Write>(node: NodeId, item: &Item, writer: &mut Meter<W>) -> Written
    requires { writer.old.failed ≡ false }
    ensures { Puts W.contents writer.old writer.new result (event_text (Order node item.now)) }
{
    match item {
        Item::Data(payload) => write_cells(
            b"order",
            &[
                place(node),
                Cell::Word(b"data"),
                Cell::Digits(payload.as_slice()),
            ],
            writer,
        ),
        Item::Propose { instance, value } => write_cells(
            b"order",
            &[
                place(node),
                Cell::Word(b"propose"),
                Cell::Number(*instance),
                Cell::Number(*value),
            ],
            writer,
        ),
        Item::Close => write_cells(b"order", &[place(node), Cell::Word(b"close")], writer),
    }
}

// Writes an array of the name and these places.
fn write_cells<W: Write>(name: &[u8], cells: &[Cell<'_>], writer: &mut Meter<W>) -> Written
    requires { writer.old.failed ≡ false }
    ensures { Puts W.contents writer.old writer.new result
        (91 ∷ join_with_byte 44 (word_text name.now ∷ map cell_text cells.now) ++ 93 ∷ []) }
{
    write_bytes(b"[", writer)?;
    write_word(name, writer)?;
    for cell in cells {
        write_bytes(b",", writer)?;
        write_cell(cell, writer)?;
    }
    write_bytes(b"]", writer)
}

fn write_cell<W: Write>(cell: &Cell<'_>, writer: &mut Meter<W>) -> Written
    requires { writer.old.failed ≡ false }
    ensures { Puts W.contents writer.old writer.new result (cell_text cell.now) }
{
    match cell {
        Cell::Word(word) => write_word(word, writer),
        Cell::Number(number) => write_number(*number, writer),
        Cell::Digits(bytes) => write_digits(bytes, writer),
    }
}

fn write_word<W: Write>(word: &[u8], writer: &mut Meter<W>) -> Written
    requires { writer.old.failed ≡ false }
    ensures { Puts W.contents writer.old writer.new result (word_text word.now) }
{
    write_bytes(b"\"", writer)?;
    write_bytes(word, writer)?;
    write_bytes(b"\"", writer)
}

fn write_digits<W: Write>(bytes: &[u8], writer: &mut Meter<W>) -> Written
    requires { writer.old.failed ≡ false }
    ensures { Puts W.contents writer.old writer.new result (word_text (hex bytes.now)) }
{
    write_bytes(b"\"", writer)?;
    write_hex(bytes, writer)?;
    write_bytes(b"\"", writer)
}
