//! The log of a node. Most entries have no news: the node made a frame, or a frame arrived and nothing was delivered or
//! decided. The log keeps such an entry in 16 bytes, and any other one whole, in a second list.
ghost use Rattle.std.specs.Prelude.{◌≡◌, ◌+◌, ◌<◌, ◌≤◌, ◌^◌, ◌++◌, ◌∷◌, [], length, slice_get, Some, None, IsTrue, IfOk, IfSome, OnOk, OnErr};
ghost use Rattle.cast_model.specs.OwnSteps.{nothing};
ghost use Rattle.cast_message.specs.declared.event.Event.TheVariants.{Send, Ack, Arrive};
ghost use Rattle.cast_log.specs.declared.entry.EntryKind.TheVariants.{Step};
ghost use Rattle.cast_log.specs.Logged.{entry_with, silent, kind_of, IsShort, IsPlaced, shown_kind, shown_entry, step_event};

use crate::entry::{Entry, EntryKind};
use cast_message::{Event, List, NodeId, Outcome};
use std::alloc::{AllocError, Global};
use std::marker::Model;

// What an entry says, together with a number.
#[derive(Clone, Copy)]
enum Brief {
    // The node made a frame that carries the message in the slot with this number.
    Sent { from: NodeId, to: NodeId },
    // The node made a frame that says: the slot with this number was taken.
    Acked { from: NodeId, to: NodeId },
    // The frame with this number arrived, and nothing was delivered or decided.
    Arrived { from: NodeId },
    // The entry is kept whole, at the place with this number.
    Whole,
}

// An entry as a log keeps it.
#[derive(Clone, Copy)]
struct Row {
    stamp: u64,
    number: u32,
    brief: Brief,
}

/// What an entry says, as a log lends it.
#[derive(Clone, Copy)]
pub enum KindRef<'a> {
    /// `from` made a frame that carries to `to` the message in this slot.
    Sent { from: NodeId, to: NodeId, slot: u64 },
    /// `from` made a frame that tells `to`: this slot was taken.
    Acked { from: NodeId, to: NodeId, slot: u64 },
    /// Frame number `seq` of `from` arrived, and nothing was delivered or decided.
    Arrived { from: NodeId, seq: u64 },
    /// Any other entry, or such a step whose number does not fit into four bytes.
    Whole(&'a EntryKind),
}

/// An entry as a log lends it.
#[derive(Clone, Copy)]
pub struct EntryRef<'a> {
    /// What the node's clock showed.
    pub stamp: u64,
    pub kind: KindRef<'a>,
}

/// A log that takes entries. Contracts see its entries, and how many it has room for. It takes no more than these.
#[derive(Drop)]
pub struct OpenLog {
    alloc: Global,
    rows: Vec<Row>,
    // The kinds that rows refer to by place.
    whole: Vec<EntryKind>,
}

impl Model for OpenLog {
    ghost use Rattle.std.specs.Prelude.{vec_capacity};
    ghost use Rattle.cast_log.specs.Logged.{Logged, IsLog, logged_code, entries_of, room_of};
    ghost use Rattle.cast_log.specs.contracts.entry.Entry as entry;

    ghost Value = { Logged };

    ghost coded = { logged_code entry.the_row.coded };

    ghost view = { λ log. record {
      entries = entries_of log.whole.items log.rows.items;
      room = room_of (vec_capacity log.rows) (vec_capacity log.whole);
    } };

    ghost invariant = { λ log. IsLog log.whole.items log.rows.items };
}

/// A log. Contracts see the list of its entries.
#[derive(Drop)]
pub struct Log {
    open: OpenLog,
}

impl Model for Log {
    ghost use Rattle.std.specs.Prelude.{List as Entries};
    ghost use Rattle.std.specs.Coded.{coded_list};
    ghost use Rattle.cast_log.specs.declared.entry.Entry.{Entry as AnEntry};
    ghost use Rattle.cast_log.specs.contracts.entry.Entry as entry;

    ghost Value = { Entries AnEntry };

    ghost coded = { coded_list entry.the_row.coded };

    ghost view = { λ log. log.open.entries };
}

impl OpenLog {
    /// The empty log with room for as many entries as given, or out of memory.
    pub fn with_room(alloc: Global, entries: usize) -> Result<OpenLog, AllocError>
        requires { entries ≤ 2 ^ 32 }
        ensures entries { IfOk result (λ log. log.entries ≡ []) }
        ensures room { IfOk result (λ log. entries ≤ log.room) }
    {
        let mut rows = Vec::new(alloc);
        rows.reserve(entries)?;
        let mut whole = Vec::new(alloc);
        whole.reserve(entries)?;
        Ok(OpenLog { alloc, rows, whole })
    }

    /// Makes room for one more entry, or reports out of memory, as it also does after 2^32 entries. No entry changes.
    pub fn make_room(&mut self) -> Result<(), AllocError>
        ensures entries { self.new.entries ≡ self.old.entries }
        ensures room { OnOk result (length self.new.entries < self.new.room) }
    {
        let entries = self.rows.len();
        if entries >= 1 << 32 {
            return Err(AllocError);
        }
        self.rows.reserve(1)?;
        self.whole.reserve(entries + 1 - self.whole.len())?;
        Ok(())
    }

    /// Appends an entry, kept whole. It allocates nothing.
    pub fn push(&mut self, entry: Entry)
        requires { length self.old.entries < self.old.room }
        ensures entries { self.new.entries ≡ self.old.entries ++ entry ∷ [] }
        ensures room { self.new.room ≡ self.old.room }
    {
        let Entry { stamp, kind } = entry;
        let number = self.whole.len() as u32;
        self.whole.push_reserved(kind);
        self.rows.push_reserved(Row {
            stamp,
            number,
            brief: Brief::Whole,
        });
    }

    /// Appends an entry: `from` made a frame that carries the message in this slot to `to`. It allocates nothing.
    #[inline(always)]
    pub fn push_sent(&mut self, stamp: u64, from: NodeId, to: NodeId, slot: u64)
        requires { length self.old.entries < self.old.room }
        ensures entries { self.new.entries
            ≡ self.old.entries ++ entry_with stamp (silent (Send from to slot)) ∷ [] }
        ensures room { self.new.room ≡ self.old.room }
    {
        match small(slot) {
            Some(number) => self.push_short(stamp, Brief::Sent { from, to }, number),
            None => {
                let kind = without_news(self.alloc, Event::Send { from, to, slot });
                self.push(Entry { stamp, kind });
            }
        }
    }

    /// Appends an entry: `from` made a frame that acknowledges this slot to `to`. It allocates nothing.
    #[inline(always)]
    pub fn push_acknowledged(&mut self, stamp: u64, from: NodeId, to: NodeId, slot: u64)
        requires { length self.old.entries < self.old.room }
        ensures entries { self.new.entries
            ≡ self.old.entries ++ entry_with stamp (silent (Ack from to slot)) ∷ [] }
        ensures room { self.new.room ≡ self.old.room }
    {
        match small(slot) {
            Some(number) => self.push_short(stamp, Brief::Acked { from, to }, number),
            None => {
                let kind = without_news(self.alloc, Event::Ack { from, to, slot });
                self.push(Entry { stamp, kind });
            }
        }
    }

    /// Appends the arrival of frame number `seq` of `from`, with its outcome. It allocates nothing.
    #[inline(always)]
    pub fn push_arrived(&mut self, stamp: u64, from: NodeId, seq: u64, outcome: Outcome)
        requires { length self.old.entries < self.old.room }
        ensures entries { self.new.entries
            ≡ self.old.entries ++ entry_with stamp (Step (Arrive from seq) None outcome) ∷ [] }
        ensures room { self.new.room ≡ self.old.room }
    {
        match small(seq) {
            Some(number) if is_nothing(&outcome) => {
                self.push_short(stamp, Brief::Arrived { from }, number);
            }
            _ => self.push(Entry {
                stamp,
                kind: EntryKind::Step {
                    event: Event::Arrive { from, seq },
                    origin: None,
                    outcome,
                },
            }),
        }
    }

    // Appends an entry that refers to nothing kept whole.
    fn push_short(&mut self, stamp: u64, brief: Brief, number: u32)
        requires room { length self.old.entries < self.old.room }
        requires short { IsShort brief }
        ensures entries { self.new.entries
            ≡ self.old.entries ++ entry_with stamp (kind_of [] brief number) ∷ [] }
        ensures room { self.new.room ≡ self.old.room }
    {
        self.rows.push_reserved(Row {
            stamp,
            number,
            brief,
        });
    }

    /// How many entries the log has.
    pub fn len(&self) -> usize
        ensures { result ≡ length self.now.entries }
    {
        self.rows.len()
    }

    /// The entry at this place.
    pub fn entry(&self, place: usize) -> EntryRef<'_>
        requires { place < length self.now.entries }
        ensures { slice_get self.now.entries place ≡ Some (shown_entry result) }
    {
        let row = self.rows[place];
        EntryRef {
            stamp: row.stamp,
            kind: kind_ref(row.brief, row.number, self.whole.as_slice()),
        }
    }

    /// The log, which takes no more entries.
    pub fn close(self) -> Log
        ensures { result ≡ self.entries }
    {
        Log { open: self }
    }
}

impl Log {
    /// The empty log. It allocates nothing.
    pub fn new(alloc: Global) -> Log
        ensures { result ≡ [] }
    {
        Log {
            open: OpenLog {
                alloc,
                rows: Vec::new(alloc),
                whole: Vec::new(alloc),
            },
        }
    }

    /// How many entries the log has.
    pub fn len(&self) -> usize
        ensures { result ≡ length self.now }
    {
        self.open.len()
    }

    /// Appends an entry, or reports out of memory and leaves the log as it was.
    pub fn push(&mut self, entry: Entry) -> Result<(), AllocError>
        ensures ok { OnOk result (self.new ≡ self.old ++ entry ∷ []) }
        ensures err { OnErr result (self.new ≡ self.old) }
    {
        self.open.make_room()?;
        self.open.push(entry);
        Ok(())
    }

    /// The entry at this place.
    pub fn entry(&self, place: usize) -> EntryRef<'_>
        requires { place < length self.now }
        ensures { slice_get self.now place ≡ Some (shown_entry result) }
    {
        self.open.entry(place)
    }
}

// The step of an event that delivers and decides nothing.
fn without_news(alloc: Global, event: Event) -> EntryKind
    ensures { result ≡ silent event }
{
    EntryKind::Step {
        event,
        origin: None,
        outcome: Outcome {
            deliveries: List::new(alloc),
            decisions: List::new(alloc),
        },
    }
}

fn is_nothing(outcome: &Outcome) -> bool
    ensures { IsTrue result → outcome.now ≡ nothing }
{
    outcome.deliveries.as_slice().is_empty() && outcome.decisions.as_slice().is_empty()
}

// The number, if it fits into four bytes.
fn small(number: u64) -> Option<u32>
    ensures { IfSome result (λ small. small ≡ number) }
{
    if number < 1 << 32 {
        Some(number as u32)
    } else {
        None
    }
}

fn kind_ref<'a>(brief: Brief, number: u32, whole: &'a [EntryKind]) -> KindRef<'a>
    requires { IsPlaced (length whole.now) brief number }
    ensures { shown_kind result ≡ kind_of whole.now brief number }
{
    let slot = u64::from(number);
    match brief {
        Brief::Sent { from, to } => KindRef::Sent { from, to, slot },
        Brief::Acked { from, to } => KindRef::Acked { from, to, slot },
        Brief::Arrived { from } => KindRef::Arrived { from, seq: slot },
        Brief::Whole => KindRef::Whole(&whole[number as usize]),
    }
}

impl<'a> KindRef<'a> {
    /// A copy of the event if this is a step, or out of memory, which only the bytes of an item cause.
    pub fn copy_event(&self) -> Result<Option<Event>, AllocError>
        ensures { IfOk result (λ copy. copy ≡ step_event (shown_kind self.now)) }
    {
        match self {
            KindRef::Sent { from, to, slot } => Ok(Some(Event::Send {
                from: *from,
                to: *to,
                slot: *slot,
            })),
            KindRef::Acked { from, to, slot } => Ok(Some(Event::Ack {
                from: *from,
                to: *to,
                slot: *slot,
            })),
            KindRef::Arrived { from, seq } => Ok(Some(Event::Arrive {
                from: *from,
                seq: *seq,
            })),
            KindRef::Whole(EntryKind::Step { event, .. }) => Ok(Some(event.copy()?)),
            KindRef::Whole(EntryKind::Refused { .. }) => Ok(None),
        }
    }
}
