//! The picture as it grows, event by event.
ghost use Rattle.std.specs.Prelude.{◌≡◌, ◌<◌, ◌≤◌, ◌^◌};

use crate::cell::{NARROW, WIDE, width_of};
use crate::deeds::{At, put_deeds};
use crate::frames::{Cargo, Fate, MadeFrame, MadeFrames};
use crate::layout::Layout;
use crate::links::{Links, Pair};
use crate::mark::{Ground, Mark, Shown};
use crate::rows::{add_frame, arrive, count, end_line, given, hold, new_links, new_made};
use crate::window::Window;
use cast_message::{Answer, Config, Event, Item, List, NodeId, Outcome, Reply, StepFault};
use std::alloc::{AllocError, Global};

// The least width of a ground.
const LEAST_GROUND: u64 = 48;

/// The picture of a run. It takes the events with their replies, one after another. It keeps the marks of the events in its
/// window. Of all events it keeps which frames they made, which of these arrived, what the nodes give one another, and where a
/// node's line ends.
#[derive(Drop)]
pub struct Picture {
    pub(crate) alloc: Global,
    pub(crate) config: Config,
    pub(crate) window: Window,
    pub(crate) layout: Layout,
    // The first column of the last settle.
    pub(crate) settle: u64,
    pub(crate) grounds: List<Ground>,
    pub(crate) marks: List<Mark>,
    // By node, what it holds, and what it gives each peer.
    pub(crate) links: Vec<Links>,
    // By node, the frames that it made.
    pub(crate) made: Vec<MadeFrames>,
    // By node, the column at which it crashed.
    pub(crate) crashes: Vec<Option<u64>>,
}

impl Picture {
    ghost use Rattle.std.specs.Prelude.{IfOk, OnOk, OnErr, is_some, slice_get, true};
    ghost use Rattle.cast_draw.specs.Gifts.{slot_of};
    ghost use Rattle.cast_draw.specs.Sheet.{blank, sheet_of, shows};
    ghost use Rattle.cast_draw.specs.Drawn.{answer_wants, answered, arrival_wants, arrived, crashed, drawn_after, gifts_at, made_at, ordered, refused, sent, sent_slot, settle_begun, settle_ended, wants_memory, with_mark, with_outcome};

    /// The picture of a group in which nothing has happened.
    pub fn new(alloc: Global, config: &Config, window: Window) -> Result<Picture, AllocError>
        ensures { IfOk result (λ picture. sheet_of picture ≡ blank config.now window) }
    {
        let nodes = config.nodes();
        Ok(Picture {
            alloc,
            config: *config,
            window,
            layout: Layout::new(alloc),
            settle: 0,
            grounds: List::new(alloc),
            marks: List::new(alloc),
            links: new_links(alloc, nodes)?,
            made: new_made(alloc, nodes)?,
            crashes: vec![in alloc; None; nodes as usize]?,
        })
    }

    /// Takes the event at this place of its script, and the reply to it. If the reply doesn't belong to the event, nothing
    /// changes. A picture wider than 2^40 points counts as out of memory. If it is out of memory, the picture may have a part of
    /// the event's marks, and must not be finished.
    pub fn take(&mut self, index: u64, event: &Event, reply: &Reply) -> Result<(), AllocError>
        ensures ok { OnOk result (sheet_of self.new
            ≡ drawn_after (sheet_of self.old) index event.now reply.now) }
        ensures err { OnErr result
            (wants_memory (sheet_of self.old) index event.now reply.now ≡ true) }
    {
        match reply {
            Ok(answer) => self.take_answer(index, event, answer)?,
            Err(fault) => self.take_refusal(index, *fault)?,
        }
        Ok(())
    }

    /// Where the next column starts, in points from the left.
    pub fn column(&self) -> u64 {
        self.layout.next()
    }

    /// Notes that a settle begins: the next events belong to it.
    pub fn begin_settle(&mut self)
        ensures { sheet_of self.new ≡ settle_begun (sheet_of self.old) }
    {
        self.settle = self.layout.count();
    }

    /// Notes that the settle at this place of the script is over. If the settle is shown, the call may be out of memory, as
    /// `take` may, and then the picture must not be finished.
    pub fn end_settle(&mut self, index: u64) -> Result<(), AllocError>
        ensures ok { OnOk result (sheet_of self.new ≡ settle_ended (sheet_of self.old) index) }
        ensures err { OnErr result (shows self.old.window index ≡ true) }
    {
        // (a settle that is not shown has no ground)
        if !self.window.shows(index) {
            return Ok(());
        }
        // (a settle without events has a column of its own)
        if self.settle == self.layout.count() {
            self.layout.add(LEAST_GROUND)?;
        }
        self.layout.widen(self.settle, LEAST_GROUND)?;
        self.grounds.push(Ground {
            from: self.settle,
            to: self.layout.count(),
            event: index,
        })
    }

    fn take_answer(&mut self, index: u64, event: &Event, answer: &Answer) -> Result<(), AllocError>
        ensures ok { OnOk result (sheet_of self.new
            ≡ answered (sheet_of self.old) index event.now answer.now) }
        ensures err { OnErr result
            (answer_wants (sheet_of self.old) index event.now answer.now ≡ true) }
    {
        match (event, answer) {
            (Event::Order { node, item }, Answer::Ordered { number, outcome }) => {
                self.take_order(index, *node, item, *number, outcome)
            }
            (Event::Send { from, to, slot }, Answer::Sent { .. }) => {
                self.take_send(index, *from, *to, *slot)
            }
            (Event::Ack { from, to, slot }, Answer::Sent { .. }) => {
                self.take_frame(index, *from, *to, *slot, Cargo::Ack)
            }
            (Event::Arrive { from, seq }, Answer::Arrived { node, outcome }) => {
                self.take_arrival(index, *from, *seq, *node, outcome)
            }
            (Event::Crash { node }, Answer::Down) => self.take_crash(index, *node),
            _ => Ok(()),
        }
    }

    fn take_order(
        &mut self,
        index: u64,
        node: NodeId,
        item: &Item,
        number: u64,
        outcome: &Outcome,
    ) -> Result<(), AllocError>
        ensures { OnOk result (sheet_of self.new
            ≡ ordered (sheet_of self.old) index node item.now number outcome.now) }
    {
        let pair = Pair {
            sender: node,
            number,
        };
        hold(&mut self.links, node, Cargo::Message(pair), node)?;
        if !self.window.shows(index) {
            return Ok(());
        }
        let item = item.copy()?;
        self.put(index, Shown::Broadcast { node, number, item })?;
        // (the label of the item needs room even if nothing is delivered)
        self.put_outcome(index, node, outcome, WIDE)
    }

    // The frame carries the message in the slot. A slot that was not given has no frame.
    fn take_send(
        &mut self,
        index: u64,
        from: NodeId,
        to: NodeId,
        slot: u64,
    ) -> Result<(), AllocError>
        ensures ok { OnOk result (sheet_of self.new
            ≡ sent_slot (sheet_of self.old) index from to slot
            (slot_of (gifts_at self.old.links.items from) to slot)) }
        ensures err { OnErr result
            (is_some (slot_of (gifts_at self.old.links.items from) to slot) ≡ true) }
    {
        match given(self.links.as_slice(), from, to, slot) {
            Some(pair) => self.take_frame(index, from, to, slot, Cargo::Message(pair)),
            None => Ok(()),
        }
    }

    fn take_frame(
        &mut self,
        index: u64,
        from: NodeId,
        to: NodeId,
        slot: u64,
        cargo: Cargo,
    ) -> Result<(), AllocError>
        ensures { OnOk result (sheet_of self.new
            ≡ sent (sheet_of self.old) index from to slot cargo) }
    {
        let is_shown = self.window.shows(index);
        let frame = MadeFrame {
            from,
            seq: count(self.made.as_slice(), from),
            to,
            slot,
            cargo,
            index,
            column: if is_shown { self.layout.count() } else { 0 },
            is_shown,
            fate: Fate::UnderWay,
        };
        add_frame(&mut self.made, &frame)?;
        if is_shown {
            self.layout.add(NARROW)?;
        }
        Ok(())
    }

    fn take_arrival(
        &mut self,
        index: u64,
        from: NodeId,
        seq: u64,
        node: NodeId,
        outcome: &Outcome,
    ) -> Result<(), AllocError>
        ensures ok { OnOk result (sheet_of self.new
            ≡ arrived (sheet_of self.old) index from seq node outcome.now
            (slice_get (made_at self.old.made.items from) seq)) }
        ensures err { OnErr result (arrival_wants (shows self.old.window index)
            (gifts_at self.old.links.items node)
            (slice_get (made_at self.old.made.items from) seq) ≡ true) }
    {
        let is_shown = self.window.shows(index);
        let Some(frame) = arrive(&mut self.made, from, seq, is_shown) else {
            return Ok(());
        };
        hold(&mut self.links, node, frame.cargo, from)?;
        if !is_shown {
            return Ok(());
        }
        self.put(index, Shown::Arrival { frame, node })?;
        self.put_outcome(index, node, outcome, NARROW)
    }

    fn take_crash(&mut self, index: u64, node: NodeId) -> Result<(), AllocError>
        ensures ok { OnOk result (sheet_of self.new ≡ crashed (sheet_of self.old) index node) }
        ensures err { OnErr result (shows self.old.window index ≡ true) }
    {
        end_line(&mut self.crashes, node, self.layout.count());
        if !self.window.shows(index) {
            return Ok(());
        }
        self.put(index, Shown::Crash { node })?;
        self.layout.add(NARROW)
    }

    fn take_refusal(&mut self, index: u64, fault: StepFault) -> Result<(), AllocError>
        ensures ok { OnOk result (sheet_of self.new ≡ refused (sheet_of self.old) index fault) }
        ensures err { OnErr result (shows self.old.window index ≡ true) }
    {
        if !self.window.shows(index) {
            return Ok(());
        }
        self.put(index, Shown::Refusal { fault })?;
        self.layout.add(NARROW)
    }

    // Adds a mark in the next column.
    fn put(&mut self, event: u64, shown: Shown) -> Result<(), AllocError>
        ensures { OnOk result (sheet_of self.new ≡ with_mark (sheet_of self.old) event shown) }
    {
        let column = self.layout.count();
        self.marks.push(Mark {
            column,
            event,
            shown,
        })
    }

    // Adds what an event delivered and decided at a node to the next column, which is then complete and at least this wide.
    fn put_outcome(
        &mut self,
        event: u64,
        node: NodeId,
        outcome: &Outcome,
        least: u64,
    ) -> Result<(), AllocError>
        ensures { OnOk result (sheet_of self.new
            ≡ with_outcome (sheet_of self.old) event node outcome.now) }
    {
        let deliveries = outcome.deliveries.as_slice();
        let decisions = outcome.decisions.as_slice();
        let at = At {
            column: self.layout.count(),
            event,
            node,
        };
        put_deeds(&mut self.marks, &at, deliveries, decisions)?;
        let count = (deliveries.len() as u64).saturating_add(decisions.len() as u64);
        self.layout
            .add(width_of(count, !decisions.is_empty()).max(least))
    }

    /// The height below all lines and boxes.
    pub(crate) fn bottom(&self) -> u64
        ensures lower { 76 ≤ result }
        ensures upper { result < 2 ^ 13 }
    {
        76 + 84 * self.config.nodes() - 24
    }
}
