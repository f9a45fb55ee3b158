//! A peer: a node with its log and its clock, and what is on its way to the others.
ghost use Rattle.std.specs.Prelude.{◌≡◌, ◌+◌, ◌<◌, ◌^◌, ◌⊎◌, ◌≢◌, true, IfErr, IfNone, IfOk, IfSome, OnErr, OnOk};
ghost use Rattle.cast_journal.specs.Journals.{MayLog, LogsOrder, Halts};
ghost use Rattle.cast_peer.specs.Peers.{TakesParcel, TakesIn, Receives, Drops, MakesFrame, LogsFrameAtMost, IsSaved, may_be_made, parcel_in};
ghost use Rattle.cast_peer.specs.New.{IsNew, no_node_of};
ghost use Rattle.cast_peer.specs.declared.fault.PeerFault.TheVariants.{Ended, Refused};

use crate::fault::PeerFault;
use crate::flight::Flight;
use crate::news::{News, Place, next_news};
use crate::possible::may_be_made;
use cast_journal::{Journal, OrderIn, Parcel};
use cast_log::{EntryKind, EntryRef, KindRef, OpenLog};
use cast_message::{Config, Frame, FrameBody, FrameKind, Item, NodeId, StepFault};
use cast_node::Node;
use cast_wire::{Packet, read_packet, write_packet};
use std::alloc::{AllocError, Global};
use std::collections::VecDeque;

/// When packets are given out and news is reported.
#[derive(Clone, Copy, Debug, PartialEq, Eq)]
pub enum Saving {
    /// After the entries that record them are saved. So a peer that is killed leaves a log of all that anybody saw of
    /// it.
    First,
    /// At once: for tests.
    Never,
}

/// What happened to a packet that was taken in.
#[derive(Clone, Copy, Debug, PartialEq, Eq)]
pub enum Received {
    /// Its arrival was logged.
    Taken,
    /// Its content is known, and nothing changed. A message that came before is acknowledged once more.
    Known,
}

/// What to send next.
#[derive(Clone, Copy, Debug, PartialEq, Eq)]
pub enum NextPacket {
    /// A packet for this node. The entry at this place of the log records it.
    Packet { to: NodeId, entry: usize },
    /// A packet was made and logged, and waits. Ask again, and save if asked to.
    Logged,
    /// Packets wait until more of the log is saved.
    Save,
    /// There is nothing to send now.
    Nothing,
}

// How many packets may wait before some must be saved.
const MOST_WAITING: usize = 64;

// A slot that was taken; its giver is to hear of it.
#[derive(Clone, Copy)]
struct Word {
    to: NodeId,
    slot: u64,
}

// A packet that waits for its entry to be saved.
#[derive(Drop)]
struct Waiting {
    to: NodeId,
    entry: usize,
    bytes: Vec<u8>,
}

/// A node of a group, with its log and its clock.
#[derive(Drop)]
pub struct Peer {
    alloc: Global,
    config: Config,
    group: u64,
    journal: Journal,
    // How many entries of the log are saved.
    saved: usize,
    words: VecDeque<Word>,
    waiting: VecDeque<Waiting>,
    // By node.
    flights: Vec<Flight>,
    // The last peer whose turn it was to be sent a slot.
    turn: u64,
    // The peers that are no longer expected to answer, a bit each.
    gone: u64,
    told: Place,
    // How many orders were given.
    orders: u64,
}

impl Peer {
    /// A new node of a group, with room for its whole log. Each packet has the group's number. Nobody may have made a
    /// peer with the same two numbers before. The call is refused if the number is no node's, or else if it is out of
    /// memory.
    pub fn new(
        alloc: Global,
        config: &Config,
        group: u64,
        me: NodeId,
        saving: Saving,
    ) -> Result<Peer, PeerFault>
        ensures begun { IfOk result (λ peer. IsNew config.now group me peer) }
        ensures refusal { IfErr result (λ fault. fault ≡ Refused (no_node_of config.now me)) }
    {
        if u64::from(me.0) >= config.nodes() {
            return Err(PeerFault::Refused(StepFault::NoNode));
        }
        match Peer::make(alloc, config, group, me, saving) {
            Ok(peer) => Ok(peer),
            Err(_) => Err(PeerFault::Refused(StepFault::Memory)),
        }
    }

    fn make(
        alloc: Global,
        config: &Config,
        group: u64,
        me: NodeId,
        saving: Saving,
    ) -> Result<Peer, AllocError>
        requires { me < config.now.nodes }
        ensures { IfOk result (λ peer. IsNew config.now group me peer) }
    {
        let journal = Journal::new(alloc, config, me, None, u64::MAX)?;
        let mut flights = Vec::new(alloc);
        for _peer in 0..config.nodes() {
            flights.push(Flight::new(alloc))?;
        }
        let saved = match saving {
            Saving::First => 0,
            Saving::Never => usize::MAX,
        };
        Ok(Peer {
            alloc,
            config: *config,
            group,
            journal,
            saved,
            words: VecDeque::new(alloc),
            waiting: VecDeque::new(alloc),
            flights,
            turn: 0,
            gone: 0,
            told: Place::first(),
            orders: 0,
        })
    }

    /// Broadcasts an item, or returns why not. If the node refuses, the refusal is logged too. `next_news` reports the
    /// item's number.
    pub fn order(&mut self, item: Item) -> Result<(), PeerFault>
        ensures logs { Halts self.old.journal self.new.journal
            ⊎ LogsOrder self.old.journal self.new.journal (record {
              client = 0;
              ticket = self.old.orders;
              item = item;
            }) }
    {
        if !self.journal.may_log() {
            return Err(PeerFault::Ended);
        }
        let ticket = self.orders;
        self.orders = ticket.saturating_add(1);
        self.journal.order(OrderIn {
            client: 0,
            ticket,
            item,
        });
        match last_refusal(self.journal.log()) {
            Some(fault) => Err(PeerFault::Refused(fault)),
            None => Ok(()),
        }
    }

    /// Takes what the network brought, or returns why it is dropped. It drops whatever no peer of the group could have
    /// made. Then nothing changed, except that the log or the clock may be found full.
    pub fn receive(&mut self, bytes: &[u8]) -> Result<Received, PeerFault>
        ensures ok { IfOk result (λ received. Receives self.old.config self.old.group
            self.old.journal bytes.now received self.new.journal) }
        ensures err { IfErr result (λ fault. Drops fault self.old.journal self.new.journal) }
    {
        let packet = match read_packet(self.alloc, bytes) {
            Ok(packet) => packet,
            Err(fault) => return Err(PeerFault::Wire(fault)),
        };
        match self.packet_fault(&packet) {
            Some(fault) => Err(fault),
            None => self.take(packet),
        }
    }

    /// Appends the next packet to send and returns its target; or logs one; or returns what to do first. A call logs at
    /// most one step.
    pub fn next_packet(&mut self, out: &mut Vec<u8>) -> Result<NextPacket, AllocError>
        ensures step { LogsFrameAtMost self.old.journal self.new.journal }
        ensures saved { IfOk result (IsSaved self.new.saved) }
    {
        if let Some(next) = self.give_waiting(out)? {
            return Ok(next);
        }
        if let Some(next) = self.send_again(out)? {
            return Ok(next);
        }
        if self.waiting.len() < MOST_WAITING && self.log_frame()? {
            return Ok(NextPacket::Logged);
        }
        if self.waiting.is_empty() {
            return Ok(NextPacket::Nothing);
        }
        Ok(NextPacket::Save)
    }

    /// Notes how many entries of the log are saved. The number is limited to the log's length, and never falls.
    pub fn saved(&mut self, count: usize)
        ensures { self.new.journal ≡ self.old.journal }
    {
        let count = count.min(self.journal.log().len());
        self.saved = self.saved.max(count);
    }

    /// Notes that time has passed. What was sent before the last call, and is not acknowledged, is due again, each time
    /// after twice as many calls.
    pub fn tick(&mut self)
        ensures { self.new.journal ≡ self.old.journal }
    {
        for flight in self.flights.iter_mut() {
            flight.tick();
        }
    }

    /// Sends nothing more to a peer, as it is no longer expected to answer. This may be wrong: no promise rests on it.
    pub fn give_up(&mut self, peer: NodeId)
        ensures { self.new.journal ≡ self.old.journal }
    {
        self.gone |= 1u64.checked_shl(u32::from(peer.0)).unwrap_or(0);
    }

    /// Whether nothing is owed to a peer that was not given up, no packet waits, and no slot is still to be
    /// acknowledged.
    pub fn is_quiet(&self) -> bool {
        if !self.words.is_empty() || !self.waiting.is_empty() {
            return false;
        }
        for peer in 0..self.config.nodes() {
            let Some(to) = NodeId::from_number(peer) else {
                return false;
            };
            if !self.is_gone(to) && self.journal.node().owed(to).unwrap_or(0) > 0 {
                return false;
            }
        }
        true
    }

    /// The next news that was not reported: the number of an item that the node ordered, or what it delivered or
    /// decided. If entries are to be saved first, nothing is reported of an unsaved one.
    pub fn next_news(&mut self) -> Result<Option<News>, AllocError>
        ensures { self.new.journal ≡ self.old.journal }
    {
        next_news(&mut self.told, self.journal.log(), self.saved)
    }

    /// The log. Save its entries in order.
    pub fn log(&self) -> &OpenLog
        ensures { result.now.entries ≡ self.now.journal.log }
    {
        self.journal.log()
    }

    /// The entry at this place of the log.
    pub fn entry(&self, place: usize) -> Option<EntryRef<'_>> {
        let log = self.journal.log();
        if place < log.len() {
            Some(log.entry(place))
        } else {
            None
        }
    }

    /// The node.
    pub fn node(&self) -> &Node
        ensures { result.now ≡ self.now.journal.node }
    {
        self.journal.node()
    }

    /// The configuration of the group.
    pub fn config(&self) -> &Config {
        &self.config
    }

    /// The number of the group.
    pub fn group(&self) -> u64
        ensures { result ≡ self.now.group }
    {
        self.group
    }

    // Takes the frame of a packet that the group made for this node.
    fn take(&mut self, packet: Packet) -> Result<Received, PeerFault>
        requires to { packet.frame.to ≡ self.old.journal.node.me }
        requires stamp { packet.stamp + 1 < 2 ^ 64 }
        ensures ok { IfOk result (λ received.
            TakesIn self.old.journal (parcel_in packet) received self.new.journal) }
        ensures err { IfErr result (λ fault. Drops fault self.old.journal self.new.journal) }
    {
        let Packet { stamp, frame, .. } = packet;
        self.take_parcel(&Parcel { stamp, frame })
    }

    fn take_parcel(&mut self, parcel: &Parcel) -> Result<Received, PeerFault>
        requires to { parcel.now.frame.to ≡ self.old.journal.node.me }
        requires stamp { parcel.now.stamp + 1 < 2 ^ 64 }
        ensures ok { IfOk result (λ received.
            TakesIn self.old.journal parcel.now received self.new.journal) }
        ensures err { IfErr result (λ fault. Drops fault self.old.journal self.new.journal) }
    {
        if self.is_known(&parcel.frame) {
            return Ok(Received::Known);
        }
        if !self.journal.may_log() {
            return Err(PeerFault::Ended);
        }
        match self.log_arrival(parcel) {
            Ok(()) => Ok(Received::Taken),
            Err(fault) => Err(PeerFault::Refused(fault)),
        }
    }

    // Why a packet is not taken, if it is not.
    fn packet_fault(&self, packet: &Packet) -> Option<PeerFault>
        ensures fault { IfSome result (λ fault. fault ≢ Ended) }
        ensures none { IfNone result ((packet.now.group ≡ self.now.group)
            × (packet.now.frame.to ≡ self.now.journal.node.me)
            × (packet.now.stamp + 1 < 2 ^ 64)
            × (may_be_made self.now.config self.now.journal.node.me packet.now.frame ≡ true)) }
    {
        let me = self.journal.id();
        if packet.group != self.group {
            return Some(PeerFault::OtherGroup);
        }
        if packet.frame.to != me {
            return Some(PeerFault::NotForMe);
        }
        if packet.stamp == u64::MAX {
            return Some(PeerFault::LastStamp);
        }
        if !may_be_made(&self.config, me, &packet.frame) {
            return Some(PeerFault::Impossible);
        }
        None
    }

    // Whether the content of a frame is known. A message that came before is then acknowledged by the same packet
    // again.
    fn is_known(&mut self, frame: &Frame) -> bool
        ensures { self.new.journal ≡ self.old.journal }
    {
        match &frame.body {
            FrameBody::Carry { slot, .. } => self.ask_again(frame.from, *slot),
            FrameBody::Took { slot } => {
                self.journal.node().least_owed(frame.from, *slot) != Some(*slot)
            }
        }
    }

    fn ask_again(&mut self, from: NodeId, slot: u64) -> bool
        ensures { self.new.journal ≡ self.old.journal }
    {
        match self.flights.get_mut(usize::from(from.0)) {
            Some(flight) => flight.acknowledged.ask_again(slot),
            None => false,
        }
    }

    fn log_arrival(&mut self, parcel: &Parcel) -> Result<(), StepFault>
        requires may { MayLog self.old.journal }
        requires to { parcel.now.frame.to ≡ self.old.journal.node.me }
        requires stamp { parcel.now.stamp + 1 < 2 ^ 64 }
        ensures ok { OnOk result (TakesParcel self.old.journal parcel.now self.new.journal) }
        ensures err { OnErr result (self.new.journal ≡ self.old.journal) }
    {
        if self.words.reserve(1).is_err() {
            return Err(StepFault::Memory);
        }
        self.journal.arrive(parcel)?;
        let (kind, slot) = brought_by(&parcel.frame.body);
        self.note(kind, parcel.frame.from, slot);
        Ok(())
    }

    fn note(&mut self, kind: FrameKind, from: NodeId, slot: u64)
        ensures { self.new.journal ≡ self.old.journal }
    {
        match kind {
            FrameKind::Carry => {
                let _has_room = self.words.push_back(Word { to: from, slot });
            }
            FrameKind::Took => {
                if let Some(flight) = self.flights.get_mut(usize::from(from.0)) {
                    flight.hear(slot);
                }
            }
        }
    }

    // Gives out the first packet that waits, if its entry is saved.
    fn give_waiting(&mut self, out: &mut Vec<u8>) -> Result<Option<NextPacket>, AllocError>
        ensures journal { self.new.journal ≡ self.old.journal }
        ensures saved { IfOk result (λ next. IfSome next (IsSaved self.new.saved)) }
    {
        let Some(first) = self.waiting.front() else {
            return Ok(None);
        };
        let (to, entry) = (first.to, first.entry);
        if entry >= self.saved {
            return Ok(None);
        }
        out.extend_from_slice(first.bytes.as_slice())?;
        self.waiting.pop_front();
        Ok(Some(NextPacket::Packet { to, entry }))
    }

    // Gives out again a packet that is due again, if there is one.
    fn send_again(&mut self, out: &mut Vec<u8>) -> Result<Option<NextPacket>, AllocError>
        ensures journal { self.new.journal ≡ self.old.journal }
        ensures saved { IfOk result (λ next. IfSome next (IsSaved self.new.saved)) }
    {
        for (peer, flight) in self.flights.iter_mut().enumerate() {
            let Some(to) = NodeId::from_number(peer as u64) else {
                return Ok(None);
            };
            if is_in(self.gone, to) {
                continue;
            }
            if let Some(entry) = flight.send_again(out)? {
                if entry < self.saved {
                    return Ok(Some(NextPacket::Packet { to, entry }));
                }
            }
        }
        Ok(None)
    }

    // Makes and logs a frame, if one is to be made, and keeps its packet waiting. Returns whether it did.
    fn log_frame(&mut self) -> Result<bool, AllocError>
        ensures step { LogsFrameAtMost self.old.journal self.new.journal }
    {
        self.waiting.reserve(1)?;
        let Some((kind, to, slot)) = self.next_frame() else {
            return Ok(false);
        };
        let Some(parcel) = self.make_frame(kind, to, slot) else {
            return Ok(false);
        };
        let Parcel { stamp, frame } = parcel;
        let packet = Packet {
            group: self.group,
            stamp,
            frame,
        };
        let bytes = write_packet(self.alloc, &packet)?;
        let again = write_packet(self.alloc, &packet)?;
        self.keep(kind, to, slot, bytes, again);
        Ok(true)
    }

    // Keeps the packet of a frame, to be given out now and sent again later.
    fn keep(&mut self, kind: FrameKind, to: NodeId, slot: u64, bytes: Vec<u8>, again: Vec<u8>)
        ensures { self.new.journal ≡ self.old.journal }
    {
        let entry = self.journal.log().len().saturating_sub(1);
        let _has_room = self.waiting.push_back(Waiting { to, entry, bytes });
        if let Some(flight) = self.flights.get_mut(usize::from(to.0)) {
            match kind {
                FrameKind::Carry => flight.note(slot, entry, again),
                FrameKind::Took => flight.acknowledged.keep(slot, entry, again),
            }
        }
    }

    // The frame to make next: an acknowledgement, or else the next slot for the next peer.
    fn next_frame(&mut self) -> Option<(FrameKind, NodeId, u64)>
        ensures { self.new.journal ≡ self.old.journal }
    {
        if let Some(Word { to, slot }) = self.words.pop_front() {
            return Some((FrameKind::Took, to, slot));
        }
        for _peer in 0..self.config.nodes() {
            let next = self.turn.saturating_add(1);
            self.turn = if next < self.config.nodes() { next } else { 0 };
            if let Some((to, slot)) = self.next_slot() {
                return Some((FrameKind::Carry, to, slot));
            }
        }
        None
    }

    // The slot to send next to the peer whose turn it is.
    fn next_slot(&mut self) -> Option<(NodeId, u64)>
        ensures { self.new.journal ≡ self.old.journal }
    {
        let to = NodeId::from_number(self.turn)?;
        if is_in(self.gone, to) {
            return None;
        }
        let flight = self.flights.get_mut(usize::from(to.0))?;
        let slot = flight.next_new(self.journal.node(), to)?;
        Some((to, slot))
    }

    fn make_frame(&mut self, kind: FrameKind, to: NodeId, slot: u64) -> Option<Parcel>
        ensures some { IfSome result (λ x.
            MakesFrame self.old.journal kind to slot x self.new.journal) }
        ensures none { IfNone result (Halts self.old.journal self.new.journal) }
    {
        if !self.journal.may_log() {
            return None;
        }
        match self.journal.make(kind, to, slot) {
            Ok(parcel) => Some(parcel),
            Err(_) => None,
        }
    }

    fn is_gone(&self, peer: NodeId) -> bool {
        is_in(self.gone, peer)
    }
}

fn is_in(bits: u64, node: NodeId) -> bool {
    bits.checked_shr(u32::from(node.0)).unwrap_or(0) % 2 == 1
}

// Why the last entry refused an order, if it did.
fn last_refusal(log: &OpenLog) -> Option<StepFault> {
    let last = log.len().saturating_sub(1);
    if last < log.len() {
        if let KindRef::Whole(EntryKind::Refused { fault, .. }) = log.entry(last).kind {
            return Some(*fault);
        }
    }
    None
}

fn brought_by(body: &FrameBody) -> (FrameKind, u64) {
    match body {
        FrameBody::Carry { slot, .. } => (FrameKind::Carry, *slot),
        FrameBody::Took { slot } => (FrameKind::Took, *slot),
    }
}
