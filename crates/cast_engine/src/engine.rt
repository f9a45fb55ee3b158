//! An engine: the owner of a node, its log and its clock, with the ends of its boxes.
ghost use Rattle.std.specs.Prelude.{◌≡◌, ◌<◌, [], length, IfOk, IfNone, IsTrue, IsFalse, IsSome, Some, None};
ghost use Rattle.cast_box.specs.Ends.{IsSamePutter, IsNextToEnd};
ghost use Rattle.cast_engine.specs.Engines.{EngineState, IsSameEngine, HasSameBoxes, DoesFew, IsIdleRightly, CanSendNothing, IsSameDesk, TakesOrder, HadNoOrder, HasEnded, Leaves, Tells, WereTold, IsUnused, trays_at, with_ended};
ghost use Rattle.cast_journal.specs.Runs.{Handed};
ghost use Rattle.cast_node.specs.Kept.{Kept};
ghost use Rattle.cast_resend.specs.Hopes.{IsDueTo, AsksAll};
ghost use Rattle.cast_resend.specs.Keeps.{Keeps, HasPlace, GivesPast, OwesLess};

use crate::feeding::{Place, first_places, notify_all};
use crate::gate::Gate;
use crate::haste::Haste;
use crate::quiet::Quiet;
use cast_box::{Full, Putter, Taker};
use cast_carrier::{Board, Pause};
use cast_desk::Desk;
use cast_journal::{Journal, OrderIn, Parcel};
use cast_log::Log;
use cast_message::{Config, Frame, FrameBody, FrameKind, NodeId};
use cast_node::{EngineEnd, Node};
use cast_resend::{Resend, brings_news};
use std::alloc::{AllocError, Global};
use std::marker::Model;
use std::sync::Wait;

/// The result of a turn.
#[derive(Clone, Copy)]
pub enum Turn {
    /// The engine did something.
    Moved,
    /// The engine put, took or kept no parcel, took no order, and put no notice. No slot is due to a peer that is not
    /// known to have ended, unless a parcel waits to be put, the engine has ended, or memory ran out. The engine may
    /// have logged a crash that was due.
    Idle,
    /// All engines are quiet, so the engine has ended, if it had not ended otherwise in this turn.
    Stopped,
    /// The engine has ended otherwise, in this turn or an earlier one, and not all engines are known to be quiet. Also
    /// the result of any turn after `Stopped`.
    Ended,
}

/// The owner of a node, its log and its clock.
#[derive(Drop)]
pub struct Engine {
    journal: Journal,
    outbox: Putter<Parcel>,
    inbox: Taker<Parcel>,
    // The parcel that the outbox refused last.
    held: Option<Parcel>,
    // The parcel taken last, until its arrival is logged. Out of memory may delay that.
    waiting: Option<Parcel>,
    // Present if the node has clients.
    desk: Option<Desk>,
    // By client.
    places: Vec<Place>,
    resend: Resend,
    haste: Haste,
    // Whether memory ran out, in the last turn, for a slot that was due.
    lacks_memory: bool,
    // How many messages were delivered in this turn.
    delivered: usize,
    // Whether the engine takes no more orders: no job is left, and the desk was empty or the engine has ended.
    no_orders: bool,
    // Whether the engine puts no more notices: no job is left, and each tray was full.
    trays_full: bool,
}

impl Model for Engine {
    ghost use Rattle.cast_engine.specs.Engines.{EngineState, EngineStays};
    ghost use Rattle.cast_resend.specs.Keeps.{Keeps};
    ghost use Rattle.cast_node.specs.contracts.node.Node as nodes;
    ghost use Rattle.cast_resend.specs.contracts.resend.Resend as resends;
    ghost use Rattle.std.specs.Coded.{codes};

    ghost Value = { EngineState };

    ghost coded = { Prim.hlevel (codes, nodes.the_row.coded, resends.the_row.coded) };

    ghost view = { λ e. record {
      config = e.journal.config;
      me = e.journal.node.me;
      node = e.journal.node;
      resend = e.resend;
      lacks_memory = e.lacks_memory;
      crash = e.journal.crash;
      outbox = e.outbox;
      held = e.held;
      inbox = e.inbox;
      waiting = e.waiting;
      desk = e.desk;
      turns = e.journal.turns;
      ended = e.journal.ended;
    } };

    ghost invariant = { λ e. EngineStays e.journal e.outbox.put e.held e.inbox.taken e.waiting
        (e.desk) e.places.items × Keeps e.journal.node e.resend };
}

// What a taken parcel carries from a peer.
#[derive(Clone, Copy)]
enum Received {
    // The message in this slot. The engine acknowledges it.
    Carried { from: NodeId, slot: u64 },
    // The peer took this slot.
    Acknowledged { from: NodeId, slot: u64 },
    // Nothing, as its arrival was not logged.
    Nothing,
}

/// What an ended engine leaves: the log, the node, the end, and the ends of its boxes.
#[derive(Drop)]
pub struct EngineParts {
    pub log: Log,
    pub node: Node,
    pub ended: EngineEnd,
    pub outbox: Putter<Parcel>,
    pub inbox: Taker<Parcel>,
    pub desk: Option<Desk>,
}

/// An engine's ends of its boxes, and the desk of its clients.
#[derive(Drop)]
pub struct EngineBoxes {
    pub outbox: Putter<Parcel>,
    pub inbox: Taker<Parcel>,
    /// Present if the node has clients.
    pub desk: Option<Desk>,
}

impl Engine {
    /// The engine of a new node. It crashes after `crash` entries, if given, and takes at most `turns` turns. All room
    /// for its log is allocated here.
    pub fn new(
        alloc: Global,
        config: &Config,
        me: NodeId,
        crash: Option<u64>,
        turns: u64,
        boxes: EngineBoxes,
    ) -> Result<Engine, AllocError>
        requires node { me < config.now.nodes }
        requires outbox { boxes.outbox.put ≡ [] }
        requires inbox { boxes.inbox.taken ≡ [] }
        requires desk { IsUnused boxes.desk }
        ensures new { IfOk result (λ e.
            e ≡ record e {
              config = config.now;
              me = me;
              crash = crash;
              outbox = boxes.outbox;
              held = None;
              inbox = boxes.inbox;
              waiting = None;
              desk = boxes.desk;
              turns = turns;
              ended = None;
            }) }
        ensures asks { IfOk result (λ e. AsksAll config.now.nodes e.resend) }
    {
        let journal = Journal::new(alloc, config, me, crash, turns)?;
        let places = first_places(alloc, count_clients(&boxes.desk))?;
        let resend = Resend::new(alloc, config)?;
        let haste = Haste::new(alloc, config)?;
        Ok(Engine {
            journal,
            outbox: boxes.outbox,
            inbox: boxes.inbox,
            held: None,
            waiting: None,
            desk: boxes.desk,
            places,
            resend,
            haste,
            lacks_memory: false,
            delivered: 0,
            no_orders: false,
            trays_full: false,
        })
    }

    /// Takes one turn: passes the gate, puts the parcel that waits, takes one and acknowledges it, takes an order,
    /// sends a slot that is due, and puts notices. It does each at most once, but puts one notice for each client, and
    /// up to three parcels (`few`). The result is `Ended` if the log or the clock is full, the node has crashed, or no
    /// turn is left. It is `Stopped` if all engines are quiet, and `Idle` only if nothing of the above was done and the
    /// engine can send nothing (`idle`).
    #[tactic(auto, using(crate::proofs::Again::desk_same))]
    pub fn turn<G: Gate, R: Wait>(
        &mut self,
        rt: &R,
        gate: &mut G,
        board: &Board,
        quiet: &mut Quiet,
    ) -> Turn
        ensures same { IsSameEngine self.old self.new }
        ensures few { DoesFew 1 1 3 1 self.old self.new }
        ensures idle { IsIdleRightly result self.old self.new }
        ensures ended { HasEnded result self.new.ended }
    {
        if !self.may_go_on() {
            return Turn::Ended;
        }
        if !self.count_turn() {
            return Turn::Ended;
        }
        gate.pass(rt);
        let moved = self.work(rt, board, quiet);
        self.tell_gate(gate);
        if quiet.may_stop(board) {
            self.stop();
            return Turn::Stopped;
        }
        if moved { Turn::Moved } else { Turn::Idle }
    }

    /// How the engine's thread waits after a turn with nothing to do.
    pub fn pause(&self) -> Pause {
        self.haste.pause(&self.resend.peers, self.resend.window)
    }

    /// Ends the next putter of the inbox.
    #[tactic(auto, using(crate::proofs::Again::desk_same))]
    pub fn end_inbox(&mut self, putter: Putter<Parcel>)
        requires { IsNextToEnd putter self.old.inbox }
        ensures { self.new ≡ with_ended self.old putter.put }
    {
        self.inbox.end(putter);
    }

    /// What the engine leaves. If it has not ended, because the run was given up, it ends here: as its log says, or
    /// else as if no turn were left.
    pub fn into_parts(self) -> EngineParts
        ensures ends { (result.outbox ≡ self.outbox) × (result.inbox ≡ self.inbox)
            × (result.desk ≡ self.desk) }
        ensures leaves { Leaves self result.log result.node result.ended }
        ensures tells { Tells self result.log result.node }
        ensures told { WereTold result.log (trays_at self.desk) }
    {
        let Engine {
            journal,
            outbox,
            inbox,
            desk,
            ..
        } = self;
        let (log, node, ended) = journal.into_parts();
        EngineParts {
            log,
            node,
            ended,
            outbox,
            inbox,
            desk,
        }
    }

    // Whether the engine may go on: its log and its clock are not full, and no crash is due. A crash that is due is
    // logged here.
    #[tactic(auto, using(crate::proofs::Again::desk_same))]
    fn may_go_on(&mut self) -> bool
        ensures same { IsSameEngine self.old self.new }
        ensures boxes { HasSameBoxes self.old self.new }
        ensures ended { IsFalse result → IsSome self.new.ended }
    {
        self.journal.may_log()
    }

    // Counts the turn, and returns whether one was left. If not, the engine has ended.
    #[tactic(auto, using(crate::proofs::Again::desk_same))]
    fn count_turn(&mut self) -> bool
        ensures same { IsSameEngine self.old self.new }
        ensures boxes { HasSameBoxes self.old self.new }
        ensures ended { IsFalse result → IsSome self.new.ended }
    {
        self.journal.count_turn()
    }

    // Ends the engine because all are quiet. The log is checked first: the slot sent last may have filled it, or made a
    // crash due.
    #[tactic(auto, using(crate::proofs::Again::desk_same))]
    fn stop(&mut self)
        ensures same { IsSameEngine self.old self.new }
        ensures boxes { HasSameBoxes self.old self.new }
        ensures ended { IsSome self.new.ended }
    {
        if self.journal.may_log() {
            self.journal.end(EngineEnd::Stopped);
        }
    }

    // Tells the gate how many messages were delivered in this turn, if any were.
    fn tell_gate<G: Gate>(&mut self, gate: &mut G)
        ensures { self.new ≡ self.old }
    {
        if self.delivered > 0 {
            gate.delivered(self.delivered as u64);
            self.delivered = 0;
        }
    }

    // Does the work of a turn: exchanges parcels, takes an order, sends a slot that is due, puts notices, and tells the
    // board whether the engine is quiet. Returns whether it did anything but the last. It looks for jobs before it
    // finds the desk empty and the trays full. Once no job is left, both stay so, and the engine stops looking at them.
    #[tactic(auto, using(crate::proofs::Again::desk_same))]
    fn work<R: Wait>(&mut self, rt: &R, board: &Board, quiet: &mut Quiet) -> bool
        ensures same { IsSameEngine self.old self.new }
        ensures few { DoesFew 1 1 3 1 self.old self.new }
        ensures idle { IsFalse result → HasSameBoxes self.old self.new }
        ensures sent { IsFalse result → CanSendNothing self.new }
    {
        let exchanged = self.exchange(rt, board, quiet);
        let jobs_ended = quiet.jobs_ended(board);
        let ordered = self.take_order(rt);
        let sent = self.send_next(rt, board);
        let told = self.notify(rt);
        self.note_served(jobs_ended, ordered, told);
        quiet.write(board, jobs_ended && !ordered && self.is_settled(board));
        exchanged || ordered || sent || told
    }

    // Puts the parcel that the outbox refused, takes one and acknowledges it. Returns whether it did any of this.
    #[tactic(auto, using(crate::proofs::Again::desk_same))]
    fn exchange<R: Wait>(&mut self, rt: &R, board: &Board, quiet: &mut Quiet) -> bool
        ensures same { IsSameEngine self.old self.new }
        ensures few { DoesFew 1 0 2 0 self.old self.new }
        ensures idle { IsFalse result → HasSameBoxes self.old self.new }
    {
        let put = self.flush(rt);
        let received = self.receive_and_acknowledge(rt, board, quiet);
        put || received
    }

    // Puts the parcel that the outbox refused last, if there is one. Returns whether it did.
    #[tactic(auto, using(crate::proofs::Again::desk_same))]
    fn flush<R: Wait>(&mut self, rt: &R) -> bool
        ensures same { IsSameEngine self.old self.new }
        ensures few { DoesFew 0 0 1 0 self.old self.new }
        ensures idle { IsFalse result → HasSameBoxes self.old self.new }
    {
        let Some(parcel) = self.held.take() else {
            return false;
        };
        hand(rt, &mut self.outbox, &mut self.held, parcel)
    }

    // Does nothing if a parcel waits to be put. Otherwise takes one, unless one waits to be logged, logs it and
    // acknowledges what it carries. Returns whether it took or logged one.
    #[tactic(auto, using(crate::proofs::Again::desk_same))]
    fn receive_and_acknowledge<R: Wait>(&mut self, rt: &R, board: &Board, quiet: &mut Quiet) -> bool
        ensures same { IsSameEngine self.old self.new }
        ensures few { DoesFew 1 0 1 0 self.old self.new }
        ensures idle { IsFalse result → HasSameBoxes self.old self.new }
    {
        if self.held.is_some() {
            return false;
        }
        quiet.look(board);
        let taken = self.take_next(rt);
        if !taken && self.waiting.is_none() {
            quiet.found_nothing();
            return false;
        }
        match self.log_waiting() {
            Received::Carried { from, slot } => {
                quiet.write(board, false);
                self.make(rt, FrameKind::Took, from, slot);
                true
            }
            Received::Acknowledged { from, slot } => {
                self.hear(from, slot);
                true
            }
            Received::Nothing => {
                quiet.looked(taken);
                taken
            }
        }
    }

    // Takes a parcel from the inbox, unless one waits to be logged, and returns whether there was one. The parcel then
    // waits; but one for another node is dropped.
    #[tactic(auto, using(crate::proofs::Again::desk_same))]
    fn take_next<R: Wait>(&mut self, rt: &R) -> bool
        ensures same { IsSameEngine self.old self.new }
        ensures few { DoesFew 1 0 0 0 self.old self.new }
        ensures idle { IsFalse result → HasSameBoxes self.old self.new }
    {
        if self.waiting.is_some() {
            return false;
        }
        let Some(parcel) = self.inbox.take(rt) else {
            return false;
        };
        if parcel.frame.to == self.journal.id() {
            self.haste.meet(self.journal.node(), &parcel.frame);
            set(&mut self.waiting, Some(parcel));
        } else {
            let_go(parcel);
        }
        true
    }

    // Logs the arrival of the parcel that waits, if there is one, and returns what it carries. The parcel goes on
    // waiting if memory runs out, or if it has the last stamp, which ends the engine.
    #[tactic(auto, using(crate::proofs::Again::desk_same))]
    fn log_waiting(&mut self) -> Received
        ensures same { IsSameEngine self.old self.new }
        ensures boxes { HasSameBoxes self.old self.new }
    {
        if !self.journal.may_log() {
            return Received::Nothing;
        }
        let Some(parcel) = &self.waiting else {
            return Received::Nothing;
        };
        if parcel.stamp == u64::MAX {
            self.journal.end_by_last_stamp(parcel);
            return Received::Nothing;
        }
        let has_news = brings_news(self.journal.node(), &parcel.frame);
        let Ok(delivered) = self.journal.arrive(parcel) else {
            return Received::Nothing;
        };
        let received = brought_by(&parcel.frame);
        note_news(&mut self.resend, has_news);
        self.delivered = self.delivered.saturating_add(delivered);
        set(&mut self.waiting, None);
        received
    }

    // Makes a frame that carries or acknowledges a slot, and hands it on, unless a parcel waits to be put. Returns
    // whether it did.
    #[tactic(auto, using(crate::proofs::Again::desk_same))]
    #[inline(always)]
    fn make<R: Wait>(&mut self, rt: &R, kind: FrameKind, to: NodeId, slot: u64) -> bool
        ensures same { IsSameEngine self.old self.new }
        ensures few { DoesFew 0 0 1 0 self.old self.new }
        ensures idle { IsFalse result → HasSameBoxes self.old self.new }
        ensures resend { self.new.resend ≡ self.old.resend }
        ensures frame { IsTrue result →
            self.new.node ≡ record self.old.node { frames = self.new.node.frames } }
    {
        if self.held.is_some() {
            return false;
        }
        if !self.journal.may_log() {
            return false;
        }
        let Ok(parcel) = self.journal.make(kind, to, slot) else {
            return false;
        };
        hand(rt, &mut self.outbox, &mut self.held, parcel);
        true
    }

    // Notes that a peer took a slot, so that others may be on their way to it.
    #[tactic(auto, using(crate::proofs::Again::desk_same))]
    fn hear(&mut self, from: NodeId, slot: u64)
        ensures { self.new ≡ record self.old { resend = self.new.resend } }
    {
        self.resend.hear(from, slot);
    }

    // Takes one order and logs it. Returns whether there was one. The log is checked first, so that a due crash comes
    // even if no order can.
    #[tactic(auto, using(crate::proofs::Again::desk_same))]
    fn take_order<R: Wait>(&mut self, rt: &R) -> bool
        ensures same { IsSameEngine self.old self.new }
        ensures idle { IsFalse result → HasSameBoxes self.old self.new }
        ensures few { DoesFew 0 1 0 0 self.old self.new }
    {
        if !self.journal.may_log() || self.no_orders {
            return false;
        }
        let Some(order) = next_order(rt, &mut self.desk) else {
            return false;
        };
        let delivered = self.journal.order(order);
        self.delivered = self.delivered.saturating_add(delivered);
        self.resend.given();
        true
    }

    // Begins a turn of sending, and sends a slot to the next peer in cyclic order to which one is due and that has not
    // ended. Returns whether it did.
    #[tactic(auto, using(crate::proofs::Again::desk_same))]
    fn send_next<R: Wait>(&mut self, rt: &R, board: &Board) -> bool
        ensures same { IsSameEngine self.old self.new }
        ensures few { DoesFew 0 0 1 0 self.old self.new }
        ensures idle { IsFalse result → HasSameBoxes self.old self.new }
        ensures sent { IsFalse result → CanSendNothing self.new }
    {
        self.lacks_memory = false;
        self.haste.pass();
        self.resend.next_turn(self.journal.node());
        if self.held.is_some() {
            return false;
        }
        let Some((to, slot)) = self.resend.next_due(self.journal.node(), board) else {
            return false;
        };
        self.send(rt, to, slot)
    }

    // Sends the slot, which is due. Returns whether it did.
    #[tactic(auto, using(crate::proofs::Again::desk_same))]
    fn send<R: Wait>(&mut self, rt: &R, to: NodeId, slot: u64) -> bool
        requires due { IsDueTo self.old.node self.old.resend to slot }
        requires place { HasPlace self.old.resend }
        ensures same { IsSameEngine self.old self.new }
        ensures few { DoesFew 0 0 1 0 self.old self.new }
        ensures idle { IsFalse result → HasSameBoxes self.old self.new }
        ensures sent { IsFalse result → CanSendNothing self.new }
    {
        if !self.make(rt, FrameKind::Carry, to, slot) {
            self.lacks_memory = !self.journal.has_ended();
            return false;
        }
        self.note(to, slot);
        true
    }

    // Notes that the slot, which was due, is sent in this turn.
    #[tactic(auto, using(crate::proofs::Again::desk_same))]
    fn note(&mut self, to: NodeId, slot: u64)
        requires due { IsDueTo self.old.node self.old.resend to slot }
        requires place { HasPlace self.old.resend }
        ensures { self.new ≡ record self.old { resend = self.new.resend } }
    {
        if self.resend.note(to, slot) {
            self.haste.send_again(to);
        }
    }

    // Puts the next notice of each client's feed, if its tray has room, and none after the engine has ended. Returns
    // whether it put one.
    #[tactic(auto, using(crate::proofs::Again::desk_same))]
    fn notify<R: Wait>(&mut self, rt: &R) -> bool
        ensures same { IsSameEngine self.old self.new }
        ensures few { DoesFew 0 0 0 1 self.old self.new }
        ensures idle { IsFalse result → HasSameBoxes self.old self.new }
        ensures rest { self.new ≡ record self.old { desk = self.new.desk } }
    {
        if self.trays_full || self.journal.has_ended() {
            return false;
        }
        match &mut self.desk {
            Some(desk) => notify_all(rt, desk, &mut self.places, self.journal.log()),
            None => false,
        }
    }

    // Notes, if no job is left, whether the desk was empty and each client's next notice found its tray full.
    #[tactic(auto, using(crate::proofs::Again::desk_same))]
    fn note_served(&mut self, jobs_ended: bool, ordered: bool, told: bool)
        ensures { self.new ≡ self.old }
    {
        self.no_orders = jobs_ended && !ordered;
        self.trays_full = jobs_ended
            && !told
            && self.places.iter().all(|place| place.waiting.is_some());
    }

    // Whether no parcel waits to be put, and nothing is owed to an engine that has not ended. A parcel may wait to be
    // logged: memory may never come, and its sender is owed the acknowledgement.
    fn is_settled(&self, board: &Board) -> bool {
        if self.held.is_some() {
            return false;
        }
        for peer in 0..board.len() {
            if owes(self.journal.node(), peer) && !board.has_ended(peer) {
                return false;
            }
        }
        true
    }
}

// Notes that a frame arrived. If it had a message that the node did not hold, any peer may have been given slots.
fn note_news(resend: &mut Resend, has_news: bool)
    ensures { (before after : Kept) → Keeps before resend.old → GivesPast before after
        → (IsFalse has_news → OwesLess before after) → Keeps after resend.new }
{
    if has_news {
        resend.given();
    }
}

fn owes(node: &Node, peer: usize) -> bool {
    match NodeId::from_number(peer as u64) {
        Some(peer) => node.owed(peer).unwrap_or(0) > 0,
        None => false,
    }
}

fn count_clients(desk: &Option<Desk>) -> usize
    ensures { result ≡ length (trays_at desk.now) }
{
    match desk {
        Some(desk) => desk.trays.len(),
        None => 0,
    }
}

fn set(waiting: &mut Option<Parcel>, next: Option<Parcel>)
    ensures { waiting.new ≡ next }
{
    *waiting = next;
}

// Drops a parcel for another node.
fn let_go(_parcel: Parcel) {}

// What a frame that arrived carries.
fn brought_by(frame: &Frame) -> Received {
    let from = frame.from;
    match &frame.body {
        FrameBody::Carry { slot, .. } => Received::Carried { from, slot: *slot },
        FrameBody::Took { slot } => Received::Acknowledged { from, slot: *slot },
    }
}

// Puts a parcel into the outbox, or keeps it if that is full. Returns whether it was put.
#[inline(always)]
fn hand<R: Wait>(
    rt: &R,
    outbox: &mut Putter<Parcel>,
    held: &mut Option<Parcel>,
    parcel: Parcel,
) -> bool
    ensures same { IsSamePutter outbox.old outbox.new }
    ensures handed { Handed outbox.old.put outbox.new.put held.new parcel }
    ensures kept { IsFalse result → (outbox.new ≡ outbox.old) × (held.new ≡ Some parcel) }
{
    match outbox.put(rt, parcel) {
        Ok(()) => {
            *held = None;
            true
        }
        Err(Full { item: parcel }) => {
            *held = Some(parcel);
            false
        }
    }
}

// Takes an order from the desk. It finds none only if there is no desk, or if all that the ended clients put was taken.
#[tactic(auto, using(crate::proofs::Again::desk_same))]
fn next_order<R: Wait>(rt: &R, desk: &mut Option<Desk>) -> Option<OrderIn>
    ensures same { IsSameDesk desk.old desk.new }
    ensures taken { TakesOrder desk.old result desk.new }
    ensures empty { IfNone result (HadNoOrder desk.old) }
{
    match desk {
        Some(desk) => desk.take(rt),
        None => None,
    }
}
