//! A node with its log and its clock.
ghost use Rattle.std.specs.Prelude.{◌≡◌, ◌+◌, ◌-◌, ◌<◌, ◌^◌, ◌⊎◌, ◌++◌, ◌∷◌, [], length, true, Some, None, Err, IfOk, IfErr, OnOk, OnErr, IsTrue, IsFalse, IsSome, is_some};
ghost use Rattle.cast_message.specs.declared.message.FrameKind.TheVariants.{Took};
ghost use Rattle.cast_model.specs.Steps.{Acknowledged, Arrived, Stopped, making};
ghost use Rattle.cast_log.specs.Logged.{entry_with, silent};
ghost use Rattle.cast_node.specs.Linked.{event_of};
ghost use Rattle.cast_node.specs.Calls.{sent_reply};
ghost use Rattle.cast_node.specs.Kept.{nothing_kept};
ghost use Rattle.cast_node.specs.Turns.{Gives, kept_fault, frame_made, may_want};
ghost use Rattle.cast_node.specs.declared.report.EngineEnd.TheVariants.{Crashed, TurnLimit, ClockFull};
ghost use Rattle.cast_journal.specs.Journals.{MayLog, LogsStep, LogsOrder, IsDeliveredLast, Halts, HaltsBy, EndsLate, IsClosed, AsksOrder, MayEnd};

use crate::order::OrderIn;
use crate::parcel::Parcel;
use cast_log::{Entry, EntryKind, Log, OpenLog, Origin};
use cast_message::{Config, Event, Frame, FrameKind, Item, NodeId, Outcome, StepFault};
use cast_node::{EngineEnd, Node, no_news};
use std::alloc::{AllocError, Global};
use std::marker::Model;

/// A node, its log and its clock. The journal allocates the whole log's room when it is made.
#[derive(Drop)]
pub struct Journal {
    alloc: Global,
    config: Config,
    node: Node,
    log: OpenLog,
    clock: u64,
    // The engine crashes after this many entries.
    crash: Option<u64>,
    ended: Option<EngineEnd>,
    // How many turns are left.
    turns: u64,
}

impl Model for Journal {
    ghost use Rattle.cast_journal.specs.Journals.{JournalState, JournalKeeps, journal_code};
    ghost use Rattle.cast_message.specs.contracts.config.Config as configs;
    ghost use Rattle.cast_node.specs.contracts.node.Node as nodes;
    ghost use Rattle.cast_log.specs.contracts.entry.Entry as entries;
    ghost use Rattle.cast_node.specs.contracts.report.EngineEnd as engine_ends;

    ghost Value = { JournalState };

    ghost coded = { journal_code configs.the_row.coded nodes.the_row.coded entries.the_row.coded
        engine_ends.the_row.coded };

    ghost view = { λ j. record {
      config = j.config;
      node = j.node;
      log = j.log.entries;
      clock = j.clock;
      crash = j.crash;
      ended = j.ended;
      turns = j.turns;
    } };

    ghost invariant = { λ j. JournalKeeps j.config
        j.log.room j.node j.log.entries j.clock j.crash j.ended j.turns };
}

impl Journal {
    /// The journal of a new node of the group, with room for its whole log, for as many turns as given; or out of
    /// memory.
    pub fn new(
        alloc: Global,
        config: &Config,
        me: NodeId,
        crash: Option<u64>,
        turns: u64,
    ) -> Result<Journal, AllocError>
        requires { me < config.now.nodes }
        ensures { IfOk result (λ j.
            j ≡ record {
              config = config.now;
              node = nothing_kept config.now me;
              log = [];
              clock = config.now.first_stamp;
              crash = crash;
              ended = None;
              turns = turns;
            }) }
    {
        let Ok(node) = Node::new(alloc, config, me) else {
            return Err(AllocError);
        };
        let log = OpenLog::with_room(alloc, config.log_limit() as usize)?;
        Ok(Journal {
            alloc,
            config: *config,
            node,
            log,
            clock: config.first_stamp(),
            crash,
            ended: None,
            turns,
        })
    }

    /// Whether an entry may be logged. If not, the engine has ended: its log or its clock is full, or it crashes now.
    #[inline(always)]
    pub fn may_log(&mut self) -> bool
        ensures may { IsTrue result → (self.new ≡ self.old) × MayLog self.old }
        ensures halts { IsFalse result → Halts self.old self.new }
        ensures kept { IsSome self.old.ended → self.new ≡ self.old }
        ensures cause { IsFalse result → self.old.ended ≡ None → HaltsBy self.old self.new.ended }
        ensures ended { IsFalse result → IsSome self.new.ended }
        ensures late { EndsLate self.old self.new }
    {
        if self.ended.is_some() {
            return false;
        }
        if self.log.len() as u64 >= self.config.log_limit() {
            self.ended = Some(EngineEnd::LogFull);
            return false;
        }
        if self.clock == u64::MAX {
            self.ended = Some(EngineEnd::ClockFull);
            return false;
        }
        if self.crash == Some(self.log.len() as u64) {
            self.log_crash();
            return false;
        }
        true
    }

    // Logs the crash that is due.
    fn log_crash(&mut self)
        requires running { self.old.ended ≡ None }
        requires room { length self.old.log < self.old.config.log_limit }
        requires time { self.old.clock + 1 < 2 ^ 64 }
        requires due { self.old.crash ≡ Some (length self.old.log) }
        ensures step { LogsStep self.old self.new Stopped None self.old.clock }
        ensures ended { self.new.ended ≡ Some Crashed }
    {
        let me = self.node.id();
        let crashed = self.node.crash().is_ok();
        prove!(crashed);
        let stamp = self.clock + 1;
        self.log.push(Entry {
            stamp,
            kind: EntryKind::Step {
                event: Event::Crash { node: me },
                origin: None,
                outcome: no_news(self.alloc),
            },
        });
        self.clock = stamp;
        self.ended = Some(EngineEnd::Crashed);
    }

    /// Takes a frame that arrives, logs it, and returns how many messages it delivered. The only refusal is out of
    /// memory, and only if some node could have made the frame for this one, and it may have an effect. A refusal
    /// changes nothing.
    pub fn arrive(&mut self, parcel: &Parcel) -> Result<usize, StepFault>
        requires may { MayLog self.old }
        requires to { parcel.now.frame.to ≡ self.old.node.me }
        requires stamp { parcel.now.stamp + 1 < 2 ^ 64 }
        ensures ok { OnOk result
            (LogsStep self.old self.new (Arrived parcel.now.frame) None parcel.now.stamp) }
        ensures count { IfOk result (λ count. IsDeliveredLast self.new.log count) }
        ensures ended { self.new.ended ≡ self.old.ended }
        ensures err { OnErr result (self.new ≡ self.old) }
        ensures wants { OnErr result (may_want self.old.node parcel.now.frame ≡ true) }
    {
        let outcome = self.node.arrive(&parcel.frame)?;
        let delivered = outcome.deliveries.as_slice().len();
        let stamp = self.clock.max(parcel.stamp) + 1;
        self.log
            .push_arrived(stamp, parcel.frame.from, parcel.frame.seq, outcome);
        self.clock = stamp;
        Ok(delivered)
    }

    /// Makes a frame of this kind for a slot, and logs it, or returns why the node makes none. Only a frame with a
    /// message can be out of memory. A refusal changes nothing.
    #[inline(always)]
    pub fn make(&mut self, kind: FrameKind, to: NodeId, slot: u64) -> Result<Parcel, StepFault>
        requires { MayLog self.old }
        ensures ok { OnOk result
            (LogsStep self.old self.new (making kind to slot) None self.old.clock) }
        ensures parcel { IfOk result (λ parcel.
            (parcel.frame ≡ frame_made kind self.old.node to slot)
            × (parcel.stamp ≡ self.new.clock)) }
        ensures ended { self.new.ended ≡ self.old.ended }
        ensures err { OnErr result (self.new ≡ self.old) }
        ensures refused { IfErr result (λ fault.
            Gives self.old.node (making kind to slot) (Err fault) self.old.node) }
        ensures sure { kind ≡ Took → IfErr result (λ fault.
            kept_fault self.old.node (Acknowledged to slot) ≡ Some fault) }
    {
        let from = self.node.id();
        let frame = frame_by(&mut self.node, kind, to, slot)?;
        let stamp = self.clock + 1;
        log_frame(&mut self.log, stamp, kind, from, to, slot);
        self.clock = stamp;
        Ok(Parcel { stamp, frame })
    }

    /// Takes a client's order, and logs it or its refusal. Returns how many messages it delivered.
    pub fn order(&mut self, order: OrderIn) -> usize
        requires { MayLog self.old }
        ensures logs { LogsOrder self.old self.new order }
        ensures count { IsDeliveredLast self.new.log result }
        ensures ended { self.new.ended ≡ self.old.ended }
    {
        let node = self.node.id();
        let OrderIn {
            client,
            ticket,
            item,
        } = order;
        let origin = Origin { client, ticket };
        let stamp = self.clock + 1;
        match ask(&mut self.node, item) {
            Ok((item, outcome)) => {
                let delivered = outcome.deliveries.as_slice().len();
                self.log.push(Entry {
                    stamp,
                    kind: EntryKind::Step {
                        event: Event::Order { node, item },
                        origin: Some(origin),
                        outcome,
                    },
                });
                self.clock = stamp;
                delivered
            }
            Err(fault) => {
                self.log.push(Entry {
                    stamp,
                    kind: EntryKind::Refused { origin, fault },
                });
                self.clock = stamp;
                0
            }
        }
    }

    /// Notes how the engine ends: it stops because all are quiet, or no turn is left.
    pub fn end(&mut self, end: EngineEnd)
        requires { MayEnd self.old end }
        ensures { self.new ≡ record self.old { ended = Some end } }
    {
        self.ended = Some(end);
    }

    /// Ends the engine: its clock is full, because this parcel has the last stamp.
    pub fn end_by_last_stamp(&mut self, parcel: &Parcel)
        requires may { MayLog self.old }
        requires last { parcel.now.stamp + 1 ≡ 2 ^ 64 }
        ensures { self.new ≡ record self.old { ended = Some ClockFull } }
    {
        let _last = parcel.stamp;
        self.ended = Some(EngineEnd::ClockFull);
    }

    /// Counts a turn, and returns whether one was left. If none was, the engine has ended or ends here: as its log
    /// says, or else because no turn is left.
    pub fn count_turn(&mut self) -> bool
        ensures halts { Halts self.old self.new }
        ensures counted { IsTrue result → self.new ≡ record self.old { turns = self.old.turns - 1 } }
        ensures none { IsFalse result → (self.old.turns ≡ 0) × IsSome self.new.ended }
        ensures late { EndsLate self.old self.new }
    {
        if self.turns == 0 {
            if self.may_log() {
                self.end(EngineEnd::TurnLimit);
            }
            return false;
        }
        self.turns -= 1;
        true
    }

    // Ends the engine, if it has not ended: as its log says, or else as if no turn were left.
    fn close(&mut self)
        ensures kept { IsSome self.old.ended → self.new ≡ self.old }
        ensures halts { Halts self.old self.new }
        ensures ended { IsSome self.new.ended }
        ensures cause { self.old.ended ≡ None →
            (self.new.ended ≡ Some TurnLimit) ⊎ HaltsBy self.old self.new.ended }
        ensures late { EndsLate self.old self.new }
    {
        if self.may_log() {
            self.turns = 0;
            self.end(EngineEnd::TurnLimit);
        }
    }

    /// Whether the engine has ended.
    pub fn has_ended(&self) -> bool
        ensures { result ≡ is_some self.now.ended }
    {
        self.ended.is_some()
    }

    /// The node.
    pub fn node(&self) -> &Node
        ensures { result.now ≡ self.now.node }
    {
        &self.node
    }

    /// The number of the node.
    pub fn id(&self) -> NodeId
        ensures { result ≡ self.now.node.me }
    {
        self.node.id()
    }

    /// The log.
    pub fn log(&self) -> &OpenLog
        ensures { result.now.entries ≡ self.now.log }
    {
        &self.log
    }

    /// The log, the node and the end. If the engine has not ended, it ends here: as its log says, or else as if no turn
    /// were left.
    pub fn into_parts(mut self) -> (Log, Node, EngineEnd)
        ensures { IsClosed self result.0 result.1 result.2 }
    {
        self.close();
        let Journal {
            log,
            node,
            ended,
            ..
        } = self;
        (log.close(), node, ended.unwrap())
    }
}

// Makes a frame of this kind for a slot.
fn frame_by(node: &mut Node, kind: FrameKind, to: NodeId, slot: u64) -> Result<Frame, StepFault>
    ensures gives { Gives node.old (making kind to slot) (sent_reply result) node.new }
    ensures made { IfOk result (λ frame. frame ≡ frame_made kind node.old to slot) }
    ensures sure { kind ≡ Took →
        IfErr result (λ fault. kept_fault node.old (Acknowledged to slot) ≡ Some fault) }
{
    match kind {
        FrameKind::Carry => node.send(to, slot),
        FrameKind::Took => node.ack(to, slot),
    }
}

// Logs that `from` made a frame of this kind for a slot.
#[inline(always)]
fn log_frame(log: &mut OpenLog, stamp: u64, kind: FrameKind, from: NodeId, to: NodeId, slot: u64)
    requires { length log.old.entries < log.old.room }
    ensures entries { log.new.entries ≡ log.old.entries
        ++ entry_with stamp (silent (event_of from (making kind to slot))) ∷ [] }
    ensures room { log.new.room ≡ log.old.room }
{
    match kind {
        FrameKind::Carry => log.push_sent(stamp, from, to, slot),
        FrameKind::Took => log.push_acknowledged(stamp, from, to, slot),
    }
}

// Asks the node to take an item, and returns a copy of it for the log. The node checks only once whether it refuses.
fn ask(node: &mut Node, item: Item) -> Result<(Item, Outcome), StepFault>
    ensures gives { AsksOrder node.old node.new item result }
    ensures copy { IfOk result (λ told. told.0 ≡ item) }
{
    if let Some(fault) = node.order_fault(&item) {
        return Err(fault);
    }
    let copy = item.copy()?;
    let (_number, outcome) = node.order_asked(item)?;
    Ok((copy, outcome))
}
