//! The group as one value: events go in, replies come out.
ghost use Rattle.std.specs.Prelude.{◌≡◌, ◌≢◌, ◌<◌, ◌≤◌, ◌^◌, ◌∷◌, IsTrue, IsFalse, IfOk, IfErr, IfSome, IfNone, IsSomeAnd, OnErr, [], length, map, ◌-◌, slice_get, option_map, nat_lt, ◌&&◌, Ok, Err, None};
ghost use Rattle.std.specs.List.{range_with_len};
ghost use Rattle.cast_message.specs.declared.event.StepFault.TheVariants.{Memory};
ghost use Rattle.cast_model.specs.History.{frames, is_live};
ghost use Rattle.cast_model.specs.Replies.{reply};
ghost use Rattle.cast_model.specs.Delivery.{decision};
ghost use Rattle.cast_model.specs.Shown.{ShowsDelivered, ShowsStream, ShowsOwed};
ghost use Rattle.cast_world.specs.Group.{Stands, StandingFor, Continues, FindsNode, IsFar, IsCrash, IsRefusedForCause, node_at, marks_at};
ghost use Rattle.cast_node.specs.Calls.{number_reply, silent_reply};
ghost use Rattle.cast_world.specs.Moves.{FindsMark, IsSilent, MakesFrame, StepsTo};
ghost use Rattle.cast_world.specs.Plans.{due_of};
ghost use Rattle.cast_world.specs.Settled.{SettlesSilently, SettlesFront};

use crate::due_run::Run;
use crate::due_slots::{DueSlot, DueSlots};
use crate::frames::{self, Mark};
use crate::settling::settle_between;
use cast_message::FrameKind::{Carry, Took};
use cast_message::{Answer, Config, Event, Frame, FrameKind, Item, NodeId, Reply, StepFault};
use cast_node::{Node, no_news};
use std::alloc::{AllocError, Global};
use std::marker::Model;

/// All nodes of a group, and marks of the frames that they made. Calls that only show
/// something and can't fail allocate nothing.
#[derive(Drop)]
pub struct World {
    alloc: Global,
    config: Config,
    nodes: Vec<Node>,
    // By the node that made them.
    marks: Vec<Vec<Mark>>,
}

impl Model for World {
    ghost use Rattle.std.specs.Prelude.{map};
    ghost use Rattle.cast_world.specs.Group.{State, state_of};
    ghost use Rattle.cast_world.specs.Moves.{IsSound};
    ghost use Rattle.cast_world.specs.Code.{state_code};
    ghost use Rattle.cast_message.specs.contracts.config.Config as settings;
    ghost use Rattle.cast_node.specs.contracts.node.Node as node;
    ghost use Rattle.cast_world.specs.contracts.frames.Mark as mark;

    ghost Value = { State };

    ghost coded = { state_code settings.the_row.coded node.the_row.coded mark.the_row.coded };

    ghost view = { λ w. state_of w.config w.nodes.items (map (λ row. row.items) w.marks.items) };

    ghost invariant = { λ w.
        IsSound (state_of w.config w.nodes.items (map (λ row. row.items) w.marks.items)) };
}

impl World {
    /// A group in which nothing has happened.
    pub fn new(alloc: Global, config: Config) -> Result<World, AllocError>
        ensures { IfOk result (λ world. Stands config [] world) }
    {
        let count = config.nodes();
        let mut nodes = Vec::with_capacity(alloc, count as usize)?;
        let mut marks = Vec::with_capacity(alloc, count as usize)?;
        for id in 0..count as u8 {
            match Node::new(alloc, &config, NodeId(id)) {
                Ok(node) => nodes.push(node)?,
                Err(_) => return Err(AllocError),
            }
            marks.push(Vec::new(alloc))?;
        }
        Ok(World {
            alloc,
            config,
            nodes,
            marks,
        })
    }

    /// Takes one event. A refused event changes nothing.
    pub fn step(&mut self, event: &Event) -> Reply
        ensures stands { StandingFor self.old (λ config past.
            Continues config past event.now result self.new) }
        ensures err { OnErr result (self.new ≡ self.old) }

        // No slot is given that a mark has no room for: there is a cause to refuse its event, which is never out of memory.
        ensures far { StandingFor self.old (λ config past.
            IsFar event.now → IsRefusedForCause config past event.now result) }

        // A crash is never out of memory.
        ensures sure { StandingFor self.old (λ config past.
            IsCrash event.now → result ≡ reply config past event.now) }
    {
        self.take(event)
    }

    // The node that the event names takes a step.
    fn take(&mut self, event: &Event) -> Reply
        ensures steps { StepsTo self.old event.now result self.new }
        ensures err { OnErr result (self.new ≡ self.old) }
        ensures sure { IsCrash event.now → result ≢ Err Memory }
    {
        match event {
            Event::Order { node, item } => self.order(*node, item),
            Event::Send { from, to, slot } => sent(self.make(Carry, *from, *to, *slot)),
            Event::Ack { from, to, slot } => sent(self.make(Took, *from, *to, *slot)),
            Event::Arrive { from, seq } => self.arrive(*from, *seq),
            Event::Crash { node } => self.crash(*node),
        }
    }

    /// Takes one event as `step` does, if it is accepted and nothing is delivered or decided by it. Says whether it did. It may
    /// always return `false`: then nothing changed, and `step` takes the event. It tries sends, acknowledgements, and arrivals of
    /// acknowledgements and of held messages: most events are such, and it takes them faster than `step`.
    pub fn step_if_silent(&mut self, event: &Event) -> bool
        ensures took { IsTrue result → StandingFor self.old (λ config past.
            IsSilent (reply config past event.now)
            × Stands config (event.now ∷ past) self.new) }
        ensures not { IsFalse result → self.new ≡ self.old }
    {
        match event {
            Event::Send { from, to, slot } => self.make(Carry, *from, *to, *slot).is_ok(),
            Event::Ack { from, to, slot } => self.make(Took, *from, *to, *slot).is_ok(),
            Event::Arrive { from, seq } => self.arrive_silently(*from, *seq).is_some(),
            Event::Order { .. } | Event::Crash { .. } => false,
        }
    }

    /// Settles the first of these slots, one after another, as long as each of their events (`DueSlot::events`) is accepted and
    /// nothing is delivered or decided by it, and takes them off. It may always stop early.
    pub fn settle_while_silent(&mut self, due: &mut DueSlots)
        ensures { SettlesFront self.old due.old due.new self.new }
    {
        'runs: while self.settle_first_run(due) {
            // (the next run, until one isn't settled as a whole)
        }
    }

    // The same for the first slots in succession that one node owes another. Returns whether there were any, and all were settled.
    #[inline(always)]
    fn settle_first_run(&mut self, due: &mut DueSlots) -> bool
        ensures settles { SettlesFront self.old due.old due.new self.new }
        ensures fewer { IsTrue result → length due.new < length due.old }
    {
        let Some(run) = due.first_run() else {
            return false;
        };
        let Some(end) = (run.first + run.more).checked_add(1) else {
            return false;
        };
        let settled = self.settle_run(run.from, run.to, run.first, end);
        due.skip(settled);
        settled > run.more
    }

    // Settles the slots from the first up to the end that one node owes another, in order. Returns how many.
    #[inline(always)]
    fn settle_run(&mut self, from: NodeId, to: NodeId, first: u64, end: u64) -> u64
        requires { first ≤ end }
        ensures few { result ≤ end - first }
        ensures settles { SettlesSilently self.old
            (map (due_of from to) (range_with_len first result)) self.new }
    {
        let from = usize::from(from.0);
        let to = usize::from(to.0);
        if from == to || from >= self.nodes.len() || to >= self.nodes.len() {
            return 0;
        }
        settle_between(
            self.nodes.as_mut_slice(),
            self.marks.as_mut_slice(),
            from,
            to,
            first,
            end,
        )
    }

    fn order(&mut self, node: NodeId, item: &Item) -> Reply
        ensures { StepsTo self.old (Event.Order node item.now) result self.new }
    {
        let place = usize::from(node.0);
        if place >= self.nodes.len() {
            return Err(StepFault::NoNode);
        }
        if let Some(fault) = self.nodes[place].order_fault(item) {
            return Err(fault);
        }
        let item = item.copy()?;
        let (number, outcome) = self.nodes[place].order_asked(item)?;
        Ok(Answer::Ordered { number, outcome })
    }

    // A node makes a frame for a slot.
    #[inline(always)]
    fn make(
        &mut self,
        kind: FrameKind,
        from: NodeId,
        to: NodeId,
        slot: u64,
    ) -> Result<u64, StepFault>
        ensures { MakesFrame self.old kind from to slot (number_reply result) self.new }
    {
        let place = usize::from(from.0);
        if place >= self.nodes.len() {
            return Err(StepFault::NoNode);
        }
        frames::make(
            &mut self.nodes[place],
            &mut self.marks[place],
            kind,
            to,
            slot,
        )
    }

    fn arrive(&mut self, from: NodeId, seq: u64) -> Reply
        ensures { StepsTo self.old (Event.Arrive from seq) result self.new }
    {
        if let Some(node) = self.arrive_silently(from, seq) {
            return Ok(silent(self.alloc, node));
        }
        let mark = frames::find(&self.marks, from, seq)?;
        let place = usize::from(mark.to.0);
        if let Some(fault) = self.nodes[place].arrive_fault() {
            return Err(fault);
        }
        let frame = frames::rebuild(&self.nodes, from, seq, mark)?;
        frames::arrive(&mut self.nodes[place], &frame)
    }

    // A frame arrives, if nothing is delivered or decided by it: the node at which it does. Else nothing changed.
    fn arrive_silently(&mut self, from: NodeId, seq: u64) -> Option<NodeId>
        ensures took { IfSome result (λ node.
            StepsTo self.old (Event.Arrive from seq) (silent_reply node) self.new) }
        ensures not { IfNone result (self.new ≡ self.old) }
    {
        let Ok(mark) = frames::find(&self.marks, from, seq) else {
            return None;
        };
        let place = usize::from(mark.to.0);
        if !frames::arrive_silently(&mut self.nodes[place], from, &mark) {
            return None;
        }
        Some(mark.to)
    }

    #[tactic(auto, using(std::proofs::lemmas::Bool::Decides::nat_tests), unfolding(cast_model::specs::Refusals::first_fault, cast_node::specs::Turns::kept_fault))]
    fn crash(&mut self, node: NodeId) -> Reply
        ensures steps { StepsTo self.old (Event.Crash node) result self.new }
        ensures sure { result ≢ Err Memory }
    {
        let place = usize::from(node.0);
        if place >= self.nodes.len() {
            return Err(StepFault::NoNode);
        }
        match self.nodes[place].crash() {
            Ok(()) => Ok(Answer::Down),
            // A node refuses to crash for no other cause.
            Err(_) => Err(StepFault::Crashed),
        }
    }

    /// The items that node `node` delivered from `sender`, in order, if both are nodes. It takes no memory.
    pub fn delivered(&self, node: NodeId, sender: NodeId) -> Option<&[Item]>
        ensures { StandingFor self.now (λ config past.
            ShowsDelivered config past node sender (option_map (λ items. items.now) result)) }
    {
        self.node(node)?.delivered(sender)
    }

    /// The items that node `node` broadcast, in order, if it is a node. It takes no memory.
    pub fn stream(&self, node: NodeId) -> Option<&[Item]>
        ensures { StandingFor self.now (λ config past.
            ShowsStream config past node (option_map (λ items. items.now) result)) }
    {
        Some(self.node(node)?.stream())
    }

    /// The value that node `node` decided in the instance, if it did.
    pub fn decision(&self, node: NodeId, instance: u64) -> Option<u64>
        ensures { StandingFor self.now (λ config past.
            result ≡ decision config past node instance) }
    {
        self.node(node)?.decision(instance)
    }

    /// How many slots `from` owes `to`, if they are two different nodes. It takes no memory.
    pub fn owed(&self, from: NodeId, to: NodeId) -> Option<u64>
        ensures { StandingFor self.now (λ config past. ShowsOwed config past from to result) }
    {
        self.node(from)?.owed(to)
    }

    /// The node of this number, if there is one. It takes no memory.
    pub fn node(&self, node: NodeId) -> Option<&Node>
        ensures { FindsNode self.now node (option_map (λ found. found.now) result) }
    {
        self.nodes.get(usize::from(node.0))
    }

    /// Whether there is this node, and it has not crashed. It takes no memory.
    pub fn live(&self, node: NodeId) -> bool
        ensures { StandingFor self.now (λ config past.
            result ≡ (nat_lt node config.nodes && is_live past node)) }
    {
        match self.node(node) {
            Some(found) => found.live(),
            None => false,
        }
    }

    pub(crate) fn allocator(&self) -> Global {
        self.alloc
    }

    /// How many frames a node made; none if there is no such node.
    pub fn frame_count(&self, node: NodeId) -> u64
        ensures value { result ≡ length (marks_at self.now node) }
        ensures bound { result < 2 ^ 63 }
    {
        match self.marks.get(usize::from(node.0)) {
            Some(row) => row.len() as u64,
            None => 0,
        }
    }

    /// The number of nodes, 1 to 64.
    pub(crate) fn node_count(&self) -> u8
        ensures value { result ≡ length self.now.nodes }
        ensures config { result ≡ self.now.config.nodes }
    {
        self.nodes.len() as u8
    }

    pub(crate) fn is_live(&self, node: NodeId) -> bool
        requires { node < length self.now.nodes }
        ensures { result ≡ (node_at self.now node).live }
    {
        self.nodes[usize::from(node.0)].live()
    }

    /// The node of this number, which there is.
    pub(crate) fn node_of(&self, node: NodeId) -> &Node
        requires { node < length self.now.nodes }
        ensures node { result.now ≡ node_at self.now node }
        ensures place { result.now.me ≡ node }
        ensures config { result.now.config ≡ self.now.config }
        ensures size { length self.now.nodes ≡ self.now.config.nodes }
    {
        &self.nodes[usize::from(node.0)]
    }

    /// The frame with this number that node `from` made, if there is one. It can also be out of memory.
    pub fn frame(&self, from: NodeId, seq: u64) -> Result<Frame, StepFault>
        ensures found { StandingFor self.now (λ config past.
            IfOk result (λ frame. IsSomeAnd (slice_get (frames past from) seq)
            (λ made. frame ≡ record made { seq = seq }))) }
        ensures none { StandingFor self.now (λ config past. IfErr result (λ fault.
            fault ≢ Memory → slice_get (frames past from) seq ≡ None)) }
    {
        let mark = self.mark(from, seq)?;
        Ok(frames::rebuild(&self.nodes, from, seq, mark)?)
    }

    pub(crate) fn mark(&self, from: NodeId, seq: u64) -> Result<Mark, StepFault>
        ensures found { FindsMark self.now.marks from seq result }
        ensures target { IfOk result (λ mark. mark.to < length self.now.nodes) }
    {
        frames::find(&self.marks, from, seq)
    }
}

// The answer to an arrival at which nothing is delivered or decided.
fn silent(alloc: Global, node: NodeId) -> Answer
    ensures { Ok result ≡ silent_reply node }
{
    Answer::Arrived {
        node,
        outcome: no_news(alloc),
    }
}

// The reply to an event that makes a frame, by the frame's number.
fn sent(made: Result<u64, StepFault>) -> Reply
    ensures { result ≡ number_reply made }
{
    Ok(Answer::Sent { seq: made? })
}
