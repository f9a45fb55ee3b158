//! Which nodes are known to hold each pair, what waits for its turn, and what was delivered and decided. A call first
//! makes room, then allocates what no room can be made for. After that nothing is refused.
ghost use Rattle.std.specs.Prelude.{◌≡◌, ◌≢◌, ◌+◌, ◌-◌, ◌<◌, ◌≤◌, ◌++◌, true, suc, [], length, map, vec_len, vec_capacity, slice_get, slice_index_or, option_map, IsSome, IsTrue, IsFalse, IfOk, OnOk, OnErr};
ghost use Rattle.std.specs.FinSet as set;
ghost use Rattle.cast_model.specs.OwnSteps.{nothing};
ghost use Rattle.cast_fifo.specs.HeldBack.{held_of, came, heard_items};
ghost use Rattle.cast_fifo.specs.Calls.{Offer, held_after, answer};
ghost use Rattle.cast_agree.specs.Journal.{counted_all};
ghost use Rattle.cast_agree.specs.Counted.{decision};
ghost use Rattle.cast_node.specs.Delivering.{knowers_in, is_enough, known_row, noted, nothing_delivered, told_in, outcome_in, waiting_in, heard_news, heard_by, news_outcome, waits_by};
ghost use Rattle.cast_node.specs.Settling.{IsQuiet};

use cast_agree::Agree;
use cast_fifo::HoldBack;
use cast_message::{Config, GroupSet, Item, List, Message, Mode, NodeId, Outcome};
use std::alloc::{AllocError, Global};
use std::marker::Model;

#[derive(Drop)]
pub struct Deliveries {
    alloc: Global,
    // By sender and number.
    knowers: Vec<Vec<GroupSet>>,
    hold_back: HoldBack,
    // By sender.
    delivered: Vec<Vec<Item>>,
    agree: Agree,
}

impl Model for Deliveries {
    ghost use Rattle.std.specs.Prelude.{map};
    ghost use Rattle.cast_node.specs.Delivering.{Delivering};
    ghost use Rattle.cast_node.specs.Code.{delivering_code, IsSound};
    ghost use Rattle.cast_message.specs.contracts.message.Item as items;
    ghost use Rattle.cast_fifo.specs.contracts.waiting.Waiting as waits;

    ghost Value = { Delivering };

    ghost coded = { delivering_code items.the_row.coded waits.the_row.coded };

    ghost view = { λ d. record {
      knowers = map (λ row. row.items) d.knowers.items;
      hold_back = d.hold_back;
      delivered = map (λ items. items.items) d.delivered.items;
      agree = d.agree;
    } };

    ghost invariant = { λ d. IsSound (map (λ row. row.items) d.knowers.items) d.hold_back
        (map (λ items. items.items) d.delivered.items) };
}

impl Deliveries {
    /// Deliveries in which no pair is held.
    pub fn new(alloc: Global, config: &Config) -> Result<Deliveries, AllocError>
        ensures { IfOk result (λ deliveries. deliveries ≡ nothing_delivered config.now) }
    {
        let mut knowers = Vec::new(alloc);
        let mut delivered = Vec::new(alloc);
        for _sender in 0..config.nodes() {
            knowers.push(Vec::new(alloc))?;
            delivered.push(Vec::new(alloc))?;
        }
        Ok(Deliveries {
            alloc,
            knowers,
            hold_back: HoldBack::new(alloc, config.nodes())?,
            delivered,
            agree: Agree::new(alloc, config.nodes(), config.faults()),
        })
    }

    /// Whether a pair is held: its message waits, or had its turn. The sender is a node.
    pub fn holds(&self, sender: NodeId, number: u64) -> bool
        requires { sender < length self.now.hold_back }
        ensures { result ≡ came (held_of self.now.hold_back sender) number }
    {
        self.hold_back.came(sender, number)
    }

    /// The nodes known to hold a pair. The sender is a node.
    pub fn knowers(&self, sender: NodeId, number: u64) -> GroupSet
        requires { sender < length self.now.hold_back }
        ensures { result ≡ knowers_in self.now.knowers sender number }
    {
        match self.knowers[usize::from(sender.0)].get(number as usize) {
            Some(knowers) => knowers.copy(),
            None => GroupSet::new(),
        }
    }

    /// The nodes known to hold a pair, and this one. The sender is a node.
    pub fn knowers_with(&self, sender: NodeId, number: u64, node: NodeId) -> GroupSet
        requires sender { sender < length self.now.hold_back }
        requires node { node < 64 }
        ensures { result ≡ set.insert (knowers_in self.now.knowers sender number) node }
    {
        let mut knowers = self.knowers(sender, number);
        knowers.insert(node);
        knowers
    }

    /// The items delivered from a sender, in order, if it is a node.
    pub fn delivered(&self, sender: NodeId) -> Option<&[Item]>
        ensures { option_map (λ items. items.now) result ≡ slice_get self.now.delivered sender }
    {
        Some(self.delivered.get(usize::from(sender.0))?.as_slice())
    }

    /// The value decided in an instance, if there is one.
    pub fn decision(&self, instance: u64) -> Option<u64>
        ensures { result ≡ decision self.now.agree instance }
    {
        self.agree.decision(instance)
    }

    /// Notes that these nodes are known to hold a pair. If they are enough, delivers what then has its turn.
    pub fn tell(
        &mut self,
        config: &Config,
        sender: NodeId,
        number: u64,
        members: GroupSet,
    ) -> Result<Outcome, AllocError>
        requires sender { sender < length self.old.hold_back }
        requires number { number < 4096 }
        ensures outcome { IfOk result (λ outcome.
            outcome ≡ outcome_in config.now self.old sender number members) }
        ensures ok { OnOk result (self.new ≡ told_in config.now self.old sender number members) }
        ensures err { OnErr result (self.new ≡ self.old) }
    {
        let had_turn = self.hold_back.had_turn(sender, number);
        let place = usize::from(sender.0);
        let row = &mut self.knowers[place];
        make_place(row, number)?;
        if !had_turn && is_enough(config, &members) {
            let items = &mut self.delivered[place];
            let outcome = deliver(
                &mut self.hold_back,
                items,
                &mut self.agree,
                sender,
                number,
                None,
            )?;
            note(row, number, members);
            return Ok(outcome);
        }
        note(row, number, members);
        Ok(no_news(self.alloc))
    }

    /// The same as `tell`, if it delivers nothing. Returns whether it did so. It may always return `false`: then
    /// nothing changed.
    #[inline(always)]
    pub fn tell_silently(
        &mut self,
        config: &Config,
        sender: NodeId,
        number: u64,
        members: &GroupSet,
    ) -> bool
        requires sender { sender < length self.old.hold_back }
        requires number { number < 4096 }
        ensures nothing { IsTrue result →
            outcome_in config.now self.old sender number members.now ≡ nothing }
        ensures told { IsTrue result →
            self.new ≡ told_in config.now self.old sender number members.now }
        ensures not { IsFalse result → self.new ≡ self.old }
    {
        let had_turn = self.hold_back.had_turn(sender, number);
        if !had_turn && is_enough(config, members) {
            return false;
        }
        let row = &mut self.knowers[usize::from(sender.0)];
        if make_place(row, number).is_err() {
            return false;
        }
        note(row, number, members.copy());
        true
    }

    /// Whether a pair had its turn, and there is a place for the nodes known to hold it. Then nothing is delivered because
    /// one more node is known to hold it. The sender is a node. It allocates nothing.
    #[inline(always)]
    pub fn is_quiet(&self, sender: NodeId, number: u64) -> bool
        requires { sender < length self.now.hold_back }
        ensures { IsTrue result → IsQuiet self.now sender number }
    {
        self.hold_back.had_turn(sender, number)
            && number < self.knowers[usize::from(sender.0)].len() as u64
    }

    /// Notes that one more node is known to hold a pair that had its turn. It allocates nothing.
    #[inline(always)]
    pub fn add_knower(&mut self, sender: NodeId, number: u64, node: NodeId)
        requires sender { sender < length self.old.hold_back }
        requires quiet { IsQuiet self.old sender number }
        requires node { node < 64 }
        ensures { self.new ≡ noted self.old sender number
            (set.insert (knowers_in self.old.knowers sender number) node) }
    {
        let row = &mut self.knowers[usize::from(sender.0)];
        note_one(row, number, node);
    }

    /// Holds a message back, and notes that these nodes are known to hold it. Delivers it at once if it is its turn.
    pub fn take_up(
        &mut self,
        config: &Config,
        message: Message,
        members: GroupSet,
    ) -> Result<Outcome, AllocError>
        requires sender { message.sender < length self.old.hold_back }
        requires number { message.number < 4096 }
        ensures outcome { IfOk result (λ outcome. outcome ≡ outcome_in config.now
            (waiting_in self.old message) message.sender message.number members) }
        ensures ok { OnOk result (self.new ≡ told_in config.now
            (waiting_in self.old message) message.sender message.number members) }
        ensures err { OnErr result (self.new ≡ self.old) }
    {
        let sender = message.sender;
        let number = message.number;
        let place = usize::from(sender.0);
        let row = &mut self.knowers[place];
        make_place(row, number)?;
        let enough = is_enough(config, &members);
        if !enough || number != self.hold_back.next(sender) {
            keep(&mut self.hold_back, message, enough)?;
            note(row, number, members);
            return Ok(no_news(self.alloc));
        }
        let items = &mut self.delivered[place];
        let outcome = deliver(
            &mut self.hold_back,
            items,
            &mut self.agree,
            sender,
            number,
            Some(message.item),
        )?;
        note(row, number, members);
        Ok(outcome)
    }
}

// Whether a message may be delivered that these nodes hold.
fn is_enough(config: &Config, members: &GroupSet) -> bool
    ensures { result ≡ is_enough config.now members.now }
{
    match config.mode() {
        Mode::Basic => true,
        Mode::Uniform => members.len() > config.faults(),
    }
}

/// Nothing is delivered or decided.
pub fn no_news(alloc: Global) -> Outcome
    ensures { result ≡ nothing }
{
    Outcome {
        deliveries: List::new(alloc),
        decisions: List::new(alloc),
    }
}

// Makes room for the place of a number.
#[inline(always)]
fn make_place(row: &mut Vec<GroupSet>, number: u64) -> Result<(), AllocError>
    requires { number < 4096 }
    ensures same { row.new.items ≡ row.old.items }
    ensures ok { OnOk result
        (vec_len row.new + (suc number - vec_len row.new) ≤ vec_capacity row.new) }
{
    row.reserve((number as usize + 1).saturating_sub(row.len()))
}

// Notes that these nodes are known to hold the pair with this number. There is room for its place.
fn note(row: &mut Vec<GroupSet>, number: u64, members: GroupSet)
    requires number { number < 4096 }
    requires room { vec_len row.old + (suc number - vec_len row.old) ≤ vec_capacity row.old }
    ensures { row.new.items ≡ known_row row.old.items number members }
{
    let place = number as usize;
    for _empty in row.len()..place + 1 {
        row.push_reserved(GroupSet::new());
    }
    row[place] = members;
}

// Notes that one more node is known to hold the pair with this number, which has a place.
#[inline(always)]
fn note_one(row: &mut Vec<GroupSet>, number: u64, node: NodeId)
    requires place { number < length row.old.items }
    requires node { node < 64 }
    ensures { row.new.items ≡ known_row row.old.items number
        (set.insert (slice_index_or row.old.items number set.empty) node) }
{
    row[number as usize].insert(node);
}

// Holds a message back, and marks it if enough nodes are known to hold it. That gives nothing its turn.
fn keep(hold_back: &mut HoldBack, message: Message, is_known: bool) -> Result<(), AllocError>
    requires sender { message.sender < length hold_back.old }
    requires number { message.number < 4096 }
    requires turn { is_known ≡ true →
        message.number ≢ (held_of hold_back.old message.sender).next }
    ensures ok { OnOk result (hold_back.new ≡ held_after hold_back.old (waits_by is_known message)) }
    ensures nothing { OnOk result (is_known ≡ true → answer hold_back.old (Offer message) ≡ []) }
    ensures err { OnErr result (hold_back.new ≡ hold_back.old) }
{
    if is_known {
        hold_back.offer(message)?;
    } else {
        hold_back.hold(message)?;
    }
    Ok(())
}

// Delivers and counts what has its turn if the pair is marked, or if an item is offered for it, the next.
fn deliver(
    hold_back: &mut HoldBack,
    items: &mut Vec<Item>,
    agree: &mut Agree,
    sender: NodeId,
    number: u64,
    offered: Option<Item>,
) -> Result<Outcome, AllocError>
    requires sender { sender < length hold_back.old }
    requires number { number < 4096 }
    requires offered { IsSome offered → number ≡ (held_of hold_back.old sender).next }
    ensures hold_back { OnOk result (hold_back.new ≡ heard_by hold_back.old sender number offered) }
    ensures items { OnOk result (items.new.items
        ≡ items.old.items ++ heard_items (held_of hold_back.old sender) number offered) }
    ensures agree { OnOk result (agree.new
        ≡ counted_all agree.old (heard_news hold_back.old sender number offered)) }
    ensures outcome { IfOk result (λ outcome. outcome
        ≡ news_outcome agree.old (heard_news hold_back.old sender number offered)) }
    ensures err { OnErr result ((hold_back.new ≡ hold_back.old)
        × (items.new.items ≡ items.old.items) × (agree.new ≡ agree.old)) }
{
    let messages = hold_back.ready(sender, number, offered.as_ref())?;
    items.reserve(messages.len())?;
    let decisions = agree.count_all(messages.as_slice())?;
    hold_back.release(sender, number, offered, items);
    Ok(Outcome {
        deliveries: List::from_vec(messages),
        decisions: List::from_vec(decisions),
    })
}
