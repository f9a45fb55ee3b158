//! Set agreement (after Chaudhuri 1993). Of n senders, f may be faulty. The first n - f distinct senders whose
//! proposals are delivered decide an instance, by the least of their values. At most f + 1 values are decided, since at
//! most f values are below any decided one.
#![tactic(auto)]

ghost use Rattle.std.specs.Prelude.{◌≡◌, ◌+◌, ◌-◌, ◌<◌, ◌≤◌, ◌++◌, length, option_map, unwrap_or, vec_len, vec_capacity, IfOk, OnOk, OnErr};
ghost use Rattle.std.specs.Option.{option_to_list};
ghost use Rattle.std.specs.FinMap as map;
ghost use Rattle.std.specs.HashMap.{spare};
ghost use Rattle.cast_agree.specs.Tallies.{no_tally};
ghost use Rattle.cast_agree.specs.Counted.{tallies_of, seen, counted_after, decision_by, decision};
ghost use Rattle.cast_agree.specs.Journal.{counted_all, decisions_all};
ghost use Rattle.cast_agree.specs.Proposals.{DecidesLeast};

mod tally;

use cast_message::{Decision, Item, Message, NodeId};
use std::alloc::{AllocError, Global};
use std::collections::HashMap;
use std::marker::Model;
use tally::Tally;

/// The proposals counted, by instance.
#[derive(Drop)]
pub struct Agree {
    alloc: Global,
    // How many distinct senders decide.
    quorum: u64,
    // By instance. The map can make its room before anything is counted.
    tallies: HashMap<u64, Tally>,
}

impl Model for Agree {
    ghost use Rattle.cast_agree.specs.Counted.{Counted, counted_code, seen};

    ghost Value = { Counted };

    ghost coded = { counted_code };

    ghost view = { λ a. seen a.quorum a.tallies.entries };
}

impl Agree {
    /// An agreement in which nothing is counted. The proposals of all nodes but `faults` decide; `faults` is below
    /// `nodes`. It allocates nothing.
    pub fn new(alloc: Global, nodes: u64, faults: u64) -> Agree
        requires { faults < nodes }
        ensures { result ≡ record { quorum = nodes - faults; tallies = map.empty } }
    {
        Agree {
            alloc,
            quorum: nodes - faults,
            tallies: HashMap::new(alloc),
        }
    }

    /// Counts an item that was delivered from a sender. If it is the proposal of the (n - f)-th distinct sender in its
    /// instance, returns the decision. A sender's second proposal in an instance is not counted.
    pub fn delivered(&mut self, sender: NodeId, item: &Item) -> Result<Option<Decision>, AllocError>
        ensures decision { IfOk result
            (λ decision. decision ≡ decision_by self.old sender item.now) }
        ensures ok { OnOk result (self.new ≡ counted_after self.old sender item.now) }
        ensures err { OnErr result (self.new ≡ self.old) }
    {
        self.tallies.reserve(1)?;
        Ok(count(self.quorum, &mut self.tallies, sender, item))
    }

    /// Counts the items of messages as `delivered` does, in order, and returns the decisions that they complete. If it
    /// is out of memory, it counts none.
    pub fn count_all(&mut self, messages: &[Message]) -> Result<Vec<Decision>, AllocError>
        ensures decisions { IfOk result
            (λ decisions. decisions.items ≡ decisions_all self.old messages.now) }
        ensures ok { OnOk result (self.new ≡ counted_all self.old messages.now) }
        ensures err { OnErr result (self.new ≡ self.old) }
    {
        let mut decisions = Vec::with_capacity(self.alloc, messages.len())?;
        self.tallies.reserve(messages.len())?;
        count_each(self.quorum, &mut self.tallies, messages, &mut decisions);
        Ok(decisions)
    }

    /// The value decided in an instance, if there is one. It allocates nothing.
    pub fn decision(&self, instance: u64) -> Option<u64>
        ensures { result ≡ decision self.now instance }
    {
        tally_of(&self.tallies, instance).decided(self.quorum)
    }
}

// Counts the items of messages. The tallies have room for one more per message.
fn count_each(
    quorum: u64,
    tallies: &mut HashMap<u64, Tally>,
    messages: &[Message],
    decisions: &mut Vec<Decision>,
)
    requires room { length messages.now ≤ spare tallies.old }
    requires space { vec_len decisions.old + length messages.now ≤ vec_capacity decisions.old }
    ensures counted { seen quorum tallies.new.entries
        ≡ counted_all (seen quorum tallies.old.entries) messages.now }
    ensures decided { decisions.new.items ≡ decisions.old.items
        ++ decisions_all (seen quorum tallies.old.entries) messages.now }
{
    for message in messages {
        let decision = count(quorum, tallies, message.sender, &message.item);
        put(decisions, decision);
    }
}

// Counts an item of a sender, and returns the decision that it completes. The tallies have room for one more.
fn count(
    quorum: u64,
    tallies: &mut HashMap<u64, Tally>,
    sender: NodeId,
    item: &Item,
) -> Option<Decision>
    requires { 0 < spare tallies.old }
    ensures decision { result ≡ decision_by (seen quorum tallies.old.entries) sender item.now }
    ensures after { seen quorum tallies.new.entries
        ≡ counted_after (seen quorum tallies.old.entries) sender item.now }
    ensures room { spare tallies.old ≤ spare tallies.new + 1 }
{
    let Item::Propose { instance, value } = item else {
        return None;
    };
    let mut tally = tally_of(tallies, *instance);
    let decided = tally.count(quorum, sender, *value);
    store(tallies, *instance, tally);
    decision_of(*instance, decided)
}

// What is counted of an instance.
fn tally_of(tallies: &HashMap<u64, Tally>, instance: u64) -> Tally
    ensures { result ≡ unwrap_or (map.get (tallies_of tallies.now.entries) instance) no_tally }
{
    match tallies.get(&instance) {
        Some(tally) => tally.copy(),
        None => Tally::new(),
    }
}

// Keeps the tally of an instance. There is room for it.
fn store(tallies: &mut HashMap<u64, Tally>, instance: u64, tally: Tally)
    requires { 0 < spare tallies.old }
    ensures tallies { tallies_of tallies.new.entries
        ≡ map.insert (tallies_of tallies.old.entries) instance tally }
    ensures room { spare tallies.old ≤ spare tallies.new + 1 }
{
    match tallies.insert(instance, tally) {
        Ok(_before) => {}
        Err(_) => unreachable!(),
    }
}

fn decision_of(instance: u64, decided: Option<u64>) -> Option<Decision>
    ensures { result ≡ option_map (λ value. record { instance = instance; value = value }) decided }
{
    Some(Decision {
        instance,
        value: decided?,
    })
}

// Appends a decision, if there is one. There is room for it.
fn put(decisions: &mut Vec<Decision>, decision: Option<Decision>)
    requires { vec_len decisions.old < vec_capacity decisions.old }
    ensures items { decisions.new.items ≡ decisions.old.items ++ option_to_list decision }
    ensures len { vec_len decisions.new ≤ vec_len decisions.old + 1 }
    ensures room { vec_capacity decisions.new ≡ vec_capacity decisions.old }
{
    if let Some(decision) = decision {
        decisions.push_reserved(decision);
    }
}

/// A law of every list of deliveries. An instance is decided from the (n - f)-th distinct proposer on, by the least
/// value of the first n - f. A delivery completes a decision if and only if it is the proposal of the (n - f)-th.
pub fn decides_least()
    ensures { DecidesLeast }
{}
