//! What was proposed and decided in each instance.
ghost use Rattle.std.specs.Prelude.{◌≡◌, ◌≢◌, ℕ, nat_lt, OnOk, MatchOption};
ghost use Rattle.std.specs.List.{list_any};
ghost use Rattle.cast_judge.specs.Candidates.{is_for};
ghost use Rattle.cast_judge.specs.Kept.{changed, changed_at, with_proposal, instance_at, other_at, count_with, has_value, no_instance};

use crate::candidates::Candidates;
use cast_message::{List, NodeId};
use std::alloc::{AllocError, Global};
use std::collections::BTreeMap;

#[derive(Clone, Copy)]
pub struct Proposal {
    pub node: NodeId,
    pub value: u64,
}

/// What was proposed and decided in an instance.
#[derive(Drop)]
pub struct Instance {
    /// The nodes that proposed, each once.
    pub proposers: List<NodeId>,
    pub candidates: Candidates,
}

/// What a line adds to an instance.
#[derive(Clone, Copy)]
pub enum Addition {
    Proposed(Proposal),
    Decided(u64),
}

impl Instance {
    /// Creates an instance without proposals; allocates nothing.
    pub fn new(alloc: Global) -> Instance
        ensures { result ≡ no_instance }
    {
        Instance {
            proposers: List::new(alloc),
            candidates: Candidates::new(alloc),
        }
    }

    pub fn has_proposed(&self, node: NodeId) -> bool
        ensures { result ≡ has_value self.now.proposers node }
    {
        self.proposers
            .as_slice()
            .iter()
            .any(|proposer| *proposer == node)
    }

    pub fn is_proposed(&self, value: u64) -> bool
        ensures { result ≡ list_any (is_for value) self.now.candidates }
    {
        self.candidates.has(value)
    }

    /// Whether more than `choices` values are decided, with this one.
    #[tactic(auto, using(crate::proofs::CandidateLemmas::few_decided))]
    pub fn exceeds(&self, choices: u64, value: u64) -> bool
        ensures { result ≡ nat_lt choices (count_with self.now.candidates value) }
    {
        if choices > self.candidates.len() as u64 {
            return false;
        }
        let decided = self.candidates.count_decided() as u64;
        if self.candidates.is_decided(value) {
            choices < decided
        } else {
            choices <= decided
        }
    }

    pub fn add(&mut self, addition: Addition) -> Result<(), AllocError>
        ensures { OnOk result (self.new ≡ changed self.old addition) }
    {
        match addition {
            Addition::Proposed(proposal) => self.add_proposal(proposal),
            Addition::Decided(value) => {
                self.candidates.decide(value);
                Ok(())
            }
        }
    }

    fn add_proposal(&mut self, proposal: Proposal) -> Result<(), AllocError>
        ensures { OnOk result (self.new ≡ with_proposal self.old proposal) }
    {
        self.proposers.push(proposal.node)?;
        self.candidates.propose(proposal.value)
    }
}

/// What was proposed and decided, by instance number. Instances from 0 on, if they come in order, are kept in a row; a
/// look-up there takes the same time however many there are.
#[derive(Drop)]
pub struct Instances {
    /// The instances from 0 on.
    row: Vec<Instance>,
    /// The instances that are not in the row.
    others: BTreeMap<u64, Instance>,
}

impl Instances {
    /// Creates an empty collection without allocating.
    pub fn new(alloc: Global) -> Instances
        ensures { (q : ℕ) → instance_at result q ≡ no_instance }
    {
        Instances {
            row: Vec::new(alloc),
            others: BTreeMap::new(alloc),
        }
    }

    /// The instance with this number, if a line mentioned it.
    pub fn get(&self, number: u64) -> Option<&Instance>
        ensures { MatchOption result (instance_at self.now number ≡ no_instance)
            (λ found. found.now ≡ instance_at self.now number) }
    {
        match self.row.get(number as usize) {
            Some(instance) => Some(instance),
            None => self.others.get(&number),
        }
    }

    pub fn add(&mut self, alloc: Global, number: u64, addition: Addition) -> Result<(), AllocError>
        ensures { OnOk result ((q : ℕ) →
            instance_at self.new q ≡ changed_at number addition q (instance_at self.old q)) }
    {
        let place = number as usize;
        if place < self.row.len() {
            return self.row[place].add(addition);
        }
        if place > self.row.len() {
            return add_at(alloc, &mut self.others, number, addition);
        }
        let mut instance = take_at(alloc, &mut self.others, number);
        instance.add(addition)?;
        self.row.push(instance)?;
        Ok(())
    }
}

fn add_at(
    alloc: Global,
    instances: &mut BTreeMap<u64, Instance>,
    number: u64,
    addition: Addition,
) -> Result<(), AllocError>
    ensures { OnOk result ((q : ℕ) → other_at instances.new.entries q
        ≡ changed_at number addition q (other_at instances.old.entries q)) }
{
    match instances.get_mut(&number) {
        Some(instance) => instance.add(addition),
        None => {
            let mut instance = Instance::new(alloc);
            instance.add(addition)?;
            instances.insert(number, instance)?;
            Ok(())
        }
    }
}

// Takes out the instance with this number, or a new one if no line mentioned it.
fn take_at(alloc: Global, instances: &mut BTreeMap<u64, Instance>, number: u64) -> Instance
    ensures taken { result ≡ other_at instances.old.entries number }
    ensures others { (q : ℕ) → q ≢ number →
        other_at instances.new.entries q ≡ other_at instances.old.entries q }
{
    match instances.remove(&number) {
        Some(instance) => instance,
        None => Instance::new(alloc),
    }
}
