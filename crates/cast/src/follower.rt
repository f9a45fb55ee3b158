//! The job that submits a list of items, while a state machine follows what its node delivers.
ghost use Rattle.std.specs.Prelude.{◌≡◌, ◌↔◌, ◌<◌, ◌≤◌, ◌+◌, ◌-◌, ◌^◌, ◌++◌, ◌∷◌, [], List, length, drop, IsTrue, IsFalse};
ghost use Rattle.cast_message.specs.declared.message.Message.{Message};
ghost use Rattle.cast_desk.specs.Desk.{IsSameClient};
ghost use Rattle.cast_desk.specs.declared.notice.Notice.{Notice as Told};
ghost use Rattle.cast_run.specs.Jobs.{HoldsOf, KeepsFact, Listens, got};
ghost use Rattle.cast_run.specs.Submissions.{SubmitsNext};
ghost use Rattle.cast_merge.specs.Told.{told};
ghost use Rattle.cast.specs.Followers.{GoesOn, HearsMore};

use crate::machine::Machine;
use cast_desk::{Client, Notice};
use cast_message::{Item, List};
use cast_run::{ClientJob, Submissions};
use std::sync::Wait;

/// Submits its items, one a turn if the desk has room. It takes one notice a turn, and passes each delivered message to
/// its machine, in order. It is done after it has submitted all items and its machine has taken as many messages as it
/// awaits, 0 by default. It allocates nothing itself.
#[derive(Drop)]
pub struct Follower<M> {
    left: Submissions,
    machine: M,
    // How many messages it awaits, and how many its machine has taken, as far as a `u64` counts.
    awaited: u64,
    taken: u64,
    // The number of its notices.
    heard: u64,
}

impl<M: Machine> ClientJob for Follower<M> {
    ghost use Rattle.cast.specs.Followers.{FollowerFact};

    ghost fact = { FollowerFact M.stands };

    // Besides what every job's turn does: the next item is submitted, unless the desk refuses it. A notice is taken,
    // unless the tray is empty or the follower can't count another. And it says when the follower is done.
    fn turn<R: Wait>(&mut self, rt: &R, client: &mut Client) -> bool
        requires { HoldsOf (FollowerFact M.stands) self.old client.old }
        ensures same { IsSameClient client.old client.new }
        ensures fact { KeepsFact (FollowerFact M.stands) self.old client.old
            self.new client.new result }
        ensures next { SubmitsNext self.old.left self.new.left client.old client.new }
        ensures listens { self.old.heard + 1 < 2 ^ 64 → Listens client.old client.new }
        ensures ends { IsFalse result ↔ (self.new.left ≡ []) × (self.new.awaited ≤ self.new.taken) }
    {
        let _ticket = self.left.submit_next(rt, client);
        self.hear_next(rt, client);
        !self.is_done()
    }
}

impl<M> Follower<M> {
    /// A follower that submits these items, and passes deliveries to this machine.
    pub fn new(items: List<Item>, machine: M) -> Follower<M>
        ensures given { (result.left ≡ items) × (result.machine ≡ machine) }
        ensures new { (result.awaited ≡ 0) × (result.taken ≡ 0) × (result.heard ≡ 0) }
    {
        Follower {
            left: Submissions::new(items),
            machine,
            awaited: 0,
            taken: 0,
            heard: 0,
        }
    }

    /// The same follower, but not done before its machine has taken `messages` messages. If the group never delivers
    /// that many, its node stays awake until its turns are used up.
    pub fn awaiting(self, messages: u64) -> Follower<M>
        ensures { result ≡ record self { awaited = messages } }
    {
        Follower {
            awaited: messages,
            ..self
        }
    }

    pub fn machine(&self) -> &M
        ensures { result.now ≡ self.now.machine }
    {
        &self.machine
    }

    fn is_done(&self) -> bool
        ensures { IsTrue result ↔ (self.now.left ≡ []) × (self.now.awaited ≤ self.now.taken) }
    {
        self.left.is_empty() && self.taken >= self.awaited
    }
}

impl<M: Machine> Follower<M> {
    // Takes the next notice, if there is one and it can be counted.
    fn hear_next<R: Wait>(&mut self, rt: &R, client: &mut Client)
        ensures given { GoesOn self.old self.new }
        ensures same { IsSameClient client.old client.new }
        ensures orders { client.new.orders ≡ client.old.orders }
        ensures listens { self.old.heard + 1 < 2 ^ 64 → Listens client.old client.new }
        ensures hears { HearsMore M.stands self.old (got client.old) self.new (got client.new) }
    {
        if self.heard == u64::MAX {
            return;
        }
        if let Some(notice) = client.next(rt) {
            self.hear(&notice);
        }
    }

    // Counts the notice, and passes the message that it delivers to the machine.
    fn hear(&mut self, notice: &Notice)
        requires { self.old.heard + 1 < 2 ^ 64 }
        ensures given { GoesOn self.old self.new }
        ensures hears { (before : List Told) →
            HearsMore M.stands self.old before self.new (before ++ notice.now ∷ []) }
    {
        self.heard += 1;
        if hand_on(&mut self.machine, notice) {
            self.taken = self.taken.saturating_add(1);
        }
    }

    /// Its machine, after it has taken the messages among all of the client's notices; the follower has heard the first
    /// of these.
    pub(crate) fn caught_up(self, all: &[Notice]) -> M
        ensures { (taken : List Message) → M.stands self.machine taken
            → M.stands result (taken ++ told (drop self.heard all.now)) }
    {
        let heard = self.heard.min(all.len() as u64) as usize;
        let mut machine = self.machine;
        let rest = &all[heard..];
        for notice in rest {
            let _said = hand_on(&mut machine, notice);
        }
        machine
    }
}

// Passes the message that the notice delivers to the machine, if there is one, and returns whether there is.
fn hand_on<M: Machine>(machine: &mut M, notice: &Notice) -> bool
    ensures { (taken : List Message) → M.stands machine.old taken
        → M.stands machine.new (taken ++ told (notice.now ∷ [])) }
{
    match notice {
        Notice::Delivered(message) => {
            machine.apply(message);
            true
        }
        Notice::Reply { .. } | Notice::Decided(_) => false,
    }
}
