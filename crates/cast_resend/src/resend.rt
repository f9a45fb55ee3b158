//! The slots that are due, and to which peers. The crate's head says which are.
ghost use Rattle.std.specs.Prelude.{◌≡◌, ◌≢◌, ◌<◌, ℕ, true, Some, None, IfOk, IfSome, IfNone, slice_get, slice_set};
ghost use Rattle.std.specs.FinSet as set;
ghost use Rattle.cast_node.specs.Kept.{Kept, link_to};
ghost use Rattle.cast_resend.specs.Hopes.{AsksAll, NothingDue, IsDueTo, KeepsPeers, IsNoneDueTo};
ghost use Rattle.cast_resend.specs.Keeps.{Keeps, KeepsSent, HasPlace, IsRecalled, MakesDue, LooksAt, GivesPast, ForgetsNothing};

use crate::due::{Due, is_owed};
use crate::peers::PeerSet;
use cast_carrier::Board;
use cast_message::{Config, NodeId};
use cast_node::Node;
use std::alloc::{AllocError, Global};

/// A slot is sent again after this many turns.
pub const TURNS_UNTIL_AGAIN: usize = 256;

// The most places of an inbox that the window uses.
const MOST_UNDER_WAY: u64 = TURNS_UNTIL_AGAIN as u64 / 4;

/// A slot that was sent to a peer.
#[derive(Clone, Copy)]
pub struct Sent {
    pub to: NodeId,
    pub slot: u64,
}

/// What was sent in the last turns, and what is due again.
#[derive(Drop)]
pub struct Resend {
    /// What was sent in each of the last turns.
    pub sent: Vec<Option<Sent>>,
    /// The place of this turn.
    pub turn: usize,
    /// By peer.
    pub due: Vec<Due>,
    /// The peer that was looked at last.
    pub peer: NodeId,
    /// The most slots under way to a peer.
    pub window: u64,
    /// The nodes not known to have ended. This node is one of them, but no slot is given to it.
    pub peers: PeerSet,
    /// The peers that may have a slot due.
    pub hopeful: PeerSet,
}

/// A law: if nothing is due, each slot that is owed to a peer not known to have ended was sent in one of the last
/// turns, or was never sent and has no room in the window.
pub fn forgets_nothing()
    ensures { ForgetsNothing }
{}

impl Resend {
    /// Nothing was sent yet. All memory that it needs is allocated here.
    pub fn new(alloc: Global, config: &Config) -> Result<Resend, AllocError>
        ensures keeps { IfOk result (λ r. (kept : Kept) → Keeps kept r) }
        ensures asks { IfOk result (AsksAll config.now.nodes) }
    {
        let sent = vec![in alloc; None; TURNS_UNTIL_AGAIN]?;
        let mut due = Vec::new(alloc);
        for _node in 0..config.nodes() {
            let again = Vec::with_capacity(alloc, TURNS_UNTIL_AGAIN)?;
            due.push(Due {
                first: 0,
                heard: 0,
                again,
            })?;
        }
        let peers = PeerSet::all(config.nodes());
        let hopeful = peers.copy();
        Ok(Resend {
            sent,
            turn: 0,
            due,
            peer: NodeId(0),
            window: window_of(config),
            peers,
            hopeful,
        })
    }

    /// Begins a turn. What was sent 256 turns ago and is still owed is due again.
    pub fn next_turn(&mut self, node: &Node)
        requires { Keeps node.now self.old }
        ensures keeps { Keeps node.now self.new }
        ensures place { HasPlace self.new }
    {
        let next = self.turn.saturating_add(1);
        self.turn = if next < self.sent.len() { next } else { 0 };
        self.recall(node);
        self.put(None);
    }

    /// The least slot due to the next peer, in cyclic order, that has one and has not ended. `None` only if nothing is
    /// due to any peer not known to have ended.
    pub fn next_due(&mut self, node: &Node, board: &Board) -> Option<(NodeId, u64)>
        requires { Keeps node.now self.old }
        ensures keeps { Keeps node.now self.new }
        ensures sent { KeepsSent self.old self.new }
        ensures some { IfSome result (λ due. IsDueTo node.now self.new due.0 due.1) }
        ensures none { IfNone result (NothingDue node.now self.new) }
    {
        while let Some(to) = self.hopeful.next_after(self.peer) {
            self.peer = to;
            if let Some(slot) = self.ask(node, board, to) {
                return Some((to, slot));
            }
        }
        None
    }

    // What was sent at the place of this turn is due again, if it is still owed.
    fn recall(&mut self, node: &Node)
        requires { Keeps node.now self.old }
        ensures keeps { Keeps node.now self.new }
        ensures recalled { IsRecalled node.now self.new }
    {
        let Some(sent) = self.sent_now() else {
            return;
        };
        if is_owed(node, sent.to, sent.slot) {
            self.make_due(sent.to, sent.slot);
        }
    }

    // What was sent at the place of this turn.
    fn sent_now(&self) -> Option<Sent>
        ensures some { IfSome result (λ one. slice_get self.now.sent.items self.now.turn ≡ Some (Some one)) }
        ensures none { IfNone result ((one : Sent) → slice_get self.now.sent.items self.now.turn ≢ Some (Some one)) }
    {
        match self.sent.get(self.turn) {
            Some(place) => *place,
            None => None,
        }
    }

    // Notes what is sent in this turn.
    fn put(&mut self, place: Option<Sent>)
        ensures same { self.new ≡ record self.old { sent = self.new.sent } }
        ensures sent { self.new.sent.items ≡ slice_set self.old.sent.items self.old.turn place }
    {
        if self.turn < self.sent.len() {
            self.sent[self.turn] = place;
        }
    }

    // The slot, which was sent, is due again.
    fn make_due(&mut self, to: NodeId, slot: u64)
        ensures { MakesDue to slot self.old self.new }
    {
        self.look_at(to);
        let at = usize::from(to.0);
        if at < self.due.len() {
            self.due[at].add(slot);
        }
    }

    // A slot may be due to the peer, if it has not ended.
    fn look_at(&mut self, peer: NodeId)
        ensures same { self.new ≡ record self.old { hopeful = self.new.hopeful } }
        ensures looks { LooksAt peer self.old self.new }
    {
        if self.peers.contains(peer) {
            self.hopeful.insert(peer);
        }
    }

    /// Notes that any peer may have been given slots.
    pub fn given(&mut self)
        ensures { (before after : Kept) → Keeps before self.old → GivesPast before after
            → Keeps after self.new }
    {
        self.hopeful = self.peers.copy();
    }

    /// Notes that the peer acknowledged the slot: it and the slots before it are no longer under way.
    pub fn hear(&mut self, from: NodeId, slot: u64)
        ensures { (kept : Kept) → Keeps kept self.old → Keeps kept self.new }
    {
        self.look_at(from);
        let at = usize::from(from.0);
        if at < self.due.len() {
            let due = &mut self.due[at];
            due.heard = due.heard.max(slot.saturating_add(1));
        }
    }

    /// Notes that the slot, which was due, is sent in this turn, and none was before. Returns whether this slot was sent
    /// in an earlier turn.
    pub fn note(&mut self, to: NodeId, slot: u64) -> bool
        ensures { (kept : Kept) → Keeps kept self.old → IsDueTo kept self.old to slot
            → slot < (link_to kept to).given → HasPlace self.old → Keeps kept self.new }
    {
        self.put(Some(Sent { to, slot }));
        let at = usize::from(to.0);
        if at < self.due.len() {
            self.due[at].take(slot)
        } else {
            false
        }
    }

    // The least slot due to the peer, if it has not ended. If there is none, the peer is not asked again for now.
    fn ask(&mut self, node: &Node, board: &Board, to: NodeId) -> Option<u64>
        requires within { to < 64 }
        requires keeps { Keeps node.now self.old }
        ensures keeps { Keeps node.now self.new }
        ensures sent { KeepsSent self.old self.new }
        ensures some { IfSome result (IsDueTo node.now self.new to) }
        ensures none { IfNone result (self.new.hopeful ≡ set.remove self.old.hopeful to) }
    {
        let Some(slot) = self.least_due(node, to) else {
            self.pass_over(to);
            return None;
        };
        if board.has_ended(usize::from(to.0)) {
            self.give_up(to);
            return None;
        }
        Some(slot)
    }

    // The peer is not asked again for now.
    fn pass_over(&mut self, to: NodeId)
        requires { to < 64 }
        ensures { self.new ≡ record self.old { hopeful = set.remove self.old.hopeful to } }
    {
        self.hopeful.remove(to);
    }

    // The peer has ended.
    fn give_up(&mut self, to: NodeId)
        requires { to < 64 }
        ensures { self.new ≡ record self.old {
          peers = set.remove self.old.peers to;
          hopeful = set.remove self.old.hopeful to;
        } }
    {
        self.peers.remove(to);
        self.hopeful.remove(to);
    }

    // The least slot due to the peer. The node owes itself none.
    fn least_due(&mut self, node: &Node, to: NodeId) -> Option<u64>
        requires keeps { Keeps node.now self.old }
        ensures keeps { Keeps node.now self.new }
        ensures sets { KeepsPeers self.old self.new }
        ensures sent { KeepsSent self.old self.new }
        ensures some { IfSome result (IsDueTo node.now self.new to) }
        ensures none { IfNone result (IsNoneDueTo node.now self.new to) }
    {
        let at = usize::from(to.0);
        if at >= self.due.len() {
            return None;
        }
        self.due[at].next(node, to, self.window)
    }
}

// The most slots under way to a peer.
fn window_of(config: &Config) -> u64 {
    let others = config.nodes().saturating_sub(1).max(1);
    let places = config.box_size().min(MOST_UNDER_WAY);
    (places / 2 / others).max(1)
}
