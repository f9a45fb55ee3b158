//! Rest: no live node owes a live node anything, so a round changes nothing.
ghost use Rattle.std.specs.Prelude.{◌≡◌, ◌<◌, ◌↔◌, IsTrue, length};
ghost use Rattle.cast_message.specs.declared.config.Mode.TheVariants.{Uniform};
ghost use Rattle.cast_model.specs.Rounds.{Rest, HaveFewCrashed, FewCrashedIn};
ghost use Rattle.cast_world.specs.Group.{StandingFor};
ghost use Rattle.cast_world.specs.Plans.{AreLive};
ghost use Rattle.cast_world.specs.Rounds.{IsSettledWithAll, IsFirstGiver, AgreesAtRest, HaveWhatAnyDelivered};

use crate::world::World;
use cast_message::{GroupSet, NodeId};

impl World {
    /// Whether no live node owes a live node a slot. It takes no memory, and looks at no link.
    ///
    /// At rest all live nodes have delivered the same from each sender, and the whole stream of a live one. An instance is decided by
    /// all of them if one of them decided it, or if they delivered the proposals of n - f senders. In uniform mode this needs that f
    /// is 0 or at most f nodes have crashed. If at most f have crashed there, each live node has delivered what any node delivered,
    /// even a crashed one.
    pub fn at_rest(&self) -> bool
        ensures rest { StandingFor self.now (λ config past. IsTrue result ↔ Rest config past) }
        ensures agrees { StandingFor self.now (λ config past.
            IsTrue result → FewCrashedIn config.mode config past → AgreesAtRest config past) }
        ensures uniform { StandingFor self.now (λ config past.
            IsTrue result → config.mode ≡ Uniform →
            HaveFewCrashed config past → HaveWhatAnyDelivered config past) }
    {
        self.first_giver().is_none()
    }

    /// The least live node that owes a live node a slot.
    pub(crate) fn first_giver(&self) -> Option<NodeId>
        ensures { StandingFor self.now (λ config past. IsFirstGiver config past result) }
    {
        let live = self.live_nodes();
        for giver in 0..self.node_count() {
            if !self.owes_nobody(NodeId(giver), &live) {
                return Some(NodeId(giver));
            }
        }
        None
    }

    /// The nodes that have not crashed.
    pub(crate) fn live_nodes(&self) -> GroupSet
        ensures { AreLive self.now result }
    {
        let mut live = GroupSet::new();
        for node in 0..self.node_count() {
            if self.is_live(NodeId(node)) {
                live.insert(NodeId(node));
            }
        }
        live
    }

    // Whether a node has crashed, or owes no live node a slot.
    fn owes_nobody(&self, giver: NodeId, live: &GroupSet) -> bool
        requires giver { giver < length self.now.nodes }
        requires live { AreLive self.now live.now }
        ensures { StandingFor self.now (λ config past.
            IsTrue result ↔ IsSettledWithAll config past giver) }
    {
        let node = self.node_of(giver);
        if !node.live() {
            return true;
        }
        let mut others = live.copy();
        others.remove(giver);
        !node.owes_one_of(&others)
    }
}
