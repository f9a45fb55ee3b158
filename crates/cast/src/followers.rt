//! The followers of a group before its run.
ghost use Rattle.std.specs.Prelude.{◌≡◌, ◌++◌, ◌∷◌, [], OnOk, OnErr};
ghost use Rattle.cast_run.specs.Jobs.{told_job};
ghost use Rattle.cast.specs.Followers.{IsNewFollower, AreNewFollowers};

use crate::follower::Follower;
use crate::machine::Machine;
use cast_message::NodeId;
use std::alloc::{AllocError, Global};
use std::marker::Model;

/// Followers at their nodes before they run: each machine matches no messages. Contracts see them as a list.
#[derive(Drop)]
pub struct Followers<M: Machine> {
    list: Vec<(NodeId, Follower<M>)>,
}

impl<M: Machine> Model for Followers<M> {
    ghost use Rattle.std.specs.Prelude.{ℕ, List};
    ghost use Rattle.cast.specs.declared.follower.Follower.{Follower};
    ghost use Rattle.cast.specs.Followers.{AreNewFollowers};

    ghost Value = { List (ℕ × Follower M) };

    ghost view = { λ f. f.list.items };

    ghost invariant = { λ f. AreNewFollowers M.stands f.list.items };
}

impl<M: Machine + Drop> Followers<M> {
    /// No followers. It allocates nothing.
    pub fn new(alloc: Global) -> Followers<M>
        ensures { result ≡ [] }
    {
        Followers {
            list: Vec::new(alloc),
        }
    }

    /// Adds a follower at this node. A node has up to 4.
    pub fn add(&mut self, node: NodeId, follower: Follower<M>) -> Result<(), AllocError>
        requires { IsNewFollower M.stands follower }
        ensures ok { OnOk result (self.new ≡ self.old ++ told_job node follower ∷ []) }
        ensures err { OnErr result (self.new ≡ self.old) }
    {
        self.list.push((node, follower))?;
        Ok(())
    }

    /// The followers as jobs, in the order they were added.
    pub fn into_jobs(self) -> Vec<(NodeId, Follower<M>)>
        ensures jobs { result.items ≡ self }
        ensures new { AreNewFollowers M.stands result.items }
    {
        self.list
    }
}
