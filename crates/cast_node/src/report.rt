//! The report of a group, and of each of its nodes.
ghost use Rattle.std.specs.Prelude.{◌≡◌};
ghost use Rattle.cast_node.specs.Linked.{Linked};

use crate::node::Node;
use cast_log::Log;
use cast_message::Config;
use std::marker::Model;

#[derive(Clone, Copy, Debug, PartialEq, Eq)]
pub enum EngineEnd {
    /// All engines were quiet or had ended, and its clients were done. That does not show rest.
    Stopped,
    /// The plan crashed the node.
    Crashed,
    /// Its turns were used up, or it stopped while a client was not done.
    TurnLimit,
    /// The log was full.
    LogFull,
    /// There was no greater stamp: its clock had the last one, or a frame came with it.
    ClockFull,
}

#[derive(Drop)]
pub struct NodeReport {
    pub log: Log,
    pub ended: EngineEnd,
    pub node: Node,
}

/// A report of each node. Each log has the steps of its node, and each frame that arrived was made with a smaller stamp.
#[derive(Drop)]
pub struct GroupReport {
    config: Config,
    reports: Vec<NodeReport>,
}

impl Model for GroupReport {
    ghost use Rattle.cast_node.specs.Linked.{Linked};
    ghost use Rattle.cast_node.specs.Group.{Group, group_code};
    ghost use Rattle.cast_message.specs.contracts.config.Config as configs;
    ghost use Rattle.cast_node.specs.contracts.report.NodeReport as nodes;

    ghost Value = { Group };

    ghost coded = { group_code configs.the_row.coded nodes.the_row.coded };

    ghost view = { λ g. record { config = g.config; reports = g.reports.items } };

    ghost invariant = { λ g. Linked g.config g.reports.items };
}

impl GroupReport {
    /// The report of a group, by the reports of its nodes in order. It takes no memory.
    pub fn link(config: Config, reports: Vec<NodeReport>) -> GroupReport
        requires { Linked config reports.items }
        ensures { result ≡ record { config = config; reports = reports.items } }
    {
        GroupReport { config, reports }
    }

    /// The reports, by number of the node. It allocates nothing.
    pub fn reports(&self) -> &[NodeReport]
        ensures shown { result.now ≡ self.now.reports }
        ensures linked { Linked self.now.config self.now.reports }
    {
        self.reports.as_slice()
    }

    pub fn config(&self) -> &Config
        ensures { result.now ≡ self.now.config }
    {
        &self.config
    }
}
