//! The lists that the end of a run fills. They get their room before the threads start, so that the end allocates
//! nothing.
ghost use Rattle.std.specs.Prelude.{IfOk, length};
ghost use Rattle.cast_run.specs.Reports.{AreNewRows};
ghost use Rattle.cast_run.specs.Rooms.{HasEndRoom, HasRoom};

use crate::reports::{ClientReport, Draft, LeftCounts, Row, make_rows};
use cast_box::Taker;
use cast_desk::Desk;
use cast_journal::Parcel;
use cast_node::NodeReport;
use std::alloc::{AllocError, Global};

/// Empty lists, with room for what is gathered.
#[derive(Drop)]
pub struct Room<J> {
    pub ends: EndRoom,
    pub jobs: Vec<J>,
    pub drafts: Vec<Draft>,
    pub left: Vec<LeftCounts>,
    pub clients: Vec<ClientReport>,
    /// By node.
    pub rows: Vec<Row>,
}

/// Lists with room for what engines leave, and for each node whether all its clients' jobs are done.
#[derive(Drop)]
pub struct EndRoom {
    pub takers: Vec<Taker<Parcel>>,
    pub reports: Vec<NodeReport>,
    pub desks: Vec<Option<Desk>>,
    pub dones: Vec<bool>,
}

impl EndRoom {
    /// Room for the reports of this many nodes.
    fn new(alloc: Global, nodes: usize) -> Result<EndRoom, AllocError>
        ensures { IfOk result (HasEndRoom nodes) }
    {
        let mut dones = Vec::new(alloc);
        for _node in 0..nodes {
            dones.push(true)?;
        }
        Ok(EndRoom {
            takers: Vec::with_capacity(alloc, nodes)?,
            reports: Vec::with_capacity(alloc, nodes)?,
            desks: Vec::with_capacity(alloc, nodes)?,
            dones,
        })
    }
}

impl<J: Drop> Room<J> {
    /// Room for the reports of nodes with these numbers of clients, and of this many clients in all.
    pub fn new(alloc: Global, counts: &[u64], clients: usize) -> Result<Room<J>, AllocError>
        ensures room { IfOk result (HasRoom (length counts.now) clients) }
        ensures rows { IfOk result (λ room. AreNewRows counts.now room.rows.items) }
    {
        let nodes = counts.len();
        Ok(Room {
            ends: EndRoom::new(alloc, nodes)?,
            jobs: Vec::with_capacity(alloc, clients)?,
            drafts: Vec::with_capacity(alloc, clients)?,
            left: Vec::with_capacity(alloc, nodes)?,
            clients: Vec::with_capacity(alloc, clients)?,
            rows: make_rows(alloc, counts)?,
        })
    }
}
