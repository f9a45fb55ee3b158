//! The faults that a carrier acts on, by the target of their frames. So a frame takes a step only for each fault of its
//! own link, however many the plan has for others.
ghost use Rattle.std.specs.Prelude.{◌≡◌, IfOk};
ghost use Rattle.cast_carrier.specs.Fates.{AreByTarget, AreFatedAlike};

use crate::plan::{LinkEnd, faults_at};
use cast_message::{Fault, NodeId};
use std::alloc::{AllocError, Global};
use std::marker::Model;

/// The faults of a carrier. Contracts see them in their order.
#[derive(Drop)]
pub struct CarrierFaults {
    // In the plan's order, as contracts see them.
    all: Vec<Fault>,
    // The same, in a row for each target of the carrier.
    rows: Vec<Vec<Fault>>,
}

impl Model for CarrierFaults {
    ghost use Rattle.std.specs.Prelude.{List};
    ghost use Rattle.cast_carrier.specs.Fates.{AreByTarget};
    ghost use Rattle.cast_message.specs.declared.plan.Fault.{Fault as Planned};

    ghost Value = { List Planned };

    ghost view = { λ f. f.all.items };

    ghost invariant = { λ f. AreByTarget f.all.items f.rows.items };
}

impl CarrierFaults {
    /// These faults, for a carrier with this many targets. All memory is allocated here.
    pub fn new(
        alloc: Global,
        faults: Vec<Fault>,
        targets: usize,
    ) -> Result<CarrierFaults, AllocError>
        ensures { IfOk result (λ f. f ≡ faults.items) }
    {
        let mut rows = Vec::with_capacity(alloc, targets)?;
        for to in 0..targets {
            rows.push(faults_at(alloc, LinkEnd::Target, to, &faults)?)?;
        }
        Ok(CarrierFaults { all: faults, rows })
    }

    /// Faults that give any frame for this target the same fate as all faults do: those of the target's own frames, if
    /// the carrier has this target.
    pub fn for_target(&self, to: NodeId) -> &[Fault]
        ensures { AreFatedAlike to result.now self.now }
    {
        match self.rows.get(usize::from(to.0)) {
            Some(row) => row.as_slice(),
            None => self.all.as_slice(),
        }
    }
}
