//! Items of bytes, and the plan without faults.
ghost use Rattle.std.specs.Prelude.{◌≡◌, [], IfOk};
ghost use Rattle.cast_message.specs.declared.message.Item.TheVariants.{Data};

use bytes::Bytes;
use cast_message::{Item, List, Payload};
use cast_script::FaultPlan;
use std::alloc::{AllocError, Global};

/// The item with these bytes. A node refuses one of more than 1,024 bytes.
pub fn data(alloc: Global, bytes: &[u8]) -> Result<Item, AllocError>
    ensures { IfOk result (λ item. item ≡ Data bytes.now) }
{
    Ok(Item::Data(Payload::new(Bytes::copy_from_slice(alloc, bytes)?)))
}

/// The plan in which no frame is lost, repeated or delayed, and no node crashes. It allocates nothing.
pub fn no_faults(alloc: Global) -> FaultPlan
    ensures { result.faults ≡ [] }
{
    FaultPlan {
        faults: List::new(alloc),
    }
}
