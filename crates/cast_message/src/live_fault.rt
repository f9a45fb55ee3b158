//! Why the group of a script is not run.
ghost use Rattle.std.specs.Prelude.{◌≡◌};
ghost use Rattle.cast_message.specs.LiveFaults.{live_code};

use std::alloc::AllocError;
use thiserror::Error;

/// Why a group is not run. The first three causes are tried in this order before anything starts, and the first that
/// applies is reported. After them it is memory or a thread, whichever is refused first.
#[derive(Clone, Copy, Debug, PartialEq, Eq, Error)]
pub enum LiveFault {
    #[error("a job at no node, or more than 4 jobs at one")]
    Jobs,
    #[error("not as many gates as nodes")]
    Gates,
    #[error("a fault of the plan names no node, or a link from a node to itself")]
    Plan,
    #[error("out of memory")]
    Memory,
    #[error("a thread could not be started")]
    Threads,
}

impl LiveFault {
    /// The number of the refusal, 1 to 5. These numbers never change.
    pub fn code(self) -> u64
        ensures { result ≡ live_code self }
    {
        match self {
            LiveFault::Jobs => 1,
            LiveFault::Gates => 2,
            LiveFault::Plan => 3,
            LiveFault::Memory => 4,
            LiveFault::Threads => 5,
        }
    }
}

impl From<AllocError> for LiveFault {
    ghost use Rattle.std.specs.Prelude.{◌≡◌};
    ghost use Rattle.cast_message.specs.declared.live_fault.LiveFault.TheVariants.{Memory};

    ghost from_gives = { λ _ fault. fault ≡ Memory };

    fn from(_refused: AllocError) -> LiveFault {
        LiveFault::Memory
    }
}
