//! Why a text was not read or written.
use cast_record::WriteFault;
use cast_script::{LiveFault, ScriptFault};
use std::alloc::AllocError;
use thiserror::Error;

/// Why a text was not read or written.
#[derive(Clone, Copy, Debug, PartialEq, Eq, Error)]
pub enum TextFault {
    #[error("the input could not be read")]
    Read,
    /// The input has more than 67,108,864 bytes.
    #[error("the input is too long")]
    TooLong,
    /// The input is no script. Out of memory during the reading is `Memory`.
    #[error("the input is no script: {0}")]
    Script(ScriptFault),
    /// The group of the script does not run. Out of memory during the run is `Memory`.
    #[error("the group does not run: {0}")]
    Live(LiveFault),
    /// The writer failed, or took no byte.
    #[error("the output could not be written")]
    Write,
    /// Out of memory.
    #[error("out of memory")]
    Memory,
    /// The input does not begin with a `cast/1` head.
    #[error("the input is no record cast/1")]
    NotV1,
}

impl From<AllocError> for TextFault {
    ghost use Rattle.std.specs.Prelude.{◌≡◌};
    ghost use Rattle.cast_text.specs.declared.fault.TextFault.TheVariants.{Memory};

    ghost from_gives = { λ _ fault. fault ≡ Memory };

    fn from(_refused: AllocError) -> TextFault {
        TextFault::Memory
    }
}

impl From<LiveFault> for TextFault {
    ghost use Rattle.std.specs.Prelude.{◌≡◌};
    ghost use Rattle.cast_text.specs.Text.{fault_of_live};

    ghost from_gives = { λ why fault. fault ≡ fault_of_live why };

    fn from(why: LiveFault) -> TextFault {
        match why {
            LiveFault::Memory => TextFault::Memory,
            other => TextFault::Live(other),
        }
    }
}

impl From<WriteFault> for TextFault {
    ghost use Rattle.std.specs.Prelude.{◌≡◌};
    ghost use Rattle.cast_text.specs.declared.fault.TextFault.TheVariants.{Write};

    ghost from_gives = { λ _ fault. fault ≡ Write };

    fn from(_failed: WriteFault) -> TextFault {
        TextFault::Write
    }
}
