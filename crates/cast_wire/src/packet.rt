//! What a datagram holds, and why one is refused.
use cast_message::Frame;
use std::alloc::AllocError;
use thiserror::Error;

/// The most bytes of a packet: 47, and up to 1,024 of data.
pub const MOST_BYTES: usize = 1_071;

/// A frame with its step's stamp and its group's number.
#[derive(Debug, Drop, PartialEq)]
pub struct Packet {
    pub group: u64,
    pub stamp: u64,
    pub frame: Frame,
}

/// Why bytes are not a packet: the first of these causes that holds, except that fewer than four bytes are always
/// `Short`; or out of memory.
#[derive(Clone, Copy, Debug, PartialEq, Eq, Error)]
pub enum WireFault {
    #[error("the bytes don't begin as a packet does")]
    Foreign,
    #[error("a packet of another version")]
    Version,
    #[error("a packet of no known kind")]
    Kind,
    #[error("the packet is too short")]
    Short,
    #[error("the packet is too long")]
    Long,
    #[error("out of memory")]
    Memory,
}

impl From<AllocError> for WireFault {
    ghost use Rattle.std.specs.Prelude.{◌≡◌};
    ghost use Rattle.cast_wire.specs.declared.packet.WireFault.TheVariants.{Memory};

    ghost from_gives = { λ _ fault. fault ≡ Memory };

    fn from(_refused: AllocError) -> WireFault {
        WireFault::Memory
    }
}
