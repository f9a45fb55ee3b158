//! Why a peer does nothing.
ghost use Rattle.std.specs.Prelude.{◌≡◌};
ghost use Rattle.cast_peer.specs.Peers.{peer_code, wire_code};

use cast_message::StepFault;
use cast_wire::WireFault;
use thiserror::Error;

/// Why a peer takes no packet or order.
#[derive(Clone, Copy, Debug, PartialEq, Eq, Error)]
pub enum PeerFault {
    #[error("no packet")]
    Wire(WireFault),
    #[error("a packet of another group")]
    OtherGroup,
    #[error("a packet for another node")]
    NotForMe,
    #[error("a packet with the last stamp")]
    LastStamp,
    #[error("a packet that no peer could have made")]
    Impossible,
    #[error("the log or the clock is full")]
    Ended,
    #[error("the node refuses it")]
    Refused(StepFault),
}

impl PeerFault {
    /// Its number. 1 to 6: no packet (foreign, version, kind, short, long, out of memory). 11: another group; 12:
    /// another node; 13: the last stamp; 14: impossible; 15: ended. From 20: a refusal, at 20 and its code.
    pub fn code(self) -> u64
        ensures { result ≡ peer_code self }
    {
        match self {
            PeerFault::Wire(fault) => wire_code(fault),
            PeerFault::OtherGroup => 11,
            PeerFault::NotForMe => 12,
            PeerFault::LastStamp => 13,
            PeerFault::Impossible => 14,
            PeerFault::Ended => 15,
            PeerFault::Refused(fault) => 20 + fault.code(),
        }
    }
}

fn wire_code(fault: WireFault) -> u64
    ensures { result ≡ wire_code fault }
{
    match fault {
        WireFault::Foreign => 1,
        WireFault::Version => 2,
        WireFault::Kind => 3,
        WireFault::Short => 4,
        WireFault::Long => 5,
        WireFault::Memory => 6,
    }
}
