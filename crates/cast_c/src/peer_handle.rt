//! A peer that C holds by a pointer. C makes the handle of zeros and passes its address. It neither copies the
//! handle nor touches what is in it.
ghost use Rattle.std.specs.Prelude.{◌≡◌, true, Option, None, Some, is_some, option_map};
ghost use Rattle.cast_peer.specs.declared.peer.Peer.{Peer as State};
ghost use Rattle.cast_c.specs.PeerOwning.{peer_owns, peer_coded};

use crate::parts::Parts;
use cast_peer::Peer;
use std::alloc::Global;
use std::marker::Model;
use std::{mem, ptr};

/// The pointer to a peer on the heap, or to none. It points to bytes, since no type that owns memory crosses to C.
#[repr(C)]
#[derive(Drop)]
pub struct LoosePeer {
    at: *mut u8,
    ghost peer: { Option State } by { peer_coded },
}

impl Model for LoosePeer {
    ghost also_owns = { λ loose. peer_owns loose.at loose.peer };
}

/// A peer on the heap, or none.
#[repr(C)]
#[derive(Drop)]
pub struct PeerHandle {
    held: bool,
    loose: LoosePeer,
    ghost same: { is_some loose.peer ≡ held },
}

// What it owns may go to another thread.
unsafe impl Send for LoosePeer {}

impl LoosePeer {
    fn of_parts(parts: Parts<Peer, Global>) -> LoosePeer
        ensures { result.peer ≡ Some parts.value }
    {
        let Parts { at, alloc: _ } = parts;
        LoosePeer { at: at as *mut u8 }
    }

    fn empty() -> LoosePeer
        ensures { result.peer ≡ None }
    {
        LoosePeer {
            at: ptr::null_mut(),
        }
    }

    fn into_parts(self, alloc: Global) -> Parts<Peer, Global>
        requires { is_some self.peer ≡ true }
        ensures { Some result.value ≡ self.peer }
    {
        let LoosePeer { at } = self;
        Parts {
            at: at as *mut Peer,
            alloc,
        }
    }
}

impl PeerHandle {
    pub(crate) fn of(peer: Box<Peer>) -> PeerHandle
        ensures { result.loose.peer ≡ Some peer.value }
    {
        PeerHandle {
            held: true,
            loose: LoosePeer::of_parts(Parts::of(peer)),
        }
    }

    fn empty() -> PeerHandle
        ensures { result.loose.peer ≡ None }
    {
        PeerHandle {
            held: false,
            loose: LoosePeer::empty(),
        }
    }

    pub(crate) fn is_held(&self) -> bool
        ensures { result ≡ is_some self.now.loose.peer }
    {
        self.held
    }

    /// Takes the peer out of the handle, if it holds one.
    pub(crate) fn take(&mut self, alloc: Global) -> Option<Box<Peer>>
        ensures taken { option_map (λ peer. peer.value) result ≡ self.old.loose.peer }
        ensures emptied { self.new.loose.peer ≡ None }
    {
        if !self.held {
            return None;
        }
        let PeerHandle { held: _, loose } = mem::replace(self, PeerHandle::empty());
        Some(loose.into_parts(alloc).into_box())
    }
}
