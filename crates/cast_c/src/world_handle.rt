//! A group that C holds by a pointer. C makes the handle of zeros and passes its address. It neither copies the
//! handle nor touches what is in it.
ghost use Rattle.std.specs.Prelude.{◌≡◌, true, Option, None, Some, is_some, option_map};
ghost use Rattle.cast_world.specs.Group.{State};
ghost use Rattle.cast_c.specs.WorldOwning.{world_owns, world_coded};

use crate::parts::Parts;
use cast_world::World;
use std::alloc::Global;
use std::marker::Model;
use std::{mem, ptr};

/// The pointer to a group on the heap, or to none. It points to bytes, since no type that owns memory crosses to C.
#[repr(C)]
#[derive(Drop)]
pub struct LooseWorld {
    at: *mut u8,
    ghost world: { Option State } by { world_coded },
}

impl Model for LooseWorld {
    ghost also_owns = { λ loose. world_owns loose.at loose.world };
}

/// A group on the heap, or none.
#[repr(C)]
#[derive(Drop)]
pub struct WorldHandle {
    held: bool,
    loose: LooseWorld,
    ghost same: { is_some loose.world ≡ held },
}

// What it owns may go to another thread.
unsafe impl Send for LooseWorld {}

impl LooseWorld {
    fn of_parts(parts: Parts<World, Global>) -> LooseWorld
        ensures { result.world ≡ Some parts.value }
    {
        let Parts { at, alloc: _ } = parts;
        LooseWorld { at: at as *mut u8 }
    }

    fn empty() -> LooseWorld
        ensures { result.world ≡ None }
    {
        LooseWorld {
            at: ptr::null_mut(),
        }
    }

    fn into_parts(self, alloc: Global) -> Parts<World, Global>
        requires { is_some self.world ≡ true }
        ensures { Some result.value ≡ self.world }
    {
        let LooseWorld { at } = self;
        Parts {
            at: at as *mut World,
            alloc,
        }
    }
}

impl WorldHandle {
    pub(crate) fn of(world: Box<World>) -> WorldHandle
        ensures { result.loose.world ≡ Some world.value }
    {
        WorldHandle {
            held: true,
            loose: LooseWorld::of_parts(Parts::of(world)),
        }
    }

    fn empty() -> WorldHandle
        ensures { result.loose.world ≡ None }
    {
        WorldHandle {
            held: false,
            loose: LooseWorld::empty(),
        }
    }

    pub(crate) fn is_held(&self) -> bool
        ensures { result ≡ is_some self.now.loose.world }
    {
        self.held
    }

    /// Takes the group out of the handle, if it holds one.
    pub(crate) fn take(&mut self, alloc: Global) -> Option<Box<World>>
        ensures taken { option_map (λ world. world.value) result ≡ self.old.loose.world }
        ensures emptied { self.new.loose.world ≡ None }
    {
        if !self.held {
            return None;
        }
        let WorldHandle { held: _, loose } = mem::replace(self, WorldHandle::empty());
        Some(loose.into_parts(alloc).into_box())
    }
}
