//! A judge that C holds by a pointer. C makes the handle of zeros and passes its address. It neither copies the
//! handle nor touches what is in it.
ghost use Rattle.std.specs.Prelude.{◌≡◌, true, Option, None, Some, is_some, option_map};
ghost use Rattle.cast_judge.specs.declared.judging.Judging.{Judging as State};
ghost use Rattle.cast_c.specs.JudgeOwning.{judge_owns, judge_coded};

use crate::parts::Parts;
use cast_judge::Judging;
use std::alloc::Global;
use std::marker::Model;
use std::{mem, ptr};

/// The pointer to a judge on the heap, or to none. It points to bytes, since no type that owns memory crosses to C.
#[repr(C)]
#[derive(Drop)]
pub struct LooseJudge {
    at: *mut u8,
    ghost judging: { Option State } by { judge_coded },
}

impl Model for LooseJudge {
    ghost also_owns = { λ loose. judge_owns loose.at loose.judging };
}

/// A judge on the heap, or none.
#[repr(C)]
#[derive(Drop)]
pub struct JudgeHandle {
    held: bool,
    loose: LooseJudge,
    ghost same: { is_some loose.judging ≡ held },
}

// What it owns may go to another thread.
unsafe impl Send for LooseJudge {}

impl LooseJudge {
    fn of_parts(parts: Parts<Judging, Global>) -> LooseJudge
        ensures { result.judging ≡ Some parts.value }
    {
        let Parts { at, alloc: _ } = parts;
        LooseJudge { at: at as *mut u8 }
    }

    fn empty() -> LooseJudge
        ensures { result.judging ≡ None }
    {
        LooseJudge {
            at: ptr::null_mut(),
        }
    }

    fn into_parts(self, alloc: Global) -> Parts<Judging, Global>
        requires { is_some self.judging ≡ true }
        ensures { Some result.value ≡ self.judging }
    {
        let LooseJudge { at } = self;
        Parts {
            at: at as *mut Judging,
            alloc,
        }
    }
}

impl JudgeHandle {
    pub(crate) fn of(judging: Box<Judging>) -> JudgeHandle
        ensures { result.loose.judging ≡ Some judging.value }
    {
        JudgeHandle {
            held: true,
            loose: LooseJudge::of_parts(Parts::of(judging)),
        }
    }

    fn empty() -> JudgeHandle
        ensures { result.loose.judging ≡ None }
    {
        JudgeHandle {
            held: false,
            loose: LooseJudge::empty(),
        }
    }

    pub(crate) fn is_held(&self) -> bool
        ensures { result ≡ is_some self.now.loose.judging }
    {
        self.held
    }

    /// Takes the judge out of the handle, if it holds one.
    pub(crate) fn take(&mut self, alloc: Global) -> Option<Box<Judging>>
        ensures taken { option_map (λ judging. judging.value) result ≡ self.old.loose.judging }
        ensures emptied { self.new.loose.judging ≡ None }
    {
        if !self.held {
            return None;
        }
        let JudgeHandle { held: _, loose } = mem::replace(self, JudgeHandle::empty());
        Some(loose.into_parts(alloc).into_box())
    }
}
