//! The statuses of the exports: the same numbers as the program's.

pub(crate) const DONE: u32 = 0;

/// There is no such call.
pub(crate) const MISUSED: u32 = 1;

/// The input was refused.
pub(crate) const REFUSED: u32 = 2;

pub(crate) const BAD: u32 = 3;

pub(crate) const OUT_OF_MEMORY: u32 = 5;

/// The caller's buffer is too short.
pub(crate) const TOO_SHORT: u32 = 6;
