//! Where the columns of a picture are. Contracts see their number.
ghost use Rattle.std.specs.Prelude.{◌≡◌, ◌+◌, ◌<◌, ◌≤◌, ◌^◌, OnOk};

use crate::cell::{FARTHEST, FIRST_COLUMN};
use crate::frames::Column;
use std::alloc::{AllocError, Global};
use std::marker::Model;

/// The columns, from left to right.
#[derive(Drop)]
pub struct Layout {
    starts: Vec<Column>,
    // Where the next column starts.
    next: Column,
}

impl Model for Layout {
    ghost use Rattle.std.specs.Prelude.{ℕ, vec_len};

    ghost Value = { ℕ };

    ghost view = { λ layout. vec_len layout.starts };
}

impl Layout {
    pub fn new(alloc: Global) -> Layout
        ensures { result ≡ 0 }
    {
        Layout {
            starts: Vec::new(alloc),
            next: Column::at(FIRST_COLUMN),
        }
    }

    pub fn count(&self) -> u64
        ensures { result ≡ self.now }
    {
        self.starts.len() as u64
    }

    /// Where the next column starts, in points from the left.
    pub fn next(&self) -> u64
        ensures { result < 2 ^ 41 }
    {
        self.next.x()
    }

    /// Adds a column of this width. It counts as out of memory if that is too far to the right.
    pub fn add(&mut self, width: u64) -> Result<(), AllocError>
        ensures { OnOk result (self.new ≡ self.old + 1) }
    {
        let end = Layout::within(self.next.x().saturating_add(width))?;
        self.starts.push(self.next)?;
        self.next = end;
        Ok(())
    }

    /// Moves the next column to the right until it is at least this far from the column `from`.
    pub fn widen(&mut self, from: u64, width: u64) -> Result<(), AllocError>
        ensures { OnOk result (self.new ≡ self.old) }
    {
        let end = self.start(from).x().saturating_add(width);
        if end > self.next.x() {
            self.next = Layout::within(end)?;
        }
        Ok(())
    }

    /// Where a column starts. One that doesn't exist yet starts after the last.
    pub fn start(&self, column: u64) -> Column {
        match self.starts.get(column as usize) {
            Some(start) => *start,
            None => self.next,
        }
    }

    fn within(x: u64) -> Result<Column, AllocError> {
        if x < FIRST_COLUMN || x > FARTHEST {
            return Err(AllocError);
        }
        Ok(Column::at(x))
    }
}
