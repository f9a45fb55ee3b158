//! Where marks are on the sheet, in points from its upper left corner.
ghost use Rattle.std.specs.Prelude.{◌<◌, ◌≤◌, ◌^◌};

use crate::frames::Column;
use crate::height::height_of;
use cast_message::NodeId;
use std::alloc::AllocError;

/// Where the lines of the nodes begin.
pub const LINES_FROM: u64 = 76;

/// Where the column of the first event is.
pub const FIRST_COLUMN: u64 = 92;

/// The distance to the next column, if the event has no box.
pub const NARROW: u64 = 16;

/// The distance to the next column, if the event has boxes. The boxes take 44 of it.
pub const WIDE: u64 = 56;

/// How much wider a diamond with its value is than a box.
pub const FOR_VALUES: u64 = 20;

/// The greatest distance of a column from the left.
pub const FARTHEST: u64 = 1_099_511_627_776;

/// A point of the sheet.
#[derive(Clone, Copy)]
pub struct Spot {
    pub x: u64,
    pub y: u64,
    pub ghost left: { 76 ≤ x },
    pub ghost right: { x < 2 ^ 41 },
    pub ghost upper: { 76 ≤ y },
    pub ghost lower: { y < 2 ^ 17 },
}

impl Spot {
    /// Where a column meets a node's line.
    pub fn on_line(column: Column, node: NodeId) -> Spot {
        Spot {
            x: column.x(),
            y: height_of(node),
        }
    }
}

/// A place for a box or a diamond below a node's line. Three places are below one another. The next three are to their
/// right.
#[derive(Clone, Copy)]
pub struct Cell {
    /// The column of the place.
    pub x: u64,
    /// How many of the three places are above it.
    pub row: u64,
    /// The height of the node's line.
    pub line: u64,
    pub ghost left: { 76 ≤ x },
    pub ghost right: { x < 2 ^ 41 },
    pub ghost within: { row < 3 },
    pub ghost lower: { line < 2 ^ 17 },
}

impl Cell {
    /// The place with this number below a point of a node's line. It counts as out of memory if that is too far to the right.
    pub fn below(spot: Spot, place: u64) -> Result<Cell, AllocError> {
        if place > FARTHEST {
            return Err(AllocError);
        }
        let x = spot.x + WIDE * (place / 3);
        if x > FARTHEST {
            return Err(AllocError);
        }
        Ok(Cell {
            x,
            row: place % 3,
            line: spot.y,
        })
    }
}

/// The distance to the next column, if the event has this many boxes and diamonds.
pub fn width_of(count: u64, has_values: bool) -> u64 {
    if count == 0 {
        return NARROW;
    }
    let values = if has_values { FOR_VALUES } else { 0 };
    let columns = count.saturating_add(2) / 3;
    columns.saturating_mul(WIDE).saturating_add(values)
}
