//! The words of a line.
use cast_message::{Item, Mode};

/// A word of a line after its name.
#[derive(Drop)]
pub enum Word<'a> {
    Number(u64),
    Mode(Mode),
    Item(&'a Item),
}
