//! Says in words why a script, a group, a head or a record was refused, and what a command ignores in a script. Each
//! call reads the bytes again. The caller puts the input's name before the words.
mod due;
mod element;
mod excerpt;
mod group;
mod keys;
mod members;
mod record;
mod refused;
mod remarks;
mod script;
mod settings;

pub use group::group_words;
pub use record::{RULES, head_words, verdict_words};
pub use refused::{Refusals, refused_words};
pub use remarks::{Taken, aside_words, twice_words};
pub use script::script_words;
