//! The record of a run: its lines, and their text. `specs/Text` says how a line is written, `specs/Lines` which lines an event and its
//! reply have. And the words that records, scripts and pictures share: numbers in decimal digits, bytes as two digits each, and the
//! names of modes.
#![tactic(auto)]

mod event_lines;
mod front;
mod hex;
mod item_word;
mod laws;
mod line;
mod lines;
mod meter;
mod migration;
mod mode;
mod node;
mod numbers;
mod parts;
mod reading;
mod shown;
mod unhex;
mod verdict;
mod word_line;
mod words;
mod writing;
mod written;

pub use event_lines::write_lines_of;
pub use front::{Delivery, read_delivery};
pub use hex::hex_digit;
pub use item_word::ItemWord;
pub use laws::has_text_of_its_own;
pub use line::Line;
pub use lines::lines_of;
pub use meter::{Failed, Meter};
pub use migration::{MigrateFault, migrate};
pub use mode::{mode_name, mode_named};
pub use numbers::number;
pub use reading::read_line;
pub use shown::{escaped, is_printing, prefix};
pub use unhex::bytes_of;
pub use verdict::{Verdict, write_verdict};
pub use word_line::{WordLine, read_words};
pub use writing::{write_line, write_record};
pub use written::{WriteFault, Written, write_bytes, write_hex, write_number};
