//! The words of the program `castgroup`: its command line, what a call asks for, and why an input is refused. It is a
//! crate apart from the program, so that neither is checked over everything that the other depends on.
#![tactic(auto)]

mod commands;
mod explain;
mod request;
mod version;

pub use commands::refusals_help;
pub use explain::{
    RULES, Refusals, Taken, aside_words, group_words, head_words, refused_words, script_words,
    twice_words, verdict_words,
};
pub use request::{
    Detail, LiveTask, MergeTask, Place, Refusal, Request, RunPlaces, Running, Seeds, Shown, Task,
    parse,
};
