//! What a command works with: the runtime, standard error, and whether that gets more than the fixed texts.
use cast_command::Detail;
use std::alloc::AllocError;
use std::env::Env;
use std::io::{IsTerminal, Stderr};

// If this environment variable is 1, faults are explained as on a terminal.
const EXPLAIN: &str = "CASTGROUP_EXPLAIN";

/// The runtime and standard error, as passed to a command.
#[derive(Drop)]
pub struct Console<'a, R> {
    pub rt: &'a R,
    pub stderr: Stderr,
    /// Whether faults are explained and remarks made.
    pub explains: bool,
}

impl<'a, R: Env> Console<'a, R> {
    /// The console of a call that wants this much detail.
    pub fn new(rt: &'a R, stderr: Stderr, detail: Detail) -> Console<'a, R> {
        let explains = match detail {
            Detail::Always => true,
            Detail::Never => false,
            Detail::OnTerminal => stderr.is_terminal() || is_asked_for(rt),
        };
        Console {
            rt,
            stderr,
            explains,
        }
    }
}

// Whether the environment asks for words. A value too long for the buffer is not `1`.
fn is_asked_for<R: Env>(rt: &R) -> bool {
    let mut value = [0u8; 1];
    matches!(rt.var(EXPLAIN, &mut value), Ok(1)) && value == *b"1"
}

impl<R> Console<'_, R> {
    /// Writes a line to standard error.
    pub fn say(&self, words: &str) {
        // If standard error fails, there is nowhere to say so.
        let _ = eprintln!(self.stderr; "castgroup: {words}");
    }

    /// Writes a line if there are words for it. If there was no memory to make them, it writes nothing.
    pub fn say_if_made(&self, words: Result<String, AllocError>) {
        if let Ok(words) = words {
            self.say(words.as_str());
        }
    }
}
