//! The words that the program was called with, and what it shows if they ask for nothing that it does.
use crate::console::Console;
use crate::explain::failure_words;
use crate::output::{Failure, Target};
use crate::status::{Status, refuse};
use cast_command::{Detail, Refusal, Shown};
use cast_text::TextFault;
use std::io;
use std::rt::Runtime;

pub fn command_words<R: Runtime + AllocGlobal>(rt: &R) -> io::Result<Vec<String>> {
    let words = std::env::args(rt)?.collect(rt.alloc())?;
    Ok(words)
}

/// How much detail the words ask for, even if they are wrong otherwise.
pub fn detail_of(words: &[String]) -> Detail {
    if words.iter().any(|word| word.as_str() == "--explain") {
        Detail::Always
    } else if words.iter().any(|word| word.as_str() == "--terse") {
        Detail::Never
    } else {
        Detail::OnTerminal
    }
}

/// Says why there are no words: one is not UTF-8, or memory ran out.
pub fn refuse_words<R: Runtime + AllocGlobal>(rt: &R, error: &io::Error) -> Status {
    if matches!(error.kind(), io::ErrorKind::InvalidData) {
        // If standard error fails, only the status can report that.
        let _ = eprintln!(rt; "error: a word of the command line is not UTF-8");
        return Status::Usage;
    }
    refuse(rt, TextFault::Memory)
}

/// Says why nothing is done.
pub fn refuse_request<R: Runtime + AllocGlobal>(
    console: &Console<'_, R>,
    refusal: &Refusal,
) -> Status {
    match refusal {
        Refusal::Shown(shown) => show(console, shown),
        Refusal::Memory => refuse(console.rt, TextFault::Memory),
    }
}

// Shows help or the version on standard output, or a fault in the words on standard error.
fn show<R: Runtime + AllocGlobal>(console: &Console<'_, R>, shown: &Shown) -> Status {
    match (shown.is_fault(), shown.print(console.rt)) {
        (true, _) => Status::Usage,
        (false, Ok(())) => Status::Good,
        (false, Err(error)) => {
            let status = refuse(console.rt, TextFault::Write);
            if console.explains {
                let failure = Failure {
                    target: Target::StandardOutput,
                    error: Some(error),
                };
                console.say_if_made(failure_words(console.rt.alloc(), failure));
            }
            status
        }
    }
}
