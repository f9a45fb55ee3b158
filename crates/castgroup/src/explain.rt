//! Why a command stopped, and what standard error says about it: the fixed text, and one more line about where a fault
//! is and why. That line needs the input again; if there is no memory for it, it is left out.
use crate::console::Console;
use crate::input::Source;
use crate::output::{Failure, Finished, Target};
use crate::status::{Status, refuse};
use cast_command::{Place, group_words, head_words, script_words};
use cast_message::LiveFault;
use cast_record::escaped;
use cast_text::{INPUT_LIMIT, TextFault};
use std::alloc::{AllocError, Global};
use std::io;
use std::rt::Runtime;

#[derive(Clone, Copy)]
pub enum Stop<'a> {
    /// Its input, or a lack of memory or of a thread.
    Fault(TextFault),
    /// An output was not written to its end.
    Output(Failure<'a>),
    /// The replay is too long for a picture.
    LongReplay,
}

impl<'a> Stop<'a> {
    fn fault(self) -> TextFault {
        match self {
            Stop::Fault(fault) => fault,
            Stop::Output(failure) => failure.fault(),
            Stop::LongReplay => TextFault::TooLong,
        }
    }

    /// The other if that is out of memory, else this one.
    pub fn or_memory(self, other: Stop<'a>) -> Stop<'a> {
        match other.fault() {
            TextFault::Memory => other,
            _ => self,
        }
    }
}

/// The result, if the output was also written to its end; else why not.
pub fn done_and_written<'a, T: Drop>(
    done: Result<T, TextFault>,
    written: Result<Finished, Failure<'a>>,
) -> Result<T, Stop<'a>> {
    match (done, written) {
        (Ok(value), Ok(_)) => Ok(value),
        (Ok(_) | Err(TextFault::Write), Err(failure)) => Err(Stop::Output(failure)),
        (Err(fault), _) => Err(Stop::Fault(fault)),
    }
}

/// Says why nothing more was done, and returns the status for it.
pub fn tell_stop<R: Runtime + AllocGlobal>(
    console: &Console<'_, R>,
    stop: Stop<'_>,
    source: Source<'_, R::File, R::Reader>,
) -> Status {
    let status = refuse(console.rt, stop.fault());
    if console.explains {
        if let Ok(Some(words)) = stop_words(console.rt, stop, source) {
            console.say(words.as_str());
        }
    }
    status
}

type Words = Result<Option<String>, AllocError>;

fn stop_words<R: Runtime + AllocGlobal>(
    rt: &R,
    stop: Stop<'_>,
    source: Source<'_, R::File, R::Reader>,
) -> Words {
    let alloc = rt.alloc();
    match (stop, stop.fault()) {
        (_, TextFault::Memory | TextFault::Live(LiveFault::Memory | LiveFault::Threads)) => Ok(
            None,
        ),
        (Stop::Output(failure), _) => Ok(Some(failure_words(alloc, failure)?)),
        (Stop::LongReplay, _) => Ok(Some(format!(in alloc;
            "the replay has more than the {INPUT_LIMIT} bytes that are drawn"
        )?)),
        (_, TextFault::Read) => {
            let name = input_name(alloc, source.place())?;
            Ok(Some(stream_words(alloc, &name, source.error())?))
        }
        (_, TextFault::Write) => {
            let failure = Failure {
                target: Target::StandardOutput,
                error: None,
            };
            Ok(Some(failure_words(alloc, failure)?))
        }
        (_, fault) => input_words(rt, fault, source),
    }
}

// What is wrong with the input, which is read again.
fn input_words<R: Runtime + AllocGlobal>(
    rt: &R,
    fault: TextFault,
    source: Source<'_, R::File, R::Reader>,
) -> Words {
    let alloc = rt.alloc();
    let name = input_name(alloc, source.place())?;
    if matches!(fault, TextFault::TooLong) {
        let words = format!(in alloc; "{name}: more than the {INPUT_LIMIT} bytes that are read")?;
        return Ok(Some(words));
    }
    let Some(bytes) = source.into_bytes(rt) else {
        return Ok(None);
    };
    let words = match fault {
        TextFault::Script(why) => script_words(alloc, bytes.as_slice(), why)?,
        TextFault::Live(why) => group_words(alloc, bytes.as_slice(), why)?,
        TextFault::NotV1 => head_words(alloc, bytes.as_slice())?,
        _ => return Ok(None),
    };
    Ok(Some(format!(in alloc; "{name}: {words}")?))
}

/// The name of an input, as shown.
pub fn input_name(alloc: Global, place: Place<'_>) -> Result<String, AllocError> {
    match place {
        Place::File(path) => escaped(alloc, path.as_bytes()),
        Place::Standard => String::from_str(alloc, "standard input"),
    }
}

/// What the system said about an output that failed.
pub fn failure_words(alloc: Global, failure: Failure<'_>) -> Result<String, AllocError> {
    let name = match failure.target {
        Target::File(path) => escaped(alloc, path.as_bytes())?,
        Target::StandardOutput => String::from_str(alloc, "standard output")?,
        Target::StandardError => String::from_str(alloc, "standard error")?,
        Target::Memory => String::from_str(alloc, "memory")?,
    };
    stream_words(alloc, &name, failure.error)
}

fn stream_words(
    alloc: Global,
    name: &String,
    error: Option<io::Error>,
) -> Result<String, AllocError> {
    match error {
        Some(error) => format!(in alloc; "{name}: {error}"),
        None => format!(in alloc; "{name}: it takes no byte more"),
    }
}
