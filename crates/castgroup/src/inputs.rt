//! Several inputs of a command, each read whole.
use crate::console::Console;
use crate::explain::{Stop, tell_stop};
use crate::input::open_source;
use crate::status::Status;
use cast_command::Place;
use cast_text::{INPUT_LIMIT, TextFault};
use std::alloc::Global;
use std::io::{self, Read};
use std::rt::Runtime;

/// The text at this place. If it can't be had, says why, and returns the status for that.
pub fn read_whole<R: Runtime + AllocGlobal>(
    console: &Console<'_, R>,
    place: Place<'_>,
) -> Result<Vec<u8>, Status> {
    let mut source = open_source(console, place);
    match read_limited(console.rt.alloc(), &mut source) {
        Ok(text) => Ok(text),
        Err(fault) => Err(tell_stop(console, Stop::Fault(fault), source)),
    }
}

/// The text at this place, which is the first text if that was not taken before.
pub fn read_after_first<R: Runtime + AllocGlobal>(
    console: &Console<'_, R>,
    first: &mut Option<Vec<u8>>,
    place: Place<'_>,
) -> Result<Vec<u8>, Status> {
    match first.take() {
        Some(text) => Ok(text),
        None => read_whole(console, place),
    }
}

fn read_limited<S: Read + Drop>(alloc: Global, source: S) -> Result<Vec<u8>, TextFault> {
    let mut text = Vec::new(alloc);
    if let Err(error) = source.take(INPUT_LIMIT as u64 + 1).read_to_end(&mut text) {
        return Err(match error.kind() {
            io::ErrorKind::OutOfMemory => TextFault::Memory,
            _ => TextFault::Read,
        });
    }
    if text.len() > INPUT_LIMIT {
        return Err(TextFault::TooLong);
    }
    Ok(text)
}
