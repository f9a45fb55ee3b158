//! The input of a command. It remembers the system's error if it fails, and is read again if it is to be explained.
use crate::console::Console;
use cast_command::Place;
use cast_text::INPUT_LIMIT;
use std::alloc::Global;
use std::fs::OpenFile;
use std::io::Read;
use std::rt::Runtime;
use std::{fs, io};

/// Where an input comes from.
#[derive(Drop)]
enum Stream<F, S> {
    File(F),
    Standard(S),
    /// The file could not be opened.
    Refused(io::Error),
}

/// How to get an input again that is to be explained.
#[derive(Drop)]
enum Again {
    /// By reading its file.
    File,
    /// From what was read so far, while there is memory for it.
    Kept(Vec<u8>),
    /// Not at all: it can't be read twice and is not to be explained, or there was no memory to keep it.
    Lost,
}

/// The input of a command. A file that can't be opened fails when it is read.
#[derive(Drop)]
pub struct Source<'a, F, S> {
    place: Place<'a>,
    stream: Stream<F, S>,
    error: Option<io::Error>,
    again: Again,
}

/// Opens the input at this place.
pub fn open_source<'a, R: Runtime + AllocGlobal>(
    console: &Console<'_, R>,
    place: Place<'a>,
) -> Source<'a, R::File, R::Reader> {
    let stream = match place {
        Place::File(path) => match fs::open(console.rt, path) {
            Ok(file) => Stream::File(file),
            Err(error) => Stream::Refused(error),
        },
        Place::Standard => Stream::Standard(console.rt.reader()),
    };
    let again = if can_be_read_again(&stream) {
        Again::File
    } else if console.explains {
        Again::Kept(Vec::new(console.rt.alloc()))
    } else {
        Again::Lost
    };
    Source {
        place,
        stream,
        error: None,
        again,
    }
}

// A pipe has a name too, but what was read from it can't be read again.
fn can_be_read_again<F: OpenFile, S>(stream: &Stream<F, S>) -> bool {
    match stream {
        Stream::File(file) => matches!(file.metadata(), Ok(metadata) if metadata.is_file()),
        Stream::Standard(_) => false,
        Stream::Refused(_) => true,
    }
}

impl<'a, F: Read + Drop, S: Read + Drop> Source<'a, F, S> {
    pub fn place(&self) -> Place<'a> {
        self.place
    }

    /// What the system said when a read failed.
    pub fn error(&self) -> Option<io::Error> {
        self.error
    }

    /// The bytes of the input again: those kept, or those of the file up to the first that is too many. None if they
    /// can't be had.
    pub fn into_bytes<R: Runtime + AllocGlobal>(self, rt: &R) -> Option<Vec<u8>> {
        let Source { place, again, .. } = self;
        match (again, place) {
            (Again::File, Place::File(path)) => read_again(rt, path),
            (Again::Kept(bytes), _) => Some(bytes),
            _ => None,
        }
    }

    /// Keeps what is read, because its file will be overwritten.
    pub fn keep_all(&mut self, alloc: Global) {
        self.again = Again::Kept(Vec::new(alloc));
    }

    // Keeps what was read, while there is memory for it.
    fn keep(&mut self, piece: &[u8]) {
        if let Again::Kept(bytes) = &mut self.again {
            if bytes.extend_from_slice(piece).is_err() {
                self.again = Again::Lost;
            }
        }
    }
}

fn read_again<R: Runtime + AllocGlobal>(rt: &R, path: &str) -> Option<Vec<u8>> {
    let file = fs::open(rt, path).ok()?;
    let mut bytes = Vec::new(rt.alloc());
    file.take(INPUT_LIMIT as u64 + 1)
        .read_to_end(&mut bytes)
        .ok()?;
    Some(bytes)
}

impl<F: Read + Drop, S: Read + Drop> Read for Source<'_, F, S> {
    fn read(&mut self, buf: &mut [u8]) -> io::Result<usize> {
        let outcome = match &mut self.stream {
            Stream::File(file) => file.read(buf),
            Stream::Standard(input) => input.read(buf),
            Stream::Refused(error) => Err(*error),
        };
        match outcome {
            Ok(count) => {
                self.keep(&buf[..count]);
                Ok(count)
            }
            Err(error) => {
                self.error = Some(error);
                Err(error)
            }
        }
    }
}
