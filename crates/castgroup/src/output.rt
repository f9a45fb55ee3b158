//! The outputs of a command. A file is created when its first byte is written. The system's error for a failed write is
//! kept.
ghost use Rattle.std.specs.Io.{WritesAtMost};

use crate::console::Console;
use cast_command::Place;
use cast_text::TextFault;
use std::io::{BufWriter, Stderr, Write};
use std::rt::Runtime;
use std::{fs, io};

// The summary of the greatest group is shorter, so none of it goes out before it is finished.
const BUFFER: usize = 32_768;

/// Where an output goes.
#[derive(Clone, Copy)]
pub enum Target<'a> {
    StandardOutput,
    StandardError,
    File(&'a str),
    /// To be read again, or by nobody.
    Memory,
}

impl<'a> Target<'a> {
    /// The target that a word of the command line names.
    pub fn of(place: Place<'a>) -> Target<'a> {
        match place {
            Place::Standard => Target::StandardOutput,
            Place::File(path) => Target::File(path),
        }
    }
}

/// An output that was not written to its end, and the system's error, if any.
#[derive(Clone, Copy)]
pub struct Failure<'a> {
    pub target: Target<'a>,
    pub error: Option<io::Error>,
}

impl Failure<'_> {
    /// How it is reported.
    pub fn fault(&self) -> TextFault {
        match self.error {
            Some(error) if matches!(error.kind(), io::ErrorKind::OutOfMemory) => TextFault::Memory,
            _ => TextFault::Write,
        }
    }
}

/// An output without a buffer.
#[derive(Drop)]
pub struct Sink<'a, R: Runtime> {
    rt: &'a R,
    stderr: Stderr,
    target: Target<'a>,
    // The file, after it was created.
    file: Option<R::File>,
    // What is kept in memory.
    kept: Vec<u8>,
    count: u64,
    error: Option<io::Error>,
}

/// An output to which nothing was written yet.
pub fn open_sink<'a, R: Runtime + AllocGlobal>(
    console: &Console<'a, R>,
    target: Target<'a>,
) -> Sink<'a, R> {
    Sink {
        rt: console.rt,
        stderr: console.stderr,
        target,
        file: None,
        kept: Vec::new(console.rt.alloc()),
        count: 0,
        error: None,
    }
}

/// The same with a buffer, or out of memory for that.
pub fn open_output<'a, R: Runtime + AllocGlobal>(
    console: &Console<'a, R>,
    target: Target<'a>,
) -> Result<BufWriter<Sink<'a, R>>, TextFault> {
    let sink = open_sink(console, target);
    match BufWriter::with_capacity(console.rt.alloc(), BUFFER, sink) {
        Ok(output) => Ok(output),
        Err(_) => Err(TextFault::Memory),
    }
}

/// What an output has after it was written to its end.
#[derive(Drop)]
pub struct Finished {
    /// How many bytes were written.
    pub count: u64,
    /// The bytes kept in memory.
    pub kept: Vec<u8>,
}

/// Writes what is left in the buffer, and closes the output.
pub fn finish<'a, R: Runtime>(mut output: BufWriter<Sink<'a, R>>) -> Result<Finished, Failure<'a>> {
    let flushed = output.flush();
    let (sink, _left) = output.into_parts();
    if flushed.is_err() || sink.error.is_some() {
        return Err(sink.failure());
    }
    let Sink { count, kept, .. } = sink;
    Ok(Finished { count, kept })
}

impl<'a, R: Runtime> Sink<'a, R> {
    /// The output, as one that failed.
    pub fn failure(&self) -> Failure<'a> {
        Failure {
            target: self.target,
            error: self.error,
        }
    }

    // Passes the bytes on to the file, which is created first.
    fn write_to_file(&mut self, path: &str, buf: &[u8]) -> io::Result<usize>
        ensures { WritesAtMost result buf.now }
    {
        if self.file.is_none() {
            self.file = Some(fs::create(self.rt, path)?);
        }
        match &mut self.file {
            Some(file) => file.write(buf),
            None => Ok(0),
        }
    }
}

impl<R: Runtime> Write for Sink<'_, R> {
    fn write(&mut self, buf: &[u8]) -> io::Result<usize> {
        let outcome = match self.target {
            Target::StandardOutput => io::writer(self.rt).write(buf),
            Target::StandardError => self.stderr.write(buf),
            Target::File(path) => self.write_to_file(path, buf),
            Target::Memory => self.kept.write(buf),
        };
        match &outcome {
            Ok(count) => self.count = self.count.saturating_add(*count as u64),
            Err(error) => self.error = Some(*error),
        }
        outcome
    }

    fn flush(&mut self) -> io::Result<()> {
        Ok(())
    }
}
