//! Finds the lines of refused events in a record while it is written.
use cast_command::Refusals;
use std::io::{self, Write};

/// Passes a record on, and keeps which events were refused.
#[derive(Drop)]
pub struct RefusalWatch<W> {
    inner: W,
    at: At,
    // The numbers of a line `r EVENT CODE`, as far as it is read.
    index: u64,
    code: u64,
    found: Option<Refusals>,
}

/// Where in a line the next byte is.
#[derive(Clone, Copy)]
enum At {
    Start,
    /// After the letter of a refused event.
    Letter,
    Index,
    Code,
    /// In a line of another kind.
    Other,
}

impl<W> RefusalWatch<W> {
    pub fn new(inner: W) -> RefusalWatch<W> {
        RefusalWatch {
            inner,
            at: At::Start,
            index: 0,
            code: 0,
            found: None,
        }
    }

    /// The refused events, if there are any.
    pub fn refusals(&self) -> Option<Refusals> {
        self.found
    }

    fn take(&mut self, byte: u8) {
        self.at = match (self.at, byte) {
            (At::Code, b'\n') => {
                self.note();
                At::Start
            }
            (_, b'\n') => At::Start,
            (At::Start, b'r') => At::Letter,
            (At::Letter, b' ') => {
                self.index = 0;
                At::Index
            }
            (At::Index, b' ') => {
                self.code = 0;
                At::Code
            }
            (At::Index, b'0'..=b'9') => {
                self.index = with_digit(self.index, byte);
                At::Index
            }
            (At::Code, b'0'..=b'9') => {
                self.code = with_digit(self.code, byte);
                At::Code
            }
            _ => At::Other,
        };
    }

    fn note(&mut self) {
        let first = self.found.unwrap_or(Refusals {
            index: self.index,
            code: self.code,
            count: 0,
        });
        self.found = Some(Refusals {
            count: first.count.saturating_add(1),
            ..first
        });
    }
}

fn with_digit(number: u64, digit: u8) -> u64 {
    let digit = u64::from(digit.saturating_sub(b'0'));
    number.saturating_mul(10).saturating_add(digit)
}

impl<W: Write> Write for RefusalWatch<W> {
    fn write(&mut self, buf: &[u8]) -> io::Result<usize> {
        let count = self.inner.write(buf)?;
        for byte in &buf[..count] {
            self.take(*byte);
        }
        Ok(count)
    }

    fn flush(&mut self) -> io::Result<()> {
        self.inner.flush()
    }
}
