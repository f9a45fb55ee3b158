//! Readers and writers that remember whether they failed.
ghost use Rattle.std.specs.Prelude.{◌≡◌, ◌<◌, length, true, false, IfOk, OnOk, OnErr};
ghost use Rattle.std.specs.Io.{ReadsAtMost, WritesAtMost};
ghost use Rattle.std.specs.Io.KnownBytes.{ReadConsumes, WriteAppends};

use std::io::{Read, Write};
use thiserror::Error;

/// The reader or writer returned an error.
#[derive(Clone, Copy, Debug, PartialEq, Eq, Error)]
#[error("the reader or writer answered an error")]
pub struct Failed;

/// A reader or writer that remembers whether it ever failed.
#[derive(Drop)]
pub struct Meter<S> {
    inner: S,
    failed: bool,
}

impl<S> Meter<S> {
    /// The reader or writer, which has not failed so far.
    pub fn new(inner: S) -> Meter<S>
        ensures inner { result.inner ≡ inner }
        ensures fresh { result.failed ≡ false }
    {
        Meter {
            inner,
            failed: false,
        }
    }

    /// Whether the reader or writer ever returned an error, or a write ever took no byte of a slice that isn't empty.
    pub fn failed(&self) -> bool
        ensures { result ≡ self.now.failed }
    {
        self.failed
    }

    pub fn into_inner(self) -> S
        ensures { result ≡ self.inner }
    {
        let Meter { inner, failed: _ } = self;
        inner
    }
}

impl<S: Read> Meter<S> {
    /// Reads, and returns how many bytes the reader read, or `Failed` if it returned an error.
    pub fn read(&mut self, buf: &mut [u8]) -> Result<usize, Failed>
        ensures bound { ReadsAtMost result buf.new }
        ensures bytes { ReadConsumes (S.remaining self.old.inner)
            (S.remaining self.new.inner) result buf.new }
        ensures ok { OnOk result (self.new.failed ≡ self.old.failed) }
        ensures err { OnErr result (self.new.failed ≡ true) }
    {
        match self.inner.read(buf) {
            Ok(count) => Ok(count),
            Err(_) => {
                self.failed = true;
                Err(Failed)
            }
        }
    }
}

impl<S: Write> Meter<S> {
    /// Writes, and returns how many bytes the writer took, or `Failed` if it returned an error.
    pub fn write(&mut self, buf: &[u8]) -> Result<usize, Failed>
        ensures bound { WritesAtMost result buf.now }
        ensures bytes { WriteAppends (S.contents self.old.inner)
            (S.contents self.new.inner) result buf.now }
        ensures ok { IfOk result (λ n. 0 < n → self.new.failed ≡ self.old.failed) }
        ensures empty { IfOk result (λ n. length buf.now ≡ 0 → self.new.failed ≡ self.old.failed) }
        ensures stuck { IfOk result (λ n. n ≡ 0 → 0 < length buf.now → self.new.failed ≡ true) }
        ensures err { OnErr result (self.new.failed ≡ true) }
    {
        match self.inner.write(buf) {
            Ok(count) => {
                if count == 0 && !buf.is_empty() {
                    self.failed = true;
                }
                Ok(count)
            }
            Err(_) => {
                self.failed = true;
                Err(Failed)
            }
        }
    }
}
