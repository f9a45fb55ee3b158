//! The bytes of a data item.
ghost use Rattle.std.specs.Prelude.{◌≡◌, ◌<◌, length, IfOk, OnErr};

use bytes::Bytes;
use std::alloc::AllocError;
use std::marker::Model;

/// The bytes that a data item carries. Contracts see them as a list.
#[derive(Debug, Drop, PartialEq, Eq)]
pub struct Payload {
    bytes: Bytes,
}

impl Model for Payload {
    ghost use Rattle.std.specs.Prelude.{ℕ, List};

    ghost Value = { List ℕ };

    ghost view = { λ payload. payload.bytes };

    ghost inverse = { λ bytes. record { bytes = bytes } };
}

impl Payload {
    /// The payload of these bytes, however many. Only an order checks whether they are too many.
    pub fn new(bytes: Bytes) -> Payload
        ensures { result ≡ bytes }
    {
        Payload { bytes }
    }

    /// The bytes in order.
    pub fn as_slice(&self) -> &[u8]
        ensures { result.now ≡ self.now }
    {
        self.bytes.as_slice()
    }

    /// An equal payload that shares the bytes, or out of memory, which only bytes cause.
    pub fn copy(&self) -> Result<Payload, AllocError>
        ensures ok { IfOk result (λ copy. copy ≡ self.now) }
        ensures err { OnErr result (0 < length self.now) }
    {
        let bytes = self.bytes.slice(..)?;
        Ok(Payload { bytes })
    }
}
