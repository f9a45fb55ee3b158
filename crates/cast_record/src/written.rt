//! Writes words without allocation, each whole or a prefix of it.
ghost use Rattle.std.specs.Prelude.{◌≡◌, false, decimal};
ghost use Rattle.cast_record.specs.Hex.{hex};
ghost use Rattle.cast_record.specs.Written.{Puts};

use crate::hex::put_hex;
use crate::meter::Meter;
use itoa::Buffer;
use std::io::Write;
use thiserror::Error;

// Enough that the writer is seldom called, and not so many that a short text pays for the room.
const BYTES_AT_ONCE: usize = 128;

/// Why a text was not written: in this call the writer failed, or took no byte.
#[derive(Clone, Copy, Debug, PartialEq, Eq, Error)]
pub enum WriteFault {
    #[error("the writer failed or took no byte")]
    Write,
}

/// The result of writing a text.
pub type Written = Result<(), WriteFault>;

/// Writes the number in decimal digits. It takes no memory. It is refused as `write_bytes` is.
pub fn write_number<W: Write>(number: u64, writer: &mut Meter<W>) -> Written
    requires { writer.old.failed ≡ false }
    ensures { Puts W.contents writer.old writer.new result (decimal number) }
{
    write_bytes(Buffer::new().format(number).as_bytes(), writer)
}

/// Writes each byte as two digits. It takes no memory. It is refused as `write_bytes` is.
pub fn write_hex<W: Write>(bytes: &[u8], writer: &mut Meter<W>) -> Written
    requires { writer.old.failed ≡ false }
    ensures { Puts W.contents writer.old writer.new result (hex bytes.now) }
{
    let mut room = [0; 2 * BYTES_AT_ONCE];
    let mut rest = bytes;
    while !rest.is_empty() {
        let (front, others) = rest.split_at(rest.len().min(BYTES_AT_ONCE));
        let digits = &mut room[..2 * front.len()];
        put_hex(front, digits);
        write_bytes(digits, writer)?;
        rest = others;
    }
    Ok(())
}

/// Writes all the bytes. It takes no memory. It is refused only if the writer failed or took no byte. The meter then says so, and a
/// prefix of the bytes was written.
pub fn write_bytes<W: Write>(bytes: &[u8], writer: &mut Meter<W>) -> Written
    requires { writer.old.failed ≡ false }
    ensures { Puts W.contents writer.old writer.new result bytes.now }
{
    let mut rest = bytes;
    while !rest.is_empty() {
        let Ok(count) = writer.write(rest) else {
            return Err(WriteFault::Write);
        };
        if count == 0 {
            return Err(WriteFault::Write);
        }
        rest = &rest[count..];
    }
    Ok(())
}
