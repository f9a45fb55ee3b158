//! Bytes as they are shown to a reader: printing ASCII as it is, all else by its number.
ghost use Rattle.std.specs.Prelude.{◌≡◌, ◌++◌, ◌<◌, IfOk, OnOk, OnErr, length, string_bytes, take};
ghost use Rattle.cast_record.specs.Shown.{shown, shown_byte, by_number, is_printing};

use std::alloc::{AllocError, Global};

/// All bytes as they are shown. It takes no memory if there are no bytes.
pub fn escaped(alloc: Global, bytes: &[u8]) -> Result<String, AllocError>
    ensures exact { IfOk result (λ text. string_bytes text ≡ shown bytes.now) }
    ensures err { OnErr result (0 < length bytes.now) }
{
    let mut text = String::new(alloc);
    for byte in bytes {
        put_byte(&mut text, *byte)?;
    }
    Ok(text)
}

fn put_byte(text: &mut String, byte: u8) -> Result<(), AllocError>
    ensures { OnOk result (string_bytes text.new ≡ string_bytes text.old ++ shown_byte byte) }
{
    if is_printing(byte) {
        text.push(char::from(byte))
    } else {
        put_number(text, byte)
    }
}

/// Whether a byte is printing ASCII: from the blank to the tilde.
pub fn is_printing(byte: u8) -> bool
    ensures { result ≡ is_printing byte }
{
    (byte >= b' ') & (byte <= b'~')
}

#[tactic(auto, using(std::proofs::lemmas::Fmt::hex_byte))]
fn put_number(text: &mut String, byte: u8) -> Result<(), AllocError>
    ensures { OnOk result (string_bytes text.new ≡ string_bytes text.old ++ by_number byte) }
{
    write!(text, "\\x{byte:02x}")
}

/// The first bytes, at most this many.
pub fn prefix(bytes: &[u8], room: usize) -> &[u8]
    ensures { result.now ≡ take room bytes.now }
{
    &bytes[..bytes.len().min(room)]
}
