//! Reads an input to its end, or to the byte past its limit.
ghost use Rattle.std.specs.Prelude.{◌≡◌, ◌≤◌, length, false, IfOk, IfSome, IfErr};
ghost use Rattle.cast_text.specs.Text.{IsOfInput, TakesInput, Tells};

use crate::fault::TextFault;
use cast_record::Meter;
use std::alloc::Global;
use std::io::Read;

/// The most bytes of an input.
pub const INPUT_LIMIT: usize = 67_108_864;

/// The number of bytes asked for at once.
pub const PIECE: usize = 65_536;

/// All that the reader has left. It reads at most one byte past the limit, and allocates only after it has read a byte.
pub fn read_input<R: Read>(alloc: Global, reader: &mut Meter<R>) -> Result<Vec<u8>, TextFault>
    requires { reader.old.failed ≡ false }
    ensures whole { IfOk result
        (λ v. IfSome (R.remaining reader.old.inner) (λ input. v.items ≡ input)) }
    ensures short { IfOk result (λ v. length v.items ≤ INPUT_LIMIT) }
    ensures err { IfErr result (IsOfInput (R.remaining reader.old.inner) reader.new.failed) }
    ensures told { Tells result reader.new.failed false }
    ensures taken { TakesInput (R.remaining reader.old.inner) (R.remaining reader.new.inner) }
{
    let mut bytes = Vec::new(alloc);
    let mut chunk = [0; PIECE];
    loop {
        let most = chunk.len().min(INPUT_LIMIT + 1 - bytes.len());
        let Ok(count) = reader.read(&mut chunk[..most]) else {
            return Err(TextFault::Read);
        };
        if count == 0 {
            return Ok(bytes);
        }
        if bytes.extend_from_slice(&chunk[..count]).is_err() {
            return Err(TextFault::Memory);
        }
        if bytes.len() > INPUT_LIMIT {
            return Err(TextFault::TooLong);
        }
    }
}
