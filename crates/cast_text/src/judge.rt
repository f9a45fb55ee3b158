//! Judges the text of a record as it is read.
ghost use Rattle.std.specs.Prelude.{◌≡◌, false, IfOk, IfErr};
ghost use Rattle.cast_text.specs.Judging.{JudgesInput, Judges};
ghost use Rattle.cast_text.specs.Text.{IsOfInput, TakesInput, Tells, UsesStreams};

use crate::fault::TextFault;
use crate::input::{INPUT_LIMIT, PIECE};
use cast_judge::{Judging, Verdict};
use cast_record::{Meter, write_verdict};
use std::alloc::Global;
use std::io::{Read, Write};

/// Reads a text to its end, judges it as a record, and writes the verdict as a line. It keeps the broadcast items, and
/// an unfinished line. After `Write` only a prefix was written; after any other fault nothing.
pub fn judge_text<R: Read, W: Write>(
    alloc: Global,
    reader: &mut Meter<R>,
    writer: &mut Meter<W>,
) -> Result<Verdict, TextFault>
    requires { (reader.old.failed ≡ false) × (writer.old.failed ≡ false) }
    // The verdict is that on the bytes, and the writer has its line and nothing else, or a fault has its cause.
    ensures exact { Judges (R.remaining reader.old.inner) reader.new.failed
        (W.contents writer.old.inner) (W.contents writer.new.inner) writer.new.failed result }
    // Exactly what failed is reported. At most one byte past the limit is read.
    ensures streams { UsesStreams R.remaining reader.old reader.new writer.new.failed result }
{
    let verdict = judge_input(alloc, reader)?;
    write_verdict(verdict, writer)?;
    Ok(verdict)
}

// The verdict on all that the reader has left. It reads at most one byte past the limit.
fn judge_input<R: Read>(alloc: Global, reader: &mut Meter<R>) -> Result<Verdict, TextFault>
    requires { reader.old.failed ≡ false }
    ensures ok { IfOk result (JudgesInput (R.remaining reader.old.inner)) }
    ensures err { IfErr result (IsOfInput (R.remaining reader.old.inner) reader.new.failed) }
    ensures told { Tells result reader.new.failed false }
    ensures taken { TakesInput (R.remaining reader.old.inner) (R.remaining reader.new.inner) }
{
    let mut judging = Judging::new(alloc);
    let mut chunk = [0; PIECE];
    let mut length = 0usize;
    loop {
        let most = chunk.len().min(INPUT_LIMIT + 1 - length);
        let piece = &mut chunk[..most];
        let Ok(count) = reader.read(piece) else {
            return Err(TextFault::Read);
        };
        if count == 0 {
            return Ok(judging.finish()?);
        }
        length += count;
        if length > INPUT_LIMIT {
            return Err(TextFault::TooLong);
        }
        judging.feed(&piece[..count])?;
    }
}
