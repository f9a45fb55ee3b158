//! From the bytes of a script to those of its record.
ghost use Rattle.std.specs.Prelude.{◌≡◌, false, IfOk, IfErr};
ghost use Rattle.cast_text.specs.Text.{IsOfScript, IsScriptIn, Records, TakesInput, Tells, UsesStreams};

use crate::fault::TextFault;
use crate::input::read_input;
use crate::ranges::tell_ranges;
use crate::record::write_script_record;
use cast_record::Meter;
use cast_script::{Script, ScriptFault, read_script};
use std::alloc::Global;
use std::io::{Read, Write};

/// Reads a script to its end, and writes the record of its events. After `Write` only a prefix was written; after
/// `Memory` too, but without the last line; after any other fault nothing.
pub fn run_text<R: Read, W: Write>(
    alloc: Global,
    reader: &mut Meter<R>,
    writer: &mut Meter<W>,
) -> Result<(), TextFault>
    requires { (reader.old.failed ≡ false) × (writer.old.failed ≡ false) }
    // The bytes are a script's, and the writer has its record, which is good, and nothing else, or a fault has its
    // cause.
    ensures exact { Records (R.remaining reader.old.inner) reader.new.failed
        (W.contents writer.old.inner) (W.contents writer.new.inner) writer.new.failed result }
    // Exactly what failed is reported. At most one byte past the limit is read.
    ensures streams { UsesStreams R.remaining reader.old reader.new writer.new.failed result }
{
    let script = read_script_text(alloc, reader)?;
    tell_ranges(script.events.as_slice());
    write_script_record(alloc, &script, writer)
}

/// The script that is all the reader has left. It fails if the reader fails, if there are more than 67,108,864 bytes,
/// or if they are no script, each with its fault. Out of memory is always `Memory`.
pub fn read_script_text<R: Read>(alloc: Global, reader: &mut Meter<R>) -> Result<Script, TextFault>
    requires { reader.old.failed ≡ false }
    ensures ok { IfOk result (IsScriptIn (R.remaining reader.old.inner)) }
    ensures err { IfErr result (IsOfScript (R.remaining reader.old.inner) reader.new.failed) }
    ensures told { Tells result reader.new.failed false }
    ensures taken { TakesInput (R.remaining reader.old.inner) (R.remaining reader.new.inner) }
{
    let input = read_input(alloc, reader)?;
    match read_script(alloc, input.as_slice()) {
        Ok(script) => Ok(script),
        Err(ScriptFault::Memory) => Err(TextFault::Memory),
        Err(fault) => Err(TextFault::Script(fault)),
    }
}
