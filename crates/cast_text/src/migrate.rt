//! Gives the text of an old record the new head.
ghost use Rattle.std.specs.Prelude.{◌≡◌, false};
ghost use Rattle.cast_text.specs.Migrating.{Migrates};
ghost use Rattle.cast_text.specs.Text.{UsesStreams};

use crate::fault::TextFault;
use crate::input::read_input;
use cast_record::{Meter, MigrateFault, migrate, write_bytes};
use std::alloc::Global;
use std::io::{Read, Write};

/// Reads a `cast/1` record to its end, and writes it with a `cast/2` head. After `Write` only a prefix was written;
/// after any other fault nothing.
pub fn migrate_text<R: Read, W: Write>(
    alloc: Global,
    reader: &mut Meter<R>,
    writer: &mut Meter<W>,
) -> Result<(), TextFault>
    requires { (reader.old.failed ≡ false) × (writer.old.failed ≡ false) }
    // The writer has the bytes with their head changed, and nothing else, or a fault has its cause.
    ensures exact { Migrates (R.remaining reader.old.inner) reader.new.failed
        (W.contents writer.old.inner) (W.contents writer.new.inner) writer.new.failed result }
    // Exactly what failed is reported. At most one byte past the limit is read.
    ensures streams { UsesStreams R.remaining reader.old reader.new writer.new.failed result }
{
    let input = read_input(alloc, reader)?;
    let migrated = match migrate(alloc, input.as_slice()) {
        Ok(migrated) => migrated,
        Err(MigrateFault::NotV1) => return Err(TextFault::NotV1),
        Err(MigrateFault::Memory) => return Err(TextFault::Memory),
    };
    write_bytes(migrated.as_slice(), writer)?;
    Ok(())
}
