//! From a script's bytes to those of its record or picture, in a buffer of the caller.
ghost use Rattle.std.specs.Prelude.{◌≡◌, ◌⊎◌, [], Some, IfOk, IfErr};
ghost use Rattle.cast_text.specs.Text.{WritesRecord};
ghost use Rattle.cast_text.specs.Drawing.{WritesDrawing};
ghost use Rattle.cast_c.specs.Texts.{IsText, IsTextStatus, PutsText, PutsMigrated, IsRefused, RefusesAs, numbers_of_fault, status_of_fault, only_length};

use crate::deliveries::put_bytes;
use crate::numbers::TextNumbers;
use crate::status::{MISUSED, OUT_OF_MEMORY, REFUSED};
use cast_record::{Meter, MigrateFault, migrate};
use cast_script::ScriptFault;
use cast_text::{TextFault, Window, draw_text, page_text, run_text};
use std::alloc::Global;

/// Writes the record of a script. 0: done; 2: the script is refused; 5: out of memory; 6: the buffer has no room for
/// it. `told` has its length, or why it was refused.
#[unsafe(no_mangle)]
pub extern "C" fn cast_c_run(
    alloc: Global,
    script: &[u8],
    out: &mut [u8],
    told: &mut TextNumbers,
) -> u32
    ensures written { (result ≡ 0) ⊎ (result ≡ 6) → IsText (λ text. WritesRecord (Some script.now) (Some []) (Some text))
        result told.new out.old out.new }
    ensures refused { result ≡ 2 → IsRefused script.now told.new }
    ensures kept { (result ≡ 0) ⊎ (out.new ≡ out.old) }
    ensures status { IsTextStatus result }
{
    put_text(record_of(alloc, script), out, told)
}

fn record_of(alloc: Global, script: &[u8]) -> Result<Vec<u8>, TextFault>
    ensures ok { IfOk result (λ text. WritesRecord (Some script.now) (Some []) (Some text.items)) }
    ensures err { IfErr result (RefusesAs script.now) }
{
    let mut reader = Meter::new(script);
    let mut writer = Meter::new(Vec::new(alloc));
    run_text(alloc, &mut reader, &mut writer)?;
    Ok(writer.into_inner())
}

/// Draws the events of a script from one place to another, both included. The statuses are the same.
#[unsafe(no_mangle)]
pub extern "C" fn cast_c_draw(
    alloc: Global,
    script: &[u8],
    from: u64,
    to: u64,
    out: &mut [u8],
    told: &mut TextNumbers,
) -> u32
    ensures written { (result ≡ 0) ⊎ (result ≡ 6) → IsText (λ text. WritesDrawing (record { from = from; to = to }) (Some script.now) (Some []) (Some text))
        result told.new out.old out.new }
    ensures refused { result ≡ 2 → IsRefused script.now told.new }
    ensures kept { (result ≡ 0) ⊎ (out.new ≡ out.old) }
    ensures status { IsTextStatus result }
{
    put_text(picture_of(alloc, script, Window { from, to }), out, told)
}

fn picture_of(alloc: Global, script: &[u8], window: Window) -> Result<Vec<u8>, TextFault>
    ensures ok { IfOk result (λ text. WritesDrawing window (Some script.now) (Some []) (Some text.items)) }
    ensures err { IfErr result (RefusesAs script.now) }
{
    let mut reader = Meter::new(script);
    let mut writer = Meter::new(Vec::new(alloc));
    draw_text(alloc, window, &mut reader, &mut writer)?;
    Ok(writer.into_inner())
}

/// Writes the page that steps through the events of a script from one place to another, both included. The statuses are the
/// same. What stands in a page has no contract.
#[unsafe(no_mangle)]
pub extern "C" fn cast_c_page(
    alloc: Global,
    script: &[u8],
    from: u64,
    to: u64,
    out: &mut [u8],
    told: &mut TextNumbers,
) -> u32
    ensures written { (result ≡ 0) ⊎ (result ≡ 6) → IsText (λ _. Unit {0})
        result told.new out.old out.new }
    ensures refused { result ≡ 2 → IsRefused script.now told.new }
    ensures kept { (result ≡ 0) ⊎ (out.new ≡ out.old) }
    ensures status { IsTextStatus result }
{
    put_text(page_of(alloc, script, Window { from, to }), out, told)
}

fn page_of(alloc: Global, script: &[u8], window: Window) -> Result<Vec<u8>, TextFault>
    ensures { IfErr result (RefusesAs script.now) }
{
    let mut reader = Meter::new(script);
    let mut writer = Meter::new(Vec::new(alloc));
    page_text(alloc, window, &mut reader, &mut writer)?;
    Ok(writer.into_inner())
}

/// Writes a record with its head `cast/1` changed to `cast/2`, in basic mode. 0: done; 2: the text begins with no such head; 5:
/// out of memory; 6: the buffer has no room for the new text, and `length` has its length.
#[unsafe(no_mangle)]
pub extern "C" fn cast_c_migrate(
    alloc: Global,
    text: &[u8],
    out: &mut [u8],
    length: &mut u64,
) -> u32
    ensures { PutsMigrated text.now result length.new out.old out.new }
{
    match migrate(alloc, text) {
        Ok(new) => {
            *length = new.len() as u64;
            put_bytes(new.as_slice(), out)
        }
        Err(MigrateFault::NotV1) => REFUSED,
        Err(MigrateFault::Memory) => OUT_OF_MEMORY,
    }
}

// Puts the text into the buffer, or reports why there is none.
fn put_text(made: Result<Vec<u8>, TextFault>, out: &mut [u8], told: &mut TextNumbers) -> u32
    ensures { PutsText made result told.new out.old out.new }
{
    match made {
        Ok(text) => {
            *told = only_length(text.len() as u64);
            put_bytes(text.as_slice(), out)
        }
        Err(fault) => {
            *told = numbers_of_fault(fault);
            status_of_fault(fault)
        }
    }
}

fn only_length(length: u64) -> TextNumbers
    ensures { result ≡ only_length length }
{
    TextNumbers {
        length,
        fault: 0,
        place: 0,
    }
}

fn numbers_of_fault(fault: TextFault) -> TextNumbers
    ensures { result ≡ numbers_of_fault fault }
{
    let (fault, place) = match fault {
        TextFault::TooLong => (1, 0),
        TextFault::Script(ScriptFault::NotJson) => (2, 0),
        TextFault::Script(ScriptFault::Shape { index }) => (3, index),
        TextFault::Script(ScriptFault::Config(fault)) => (4, fault.code()),
        _ => (0, 0),
    };
    TextNumbers {
        length: 0,
        fault,
        place,
    }
}

// A vector refuses a write only if memory is out, and a slice refuses no read.
fn status_of_fault(fault: TextFault) -> u32
    ensures { result ≡ status_of_fault fault }
{
    match fault {
        TextFault::Memory | TextFault::Write => OUT_OF_MEMORY,
        TextFault::TooLong | TextFault::Script(_) => REFUSED,
        _ => MISUSED,
    }
}
