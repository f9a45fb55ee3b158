//! Shows the first 200 bytes of an input.
use cast_record::{escaped, prefix};
use std::alloc::{AllocError, Global};

const SHOWN: usize = 200;

/// The first bytes, and their number in all if some were cut off.
pub fn cut(alloc: Global, bytes: &[u8]) -> Result<String, AllocError> {
    let text = escaped(alloc, prefix(bytes, SHOWN))?;
    with_count(alloc, text, bytes.len())
}

/// The first bytes in quotes, and their number in all if some were cut off.
pub fn quoted(alloc: Global, bytes: &[u8]) -> Result<String, AllocError> {
    let text = escaped(alloc, prefix(bytes, SHOWN))?;
    with_count(alloc, format!(in alloc; "\"{text}\"")?, bytes.len())
}

fn with_count(alloc: Global, text: String, count: usize) -> Result<String, AllocError> {
    if count > SHOWN {
        format!(in alloc; "{text} .. ({SHOWN} of {count} bytes)")
    } else {
        Ok(text)
    }
}
