//! Gives an old record the new head.
ghost use Rattle.std.specs.Prelude.{◌≡◌, ◌≤◌, length, true, false, IfOk};
ghost use Rattle.cast_record.specs.Migration.{Migrates, IsHeadIn, IsNoHead, new_text};
ghost use Rattle.cast_record.specs.Verdicts.{verdict};

use crate::parts::{BLANK, split_part};
use crate::reading::head;
use std::alloc::{AllocError, Global};
use thiserror::Error;

/// Why a text was not migrated.
#[derive(Clone, Copy, Debug, PartialEq, Eq, Error)]
pub enum MigrateFault {
    /// It doesn't begin with a `cast/1` head within its ranges and its line feed.
    #[error("the text is no record cast/1")]
    NotV1,
    /// It is out of memory.
    #[error("out of memory")]
    Memory,
}

/// The text with its head `cast/1 N F K` changed to `cast/2 N F K basic`, and no other byte. The verdict on it is that on the text
/// before. It can be out of memory only if there is such a head.
pub fn migrate(alloc: Global, text: &[u8]) -> Result<Vec<u8>, MigrateFault>
    ensures exact { Migrates text.now result }
    ensures law { IfOk result (λ new. verdict new.items ≡ verdict text.now) }
{
    let (first, rest) = split_part(text, b'\n');
    let Some(rest) = rest else {
        return Err(MigrateFault::NotV1);
    };
    if !is_head(first) {
        return Err(MigrateFault::NotV1);
    }
    with_new_head(alloc, first, rest).map_err(|_| MigrateFault::Memory)
}

// Whether the bytes spell a `cast/1` head within its ranges.
fn is_head(bytes: &[u8]) -> bool
    ensures yes { result ≡ true → IsHeadIn bytes.now }
    ensures no { result ≡ false → IsNoHead bytes.now }
{
    let (name, rest) = split_part(bytes, BLANK);
    match rest {
        Some(rest) => name == b"cast/1".as_slice() && head(rest).is_some(),
        None => false,
    }
}

// The text under the new head.
fn with_new_head(alloc: Global, first: &[u8], rest: &[u8]) -> Result<Vec<u8>, AllocError>
    requires { 6 ≤ length first.now }
    ensures { IfOk result (λ new. new.items ≡ new_text first.now rest.now) }
{
    let mut new = Vec::new(alloc);
    new.extend_from_slice(b"cast/2".as_slice())?;
    new.extend_from_slice(&first[6..])?;
    new.extend_from_slice(b" basic\n".as_slice())?;
    new.extend_from_slice(rest)?;
    Ok(new)
}
