//! Reads bytes that are written as two digits each.
ghost use Rattle.std.specs.Prelude.{◌≡◌, ◌*◌, ◌%◌, ◌<◌, if◌then◌else◌, length, IfOk, OnErr, Some, None, option_map, unwrap_or};
ghost use Rattle.cast_record.specs.Unhex.{unhex, digit_of, AreDigitsOf};

use std::alloc::{AllocError, Global};

/// The bytes that have these digits, two for each, if there are such bytes. It takes memory only if there are digits, in pairs.
#[tactic(auto, using(crate::proofs::UnhexLemmas::are_digits))]
pub fn bytes_of(alloc: Global, digits: &[u8]) -> Result<Option<Vec<u8>>, AllocError>
    ensures exact { IfOk result (λ o. option_map (λ bytes. bytes.items) o ≡ unhex digits.now) }
    ensures digits { IfOk result (λ o.
        AreDigitsOf (option_map (λ bytes. bytes.items) o) digits.now) }
    ensures err { OnErr result ((length digits.now % 2 ≡ 0) × (0 < length digits.now)) }
{
    let bytes = unhexed(alloc, digits)?;
    Ok(bytes)
}

fn unhexed(alloc: Global, digits: &[u8]) -> Result<Option<Vec<u8>>, AllocError>
    ensures exact { IfOk result (λ o. option_map (λ bytes. bytes.items) o ≡ unhex digits.now) }
    ensures err { OnErr result ((length digits.now % 2 ≡ 0) × (0 < length digits.now)) }
{
    if digits.len() % 2 != 0 {
        return Ok(None);
    }
    let [_, ..] = digits else {
        return Ok(Some(Vec::new(alloc)));
    };
    let mut bytes = vec![in alloc; 0u8; digits.len() / 2]?;
    if put_bytes(digits, bytes.as_mut_slice()) {
        Ok(Some(bytes))
    } else {
        Ok(None)
    }
}

// Puts the bytes that have these digits into a place that is half as long, and returns whether all are digits. No byte ends the loop,
// so the compiler may take many at once.
fn put_bytes(digits: &[u8], bytes: &mut [u8]) -> bool
    requires { length digits.now ≡ 2 * length bytes.old }
    ensures { unhex digits.now ≡ (if result then Some bytes.new else None) }
{
    let mut greatest = 0u8;
    for i in 0..bytes.len() {
        let high = digit(digits[2 * i]);
        let low = digit(digits[2 * i + 1]);
        bytes[i] = 16 * (high % 16) + low % 16;
        greatest = greatest.max(high).max(low);
    }
    greatest < 16
}

// The number of a digit, or 255.
fn digit(code: u8) -> u8
    ensures { result ≡ unwrap_or (digit_of code) 255 }
{
    match code {
        b'0'..=b'9' => code - b'0',
        b'a'..=b'f' => code - b'a' + 10,
        _ => 255,
    }
}
