//! The parts of bytes between separators, without memory.
ghost use Rattle.std.specs.Prelude.{◌≡◌, ◌∷◌, ◌==◌, option_map, position};
ghost use Rattle.std.specs.List.{slice_split};
ghost use Rattle.cast_record.specs.Parts.{parts_of};
ghost use Rattle.cast_record.specs.Reading.{one_of, two_of, three_of, four_of};

/// The byte between words.
pub const BLANK: u8 = b' ';

/// The place of the first such byte, if there is one.
pub fn find_byte(bytes: &[u8], byte: u8) -> Option<usize>
    ensures { result ≡ position (λ b. b == byte) bytes.now }
{
    bytes.iter().position(|other| *other == byte)
}

/// The first part, and what is after its separator, if there is one.
pub fn split_part(bytes: &[u8], separator: u8) -> (&[u8], Option<&[u8]>)
    ensures { slice_split (λ b. b == separator) bytes.now ≡ result.0.now ∷ parts_of separator
        (option_map (λ rest. rest.now) result.1) }
{
    match find_byte(bytes, separator) {
        Some(at) => (&bytes[..at], Some(&bytes[at + 1..])),
        None => (bytes, None),
    }
}

/// The one part, if there is exactly one.
pub fn one_part(bytes: &[u8], separator: u8) -> Option<&[u8]>
    ensures { option_map (λ part. part.now) result ≡ one_of
        (slice_split (λ b. b == separator) bytes.now) }
{
    match split_part(bytes, separator) {
        (part, None) => Some(part),
        (_, Some(_)) => None,
    }
}

pub fn two_parts(bytes: &[u8], separator: u8) -> Option<(&[u8], &[u8])>
    ensures { option_map (λ parts. (parts.0.now, parts.1.now)) result ≡ two_of
        (slice_split (λ b. b == separator) bytes.now) }
{
    let (first, rest) = split_part(bytes, separator);
    let second = one_part(rest?, separator)?;
    Some((first, second))
}

pub fn three_parts(bytes: &[u8], separator: u8) -> Option<(&[u8], &[u8], &[u8])>
    ensures { option_map (λ parts. (parts.0.now, parts.1.now, parts.2.now)) result ≡ three_of
        (slice_split (λ b. b == separator) bytes.now) }
{
    let (first, rest) = split_part(bytes, separator);
    let (second, third) = two_parts(rest?, separator)?;
    Some((first, second, third))
}

pub fn four_parts(bytes: &[u8], separator: u8) -> Option<(&[u8], &[u8], &[u8], &[u8])>
    ensures { option_map (λ parts. (parts.0.now, parts.1.now, parts.2.now, parts.3.now)) result
        ≡ four_of (slice_split (λ b. b == separator) bytes.now) }
{
    let (first, rest) = split_part(bytes, separator);
    let (second, third, fourth) = three_parts(rest?, separator)?;
    Some((first, second, third, fourth))
}
