//! Laws of the definitions. The function does nothing; its contract is the law.
ghost use Rattle.cast_wire.specs.Law.{HaveBytesOfTheirOwn, AreNeverRefused};

/// No two packets have the same bytes, so what is read from written bytes is what was written. Refused bytes are not
/// those of any packet whose item has at most 1,024 bytes.
pub fn has_bytes_of_its_own()
    ensures own { HaveBytesOfTheirOwn }
    ensures refused { AreNeverRefused }
{}
