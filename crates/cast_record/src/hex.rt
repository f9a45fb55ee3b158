//! Bytes as two digits each.
ghost use Rattle.std.specs.Prelude.{◌≡◌, ◌*◌, ◌<◌, length};
ghost use Rattle.cast_record.specs.Hex.{hex, hex_digit};

/// Puts the digits of the bytes into a place that is twice as long. No byte ends the loop, so the compiler may take many at once.
pub fn put_hex(bytes: &[u8], digits: &mut [u8])
    requires { length digits.old ≡ 2 * length bytes.now }
    ensures { digits.new ≡ hex bytes.now }
{
    for (i, byte) in bytes.iter().enumerate() {
        digits[2 * i] = hex_digit(*byte / 16);
        digits[2 * i + 1] = hex_digit(*byte % 16);
    }
}

/// The digit of a number below sixteen: `0` to `9`, `a` to `f`.
pub fn hex_digit(number: u8) -> u8
    requires { number < 16 }
    ensures { result ≡ hex_digit number }
{
    if number < 10 {
        b'0' + number
    } else {
        b'a' + (number - 10)
    }
}
