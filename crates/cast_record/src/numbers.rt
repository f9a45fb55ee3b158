//! Reads words that spell numbers.
ghost use Rattle.std.specs.Prelude.{◌≡◌, ◌+◌, ◌*◌, ◌^◌, ◌<◌};
ghost use Rattle.std.specs.Option.{SomeIff};
ghost use Rattle.cast_record.specs.Numbers.{number_of, value_of, IsWordOf};

/// The number below 2^64 that a word spells: decimal, with no zero in front.
#[tactic(auto, using(crate::proofs::NumberLemmas::is_word))]
pub fn number(word: &[u8]) -> Option<u64>
    ensures exact { result ≡ number_of word.now }
    ensures word { IsWordOf result word.now }
{
    match word {
        [] | [b'0', _, ..] => None,
        digits => value_of_digits(digits),
    }
}

// Ten times a number below this, and a digit, fit into 64 bits.
const SMALL: u64 = 1_844_674_407_370_955_161;

#[tactic(auto, using(crate::proofs::NumberLemmas::too_large))]
fn value_of_digits(digits: &[u8]) -> Option<u64>
    ensures { result ≡ value_of digits.now }
{
    let mut value = 0u64;
    for digit in digits {
        if !digit.is_ascii_digit() {
            return None;
        }
        value = with_digit(value, u64::from(*digit - b'0'))?;
    }
    Some(value)
}

// The number with one more digit, if it fits. Almost every number is small, and then nothing is tested.
fn with_digit(value: u64, digit: u64) -> Option<u64>
    requires { digit < 10 }
    ensures { SomeIff result (value * 10 + digit < 2 ^ 64) (value * 10 + digit) }
{
    if value < SMALL {
        return Some(value * 10 + digit);
    }
    value.checked_mul(10)?.checked_add(digit)
}
