//! The verdict on a record.
ghost use Rattle.std.specs.Prelude.{◌≡◌, ◌++◌, [], ◌∷◌, false};
ghost use Rattle.cast_record.specs.VerdictText.{verdict_text};
ghost use Rattle.cast_record.specs.Written.{Puts};

use crate::meter::Meter;
use crate::words::Word::Number;
use crate::writing::write_words;
use crate::written::Written;
use std::io::Write;

/// What a judge says about a text.
#[derive(Clone, Copy, Debug, PartialEq, Eq)]
pub enum Verdict {
    /// It is a record, and no line breaks a rule.
    Good,
    /// This line, counted from 1, is the first that breaks a rule, and this is the least rule that it breaks, 0 to 6.
    Bad { line: u64, rule: u64 },
}

/// Writes the verdict as a line: `good`, or `bad` with the line and the rule. It takes no memory. It is refused as `write_bytes` is.
pub fn write_verdict<W: Write>(verdict: Verdict, writer: &mut Meter<W>) -> Written
    requires { writer.old.failed ≡ false }
    ensures { Puts W.contents writer.old writer.new result (verdict_text verdict ++ 10 ∷ []) }
{
    match verdict {
        Verdict::Good => write_words(b"good", &[], writer),
        Verdict::Bad { line, rule } => {
            write_words(b"bad", &[Number(line), Number(rule)], writer)
        }
    }
}
