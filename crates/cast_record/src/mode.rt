//! The word of a mode, and the mode that a word names.
ghost use Rattle.std.specs.Prelude.{◌≡◌};
ghost use Rattle.cast_record.specs.Modes.{mode_word, mode_named};

use cast_message::Mode;

/// The word of a mode: `basic` or `uniform`.
pub fn mode_name(mode: Mode) -> &'static [u8]
    ensures { result.now ≡ mode_word mode }
{
    match mode {
        Mode::Basic => b"basic",
        Mode::Uniform => b"uniform",
    }
}

pub fn mode_named(word: &[u8]) -> Option<Mode>
    ensures { result ≡ mode_named word.now }
{
    if word == b"basic".as_slice() {
        Some(Mode::Basic)
    } else if word == b"uniform".as_slice() {
        Some(Mode::Uniform)
    } else {
        None
    }
}
