//! Writes the record of a script, line by line, as it is played.
ghost use Rattle.std.specs.Prelude.{◌≡◌, ◌++◌, ◌∷◌, [], false, IfErr};
ghost use Rattle.cast_record.specs.Lines.{head_of};
ghost use Rattle.cast_record.specs.Text.{record_text, line_text};
ghost use Rattle.cast_text.specs.Recorded.{lines_of, record_of};
ghost use Rattle.cast_text.specs.Text.{Puts, StopsBeforeEnd};

use crate::fault::TextFault;
use crate::play::{Observer, play};
use cast_message::{Config, Event, Reply};
use cast_record::{Line, Meter, write_line, write_lines_of};
use cast_script::Script;
use cast_world::World;
use std::alloc::Global;
use std::io::Write;

/// Writes the record of the script: its head, the lines of its events, and its end.
pub fn write_script_record<W: Write>(
    alloc: Global,
    script: &Script,
    writer: &mut Meter<W>,
) -> Result<(), TextFault>
    requires { writer.old.failed ≡ false }
    ensures text { Puts W.contents writer.old writer.new result
        (record_text (record_of script.now)) }
    // If memory runs out, nothing of the end was written.
    ensures memory { IfErr result (λ fault. StopsBeforeEnd fault
        (W.contents writer.old.inner) (W.contents writer.new.inner) script.now) }
{
    let mut world = World::new(alloc, script.config)?;
    put_head(&script.config, writer)?;
    play(&mut world, script, writer)?;
    put_line(&Line::End, writer)
}

/// Writes the head of a record of this group. It allocates nothing. After a fault only a prefix was written.
pub fn put_head<W: Write>(config: &Config, writer: &mut Meter<W>) -> Result<(), TextFault>
    requires { writer.old.failed ≡ false }
    ensures text { Puts W.contents writer.old writer.new result
        (line_text (head_of config.now) ++ 10 ∷ []) }
    ensures fault { IfErr result (λ fault. fault ≡ TextFault.Write) }
{
    let head = Line::head(config);
    put_line(&head, writer)
}

/// Writes the line, and a line feed. It allocates nothing. After a fault only a prefix was written.
pub fn put_line<W: Write>(line: &Line, writer: &mut Meter<W>) -> Result<(), TextFault>
    requires { writer.old.failed ≡ false }
    ensures text { Puts W.contents writer.old writer.new result (line_text line.now ++ 10 ∷ []) }
    ensures fault { IfErr result (λ fault. fault ≡ TextFault.Write) }
{
    write_line(line, writer)?;
    Ok(())
}

// It writes the lines of what it sees at once.
impl<W: Write> Observer for Meter<W> {
    ghost use Rattle.std.specs.Prelude.{◌≡◌, false};
    ghost use Rattle.cast_record.specs.Text.{record_text};
    ghost use Rattle.cast_text.specs.Recorded.{lines_of};
    ghost use Rattle.cast_text.specs.RecordLaws.{observes};
    ghost use Rattle.cast_text.specs.Text.{Puts};

    ghost saw = { λ old new result seen.
        Puts W.contents old new result (record_text (lines_of seen)) };

    ghost ready = { λ meter. meter.failed ≡ false };

    fn see_event(&mut self, index: u64, event: &Event, reply: &Reply) -> Result<(), TextFault> {
        write_lines_of(index, event, reply, self)?;
        Ok(())
    }

    #[tactic(auto, unfolding(crate::specs::Recorded::lines_of))]
    fn see_settle_begin(&mut self) {}

    #[tactic(auto, unfolding(crate::specs::Recorded::lines_of))]
    fn see_settle_end(&mut self, _index: u64) -> Result<(), TextFault> {
        Ok(())
    }

    // (a silent event has no line)
    fn overlooks_silence(&self) -> bool {
        true
    }

    ghost laws = { observes W.contents };
}
