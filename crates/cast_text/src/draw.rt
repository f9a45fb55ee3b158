//! Draws the run of a script while the world takes its events.
ghost use Rattle.std.specs.Prelude.{◌≡◌, false, IfErr, IfOk};
ghost use Rattle.cast_draw.specs.Sheet.{sheet_of};
ghost use Rattle.cast_text.specs.Pictured.{sheet_of_script};
ghost use Rattle.cast_text.specs.Drawing.{Draws};
ghost use Rattle.cast_text.specs.Text.{UsesStreams};

use crate::fault::TextFault;
use crate::play::{Observer, play};
use crate::text::read_script_text;
use cast_draw::{Picture, Window, write_drawing};
use cast_message::{Event, Reply};
use cast_record::Meter;
use cast_script::Script;
use cast_world::World;
use std::alloc::Global;
use std::io::{Read, Write};

/// Reads a script to its end, and writes the picture of its events, of which those of the window are shown. Nothing is written
/// before all events were taken. After `Write` a prefix of the picture is written, or nothing; after any other fault nothing.
pub fn draw_text<R: Read, W: Write>(
    alloc: Global,
    window: Window,
    reader: &mut Meter<R>,
    writer: &mut Meter<W>,
) -> Result<(), TextFault>
    requires { (reader.old.failed ≡ false) × (writer.old.failed ≡ false) }
    // The writer has the text of a picture with the marks of the script that was read, and nothing else, or a fault has its
    // cause. How marks are written has no contract.
    ensures exact { Draws window (R.remaining reader.old.inner) reader.new.failed
        (W.contents writer.old.inner) (W.contents writer.new.inner) writer.new.failed result }
    // A failure is reported, and nothing else is. No more is read than shows that there is too much.
    ensures streams { UsesStreams R.remaining reader.old reader.new writer.new.failed result }
{
    let script = read_script_text(alloc, reader)?;
    let picture = draw_script(alloc, &script, window)?;
    let drawing = picture.finish()?;
    write_drawing(&drawing, writer)?;
    Ok(())
}

fn draw_script(alloc: Global, script: &Script, window: Window) -> Result<Picture, TextFault>
    ensures ok { IfOk result (λ picture. sheet_of picture ≡ sheet_of_script script.now window) }
    ensures err { IfErr result (λ fault. fault ≡ TextFault.Memory) }
{
    let mut world = World::new(alloc, script.config)?;
    let mut picture = Picture::new(alloc, &script.config, window)?;
    play(&mut world, script, &mut picture)?;
    Ok(picture)
}

// It draws what it sees.
impl Observer for Picture {
    ghost use Rattle.cast_text.specs.Pictured.{Shows};
    ghost use Rattle.cast_text.specs.PictureLaws.{observes};

    ghost saw = { Shows };

    ghost ready = { λ _. Unit {0} };

    #[tactic(auto, unfolding(crate::specs::Pictured::drawn))]
    fn see_event(&mut self, index: u64, event: &Event, reply: &Reply) -> Result<(), TextFault> {
        self.take(index, event, reply)?;
        Ok(())
    }

    #[tactic(auto, unfolding(crate::specs::Pictured::drawn))]
    fn see_settle_begin(&mut self) {
        self.begin_settle();
    }

    #[tactic(auto, unfolding(crate::specs::Pictured::drawn))]
    fn see_settle_end(&mut self, index: u64) -> Result<(), TextFault> {
        self.end_settle(index)?;
        Ok(())
    }

    // (a frame that is made or arrives is drawn)
    fn overlooks_silence(&self) -> bool {
        false
    }

    ghost laws = { observes };
}
