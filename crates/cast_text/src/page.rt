//! A page that steps through the run of a script. It has the script's picture, the steps as lines of words, and a
//! browser program that shows what each step does.
ghost use Rattle.std.specs.Prelude.{◌≡◌, false, IfErr};
ghost use Rattle.cast_text.specs.Text.{IsOfText, UsesStreams};

use crate::fault::TextFault;
use crate::play::{Observer, play};
use crate::text::read_script_text;
use cast_draw::{Picture, Steps, Window, write_page};
use cast_message::{Event, Reply};
use cast_record::Meter;
use cast_script::Script;
use cast_world::World;
use std::alloc::Global;
use std::io::{Read, Write};

/// Reads a script to its end, and writes one HTML page, which has the picture of the events in the window and steps
/// through them. It writes only after all events were taken. After `Write` only a prefix was written; after any other
/// fault nothing.
pub fn page_text<R: Read, W: Write>(
    alloc: Global,
    window: Window,
    reader: &mut Meter<R>,
    writer: &mut Meter<W>,
) -> Result<(), TextFault>
    requires { (reader.old.failed ≡ false) × (writer.old.failed ≡ false) }
    // A fault of the script has its cause.
    ensures cause { IfErr result (IsOfText (R.remaining reader.old.inner) reader.new.failed) }
    // Exactly what failed is reported. At most one byte past the limit is read.
    ensures streams { UsesStreams R.remaining reader.old reader.new writer.new.failed result }
{
    let script = read_script_text(alloc, reader)?;
    let page = play_page(alloc, &script, window)?;
    let Page { picture, steps } = page;
    let drawing = picture.finish()?;
    write_page(&drawing, steps.as_slice(), writer)?;
    Ok(())
}

// The picture and the steps of a run while they grow.
#[derive(Drop)]
struct Page {
    picture: Picture,
    steps: Steps,
}

fn play_page(alloc: Global, script: &Script, window: Window) -> Result<Page, TextFault>
    ensures { IfErr result (λ fault. fault ≡ TextFault.Memory) }
{
    let mut world = World::new(alloc, script.config)?;
    let mut page = Page {
        picture: Picture::new(alloc, &script.config, window)?,
        steps: Steps::new(alloc, &script.config, window)?,
    };
    play(&mut world, script, &mut page)?;
    // (if the window has no event, the page shows how the run ends)
    page.steps.begin()?;
    Ok(page)
}

// What it sees is drawn, and is a step.
impl Observer for Page {
    ghost use Rattle.cast_text.specs.Paged.{FailsByMemory, observes};

    ghost saw = { FailsByMemory };

    ghost ready = { λ _. Unit {0} };

    fn see_event(&mut self, index: u64, event: &Event, reply: &Reply) -> Result<(), TextFault> {
        let x = self.picture.column();
        self.picture.take(index, event, reply)?;
        self.steps.take(index, x, event, reply)?;
        Ok(())
    }

    fn see_settle_begin(&mut self) {
        self.picture.begin_settle();
    }

    fn see_settle_end(&mut self, index: u64) -> Result<(), TextFault> {
        self.picture.end_settle(index)?;
        Ok(())
    }

    // (a frame that is made or arrives is a step)
    fn overlooks_silence(&self) -> bool {
        false
    }

    ghost laws = { observes };
}
