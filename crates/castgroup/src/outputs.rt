//! The outputs of a run: its record, its replay, its picture and its summary, in the order of writing.
ghost use Rattle.std.specs.Prelude.{◌≡◌, false, IfOk};
ghost use Rattle.cast_live.specs.Outputs.{AreSound, IsSound};

use crate::console::Console;
use crate::explain::{Stop, done_and_written};
use crate::output::{Failure, Finished, Sink, Target, finish, open_output};
use cast_command::{Place, RunPlaces};
use cast_live::RunOutputs;
use cast_record::{Meter, write_bytes};
use cast_text::{INPUT_LIMIT, TextFault, Window, draw_text};
use std::io::{BufWriter, Write};
use std::rt::Runtime;

/// The outputs that the library writes.
pub type Outputs<'a, R> = RunOutputs<BufWriter<Sink<'a, R>>, BufWriter<Sink<'a, R>>>;

/// Where the summary goes. It must not share a stream with the text of another output.
pub fn summary_target<'a>(places: &RunPlaces<'_>) -> Target<'a> {
    if places.count_standard() > 0 {
        Target::StandardError
    } else {
        Target::StandardOutput
    }
}

/// Opens the requested outputs. If a picture is requested, the replay is kept in memory.
pub fn open_outputs<'a, R: Runtime + AllocGlobal>(
    console: &Console<'a, R>,
    summary: Target<'a>,
    places: &RunPlaces<'a>,
) -> Result<Outputs<'a, R>, TextFault>
    ensures { IfOk result AreSound }
{
    let replay = match (places.picture, places.replay) {
        (Some(_), _) => Some(Target::Memory),
        (None, Some(place)) => Some(Target::of(place)),
        (None, None) => None,
    };
    let record = match places.record {
        Some(place) => Some(Target::of(place)),
        None => None,
    };
    Ok(RunOutputs {
        summary: Meter::new(open_output(console, summary)?),
        record: open_wanted(console, record)?,
        replay: open_wanted(console, replay)?,
    })
}

fn open_wanted<'a, R: Runtime + AllocGlobal>(
    console: &Console<'a, R>,
    target: Option<Target<'a>>,
) -> Result<Option<Meter<BufWriter<Sink<'a, R>>>>, TextFault>
    ensures { IfOk result IsSound }
{
    match target {
        Some(target) => Ok(Some(Meter::new(open_output(console, target)?))),
        None => Ok(None),
    }
}

/// Writes bytes to an output, if it was requested.
pub fn put_wanted<W: Write>(wanted: &mut Option<Meter<W>>, bytes: &[u8]) -> Result<(), TextFault>
    requires { IsSound wanted.old }
{
    match wanted {
        Some(writer) => put_bytes(writer, bytes),
        None => Ok(()),
    }
}

/// Writes bytes to an output.
pub fn put_bytes<W: Write>(writer: &mut Meter<W>, bytes: &[u8]) -> Result<(), TextFault>
    requires { writer.old.failed ≡ false }
{
    match write_bytes(bytes, writer) {
        Ok(()) => Ok(()),
        Err(_) => Err(TextFault::Write),
    }
}

/// What happened to the outputs of a run.
#[derive(Clone, Copy)]
pub struct Kept<'a> {
    record: u64,
    replay: u64,
    /// Why one was not written to its end: out of memory, else the summary's failure, else the first.
    pub stop: Option<Stop<'a>>,
}

impl<'a> Kept<'a> {
    fn note(&mut self, stop: Stop<'a>) {
        self.stop = match self.stop {
            Some(first) => Some(first.or_memory(stop)),
            None => Some(stop),
        };
    }

    // The same, for a cause that comes before all noted ones.
    fn note_before(&mut self, stop: Stop<'a>) {
        self.stop = match self.stop {
            Some(first) => Some(stop.or_memory(first)),
            None => Some(stop),
        };
    }

    // How many bytes an output has; 0 if it was not written to its end.
    fn note_written(&mut self, written: Result<Finished, Failure<'a>>) -> u64 {
        match written {
            Ok(finished) => finished.count,
            Err(failure) => {
                self.note(Stop::Output(failure));
                0
            }
        }
    }
}

/// Writes what is left in the buffers and draws the picture, unless the replay may have broken off.
pub fn keep_outputs<'a, R: Runtime + AllocGlobal>(
    console: &Console<'a, R>,
    outputs: Outputs<'a, R>,
    places: &RunPlaces<'a>,
    is_whole: bool,
) -> Kept<'a> {
    let RunOutputs {
        summary,
        record,
        replay,
    } = outputs;
    let mut kept = Kept {
        record: 0,
        replay: 0,
        stop: None,
    };
    if let Some(record) = record {
        kept.record = kept.note_written(finish(record.into_inner()));
    }
    if let Some(replay) = replay {
        keep_replay(console, replay.into_inner(), places, is_whole, &mut kept);
    }
    if let Err(failure) = finish(summary.into_inner()) {
        kept.note_before(Stop::Output(failure));
    }
    kept
}

// Writes the replay and its picture, if requested.
fn keep_replay<'a, R: Runtime + AllocGlobal>(
    console: &Console<'a, R>,
    replay: BufWriter<Sink<'a, R>>,
    places: &RunPlaces<'a>,
    is_whole: bool,
    kept: &mut Kept<'a>,
) {
    let Some(picture) = places.picture else {
        kept.replay = kept.note_written(finish(replay));
        return;
    };
    let text = match finish(replay) {
        Ok(finished) => finished.kept,
        Err(failure) => return kept.note(Stop::Output(failure)),
    };
    if let Some(place) = places.replay {
        match write_text(console, place, text.as_slice()) {
            Ok(()) => kept.replay = text.len() as u64,
            Err(stop) => kept.note(stop),
        }
    }
    if is_whole {
        if let Err(stop) = draw_replay(console, picture, text.as_slice()) {
            kept.note(stop);
        }
    }
}

fn write_text<'a, R: Runtime + AllocGlobal>(
    console: &Console<'a, R>,
    place: Place<'a>,
    bytes: &[u8],
) -> Result<(), Stop<'a>> {
    let mut output = match open_output(console, Target::of(place)) {
        Ok(output) => output,
        Err(fault) => return Err(Stop::Fault(fault)),
    };
    let done = match output.write_all(bytes) {
        Ok(()) => Ok(()),
        Err(_) => Err(TextFault::Write),
    };
    done_and_written(done, finish(output))
}

fn draw_replay<'a, R: Runtime + AllocGlobal>(
    console: &Console<'a, R>,
    place: Place<'a>,
    mut text: &[u8],
) -> Result<(), Stop<'a>> {
    if text.len() > INPUT_LIMIT {
        return Err(Stop::LongReplay);
    }
    let mut output = match open_output(console, Target::of(place)) {
        Ok(output) => output,
        Err(fault) => return Err(Stop::Fault(fault)),
    };
    let done = draw_text(
        console.rt.alloc(),
        Window::all(),
        &mut Meter::new(&mut text),
        &mut Meter::new(&mut output),
    );
    done_and_written(done, finish(output))
}

/// Warns if a text is longer than this program reads. This comes after all other writing, since nobody may read it. It
/// also comes after the files are closed: if the program began without standard error, one of them has its place.
pub fn warn_of_lengths<R>(console: &Console<'_, R>, kept: Kept<'_>) {
    let limit = INPUT_LIMIT as u64;
    if kept.record > limit {
        console.say("record longer than judge reads");
    }
    if kept.replay > limit {
        console.say("replay longer than run reads");
    }
}
