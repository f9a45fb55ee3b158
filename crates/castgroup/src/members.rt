//! The command `merge` for the records of another system's members: merges them into one record, and writes the verdict
//! on that.
ghost use Rattle.cast_live.specs.Outputs.{AreSound};

use crate::console::Console;
use crate::explain::{Stop, input_name, tell_stop};
use crate::input::open_source;
use crate::inputs::read_after_first;
use crate::outputs::{
    Outputs, keep_outputs, open_outputs, put_wanted, summary_target, warn_of_lengths,
};
use crate::status::{Status, refuse};
use cast_command::{MergeTask, Place, RunPlaces, verdict_words};
use cast_logfile::{MemberCause, MembersFault, judge_record, merge_members};
use cast_record::write_verdict;
use cast_text::{TextFault, Verdict};
use std::alloc::AllocError;
use std::rt::Runtime;

/// Merges members' records, of which the first has this text, and writes what was requested.
pub fn merge_records<'a, R: Runtime + AllocGlobal>(
    console: &Console<'a, R>,
    task: &MergeTask<'a>,
    first: Vec<u8>,
) -> Status {
    if task.places.replay.is_some() || task.places.picture.is_some() {
        console.say(
            "merge: --replay and --draw want logs of nodes; these are records of members, and say nothing of frames",
        );
        return Status::Usage;
    }
    let texts = match read_texts(console, task.files.as_slice(), first) {
        Ok(texts) => texts,
        Err(status) => return status,
    };
    match merge_members(console.rt.alloc(), texts.as_slice()) {
        Ok(record) => tell_verdict(console, &task.places, record.as_slice()),
        Err(MembersFault::Line { file, line, cause }) => {
            say_cause(console, task.files.as_slice().get(file), line, cause);
            Status::Refused
        }
        Err(MembersFault::Memory) => refuse(console.rt, TextFault::Memory),
    }
}

fn read_texts<R: Runtime + AllocGlobal>(
    console: &Console<'_, R>,
    places: &[Place<'_>],
    first: Vec<u8>,
) -> Result<Vec<Vec<u8>>, Status> {
    let mut first = Some(first);
    let mut texts = Vec::new(console.rt.alloc());
    for place in places {
        let text = read_after_first(console, &mut first, *place)?;
        if texts.push(text).is_err() {
            return Err(refuse(console.rt, TextFault::Memory));
        }
    }
    Ok(texts)
}

// Says at which line of which file the merge ends.
fn say_cause<R: Runtime + AllocGlobal>(
    console: &Console<'_, R>,
    file: Option<&Place<'_>>,
    line: u64,
    cause: MemberCause,
) {
    let alloc = console.rt.alloc();
    let place = match file {
        Some(place) => *place,
        None => Place::Standard,
    };
    if let Ok(name) = input_name(alloc, place) {
        console.say_if_made(format!(in alloc; "merge: {name}: line {line}: {cause}"));
    }
}

// Judges the merged record, and writes the verdict and, if requested, the record.
fn tell_verdict<'a, R: Runtime + AllocGlobal>(
    console: &Console<'a, R>,
    places: &RunPlaces<'a>,
    record: &[u8],
) -> Status {
    let Ok(verdict) = judge_record(console.rt.alloc(), record) else {
        return refuse(console.rt, TextFault::Memory);
    };
    if let Err(stop) = write_all(console, places, record, verdict) {
        return tell_stop(console, stop, open_source(console, Place::Standard));
    }
    match verdict {
        Verdict::Good => Status::Good,
        Verdict::Bad { line, rule } => {
            if console.explains {
                console.say_if_made(offending_words(console, places, record, line, rule));
            }
            Status::Bad
        }
    }
}

fn write_all<'a, R: Runtime + AllocGlobal>(
    console: &Console<'a, R>,
    places: &RunPlaces<'a>,
    record: &[u8],
    verdict: Verdict,
) -> Result<(), Stop<'a>> {
    let mut outputs = match open_outputs(console, summary_target(places), places) {
        Ok(outputs) => outputs,
        Err(fault) => return Err(Stop::Fault(fault)),
    };
    let written = put_texts(&mut outputs, record, verdict);
    let kept = keep_outputs(console, outputs, places, true);
    warn_of_lengths(console, kept);
    match (kept.stop, written) {
        (Some(stop), _) => Err(stop),
        (None, Ok(())) => Ok(()),
        (None, Err(fault)) => Err(Stop::Fault(fault)),
    }
}

fn put_texts<'a, R: Runtime + AllocGlobal>(
    outputs: &mut Outputs<'a, R>,
    record: &[u8],
    verdict: Verdict,
) -> Result<(), TextFault>
    requires { AreSound outputs.old }
{
    let kept = put_wanted(&mut outputs.record, record);
    let told = write_verdict(verdict, &mut outputs.summary);
    kept?;
    match told {
        Ok(()) => Ok(()),
        Err(_) => Err(TextFault::Write),
    }
}

// Which line of the merged record breaks which rule.
fn offending_words<R: Runtime + AllocGlobal>(
    console: &Console<'_, R>,
    places: &RunPlaces<'_>,
    record: &[u8],
    line: u64,
    rule: u64,
) -> Result<String, AllocError> {
    let alloc = console.rt.alloc();
    let name = match places.record {
        Some(Place::Standard) => String::from_str(alloc, "standard output")?,
        Some(place) => input_name(alloc, place)?,
        None => String::from_str(alloc, "the merged record")?,
    };
    let words = verdict_words(alloc, record, line, rule)?;
    format!(in alloc; "{name}: {words}")
}
