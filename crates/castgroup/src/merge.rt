//! The command `merge`: reads and merges the logs of a group's processes, and keeps the requested texts. If the first
//! file is a member's record, `members` merges them.
ghost use Rattle.std.specs.Prelude.{◌≡◌, false};
ghost use Rattle.cast_live.specs.Outputs.{AreSound, IsSound};

use crate::console::Console;
use crate::explain::{Stop, input_name, tell_stop};
use crate::input::open_source;
use crate::inputs::{read_after_first, read_whole};
use crate::live::status_of;
use crate::members::merge_records;
use crate::outputs::{
    Outputs, keep_outputs, open_outputs, put_bytes, put_wanted, summary_target, warn_of_lengths,
};
use crate::status::Status;
use cast_command::{MergeTask, Place, RunPlaces};
use cast_live::Summary;
use cast_logfile::{
    FileLog, Gathered, LogCause, LogFault, MergeFault, Merged, gather, is_members_record,
    judge_record, locate, merge_steps, read_log, record_of, summary_of,
};
use cast_record::Meter;
use cast_script::write_script;
use cast_text::TextFault;
use std::io::Write;
use std::rt::Runtime;

// Why the logs were not merged, or not all was written.
#[derive(Clone, Copy)]
enum Halt<'a> {
    // This line of a log is wrong.
    Log {
        file: Place<'a>,
        line: u64,
        cause: LogCause,
    },
    // Memory ran out, or an output failed.
    Stop {
        file: Place<'a>,
        stop: Stop<'a>,
    },
    // This was said before.
    Said(Status),
}

/// Merges the files, and writes what was requested.
pub fn merge_files<'a, R: Runtime + AllocGlobal>(
    console: &Console<'a, R>,
    task: &MergeTask<'a>,
) -> Status {
    match read_whole(console, place_at(task.files.as_slice(), 0)) {
        Ok(first) if is_members_record(first.as_slice()) => merge_records(console, task, first),
        Ok(first) => merge_logs(console, task, first),
        Err(status) => status,
    }
}

// Merges logs, of which the first has this text.
fn merge_logs<'a, R: Runtime + AllocGlobal>(
    console: &Console<'a, R>,
    task: &MergeTask<'a>,
    first: Vec<u8>,
) -> Status {
    let halt = match read_logs(console, task.files.as_slice(), first) {
        Ok(gathered) => match merge_gathered(console, task, &gathered) {
            Ok(summary) => return status_of(summary),
            Err(halt) => halt,
        },
        Err(halt) => halt,
    };
    match halt {
        Halt::Log { file, line, cause } => {
            say_cause(console, file, line, cause);
            Status::Refused
        }
        Halt::Stop { file, stop } => tell_stop(console, stop, open_source(console, file)),
        Halt::Said(status) => status,
    }
}

// Says at which line of which log the merge ends.
fn say_cause<R: Runtime + AllocGlobal>(
    console: &Console<'_, R>,
    file: Place<'_>,
    line: u64,
    cause: LogCause,
) {
    let alloc = console.rt.alloc();
    if let Ok(name) = input_name(alloc, file) {
        console.say_if_made(format!(in alloc; "merge: {name}: line {line}: {cause}"));
    }
}

fn read_logs<'a, R: Runtime + AllocGlobal>(
    console: &Console<'a, R>,
    places: &[Place<'a>],
    first: Vec<u8>,
) -> Result<Gathered, Halt<'a>> {
    let alloc = console.rt.alloc();
    let mut first = Some(first);
    let mut logs = Vec::new(alloc);
    for place in places {
        let text = match read_after_first(console, &mut first, *place) {
            Ok(text) => text,
            Err(status) => return Err(Halt::Said(status)),
        };
        let log = log_of(console, *place, text.as_slice())?;
        if logs.push(log).is_err() {
            return Err(stopped_by(*place, TextFault::Memory));
        }
    }
    match gather(alloc, logs) {
        Ok(gathered) => Ok(gathered),
        Err(fault) => Err(halt_of(places, fault)),
    }
}

fn log_of<'a, R: Runtime + AllocGlobal>(
    console: &Console<'a, R>,
    place: Place<'a>,
    text: &[u8],
) -> Result<FileLog, Halt<'a>> {
    match read_log(console.rt.alloc(), text) {
        Ok(log) => Ok(log),
        Err(LogFault::Memory) => Err(stopped_by(place, TextFault::Memory)),
        Err(LogFault::Line { line, cause }) => Err(Halt::Log {
            file: place,
            line,
            cause,
        }),
    }
}

fn stopped_by<'a>(file: Place<'a>, fault: TextFault) -> Halt<'a> {
    Halt::Stop {
        file,
        stop: Stop::Fault(fault),
    }
}

fn halt_of<'a>(places: &[Place<'a>], fault: MergeFault) -> Halt<'a> {
    match fault {
        MergeFault::Line { file, line, cause } => Halt::Log {
            file: place_at(places, file),
            line,
            cause,
        },
        MergeFault::Memory => stopped_by(Place::Standard, TextFault::Memory),
    }
}

fn place_at<'a>(places: &[Place<'a>], file: usize) -> Place<'a> {
    match places.get(file) {
        Some(place) => *place,
        None => Place::Standard,
    }
}

fn merge_gathered<'a, R: Runtime + AllocGlobal>(
    console: &Console<'a, R>,
    task: &MergeTask<'a>,
    gathered: &Gathered,
) -> Result<Summary, Halt<'a>> {
    let alloc = console.rt.alloc();
    let merged = match merge_steps(alloc, gathered.config, gathered.logs.as_slice()) {
        Ok(merged) => merged,
        Err(misfit) => return Err(halt_of(task.files.as_slice(), locate(gathered, misfit))),
    };
    match write_all(console, &task.places, gathered, &merged) {
        Ok(summary) => Ok(summary),
        Err(stop) => Err(Halt::Stop {
            file: Place::Standard,
            stop,
        }),
    }
}

// Writes what was requested, as `live` does.
fn write_all<'a, R: Runtime + AllocGlobal>(
    console: &Console<'a, R>,
    places: &RunPlaces<'a>,
    gathered: &Gathered,
    merged: &Merged,
) -> Result<Summary, Stop<'a>> {
    let mut outputs = match open_outputs(console, summary_target(places), places) {
        Ok(outputs) => outputs,
        Err(fault) => return Err(Stop::Fault(fault)),
    };
    let written = put_texts(console, &mut outputs, gathered, merged);
    let is_whole = matches!(written, Ok(_) | Err(TextFault::Write));
    let kept = keep_outputs(console, outputs, places, is_whole);
    warn_of_lengths(console, kept);
    match (written, kept.stop) {
        (Ok(summary), None) => Ok(summary),
        (Ok(_) | Err(TextFault::Write), Some(stop)) => Err(stop),
        (Err(fault), _) => Err(Stop::Fault(fault)),
    }
}

fn put_texts<'a, R: Runtime + AllocGlobal>(
    console: &Console<'a, R>,
    outputs: &mut Outputs<'a, R>,
    gathered: &Gathered,
    merged: &Merged,
) -> Result<Summary, TextFault>
    requires { AreSound outputs.old }
{
    let alloc = console.rt.alloc();
    let record = record_of(alloc, &gathered.config, merged)?;
    let verdict = judge_record(alloc, record.as_slice())?;
    let rest = merged.world.at_rest();
    let summary = summary_of(alloc, gathered, &merged.world, rest, verdict)?;
    let record = put_wanted(&mut outputs.record, record.as_slice());
    let replay = put_replay(&mut outputs.replay, gathered, merged);
    let told = put_bytes(&mut outputs.summary, summary.as_slice());
    record?;
    replay?;
    told?;
    Ok(Summary { rest, verdict })
}

fn put_replay<W: Write>(
    wanted: &mut Option<Meter<W>>,
    gathered: &Gathered,
    merged: &Merged,
) -> Result<(), TextFault>
    requires { IsSound wanted.old }
{
    match wanted {
        Some(writer) => put_script(writer, gathered, merged),
        None => Ok(()),
    }
}

fn put_script<W: Write>(
    writer: &mut Meter<W>,
    gathered: &Gathered,
    merged: &Merged,
) -> Result<(), TextFault>
    requires { writer.old.failed ≡ false }
{
    match write_script(&gathered.config, merged.events.as_slice(), writer) {
        Ok(()) => Ok(()),
        Err(_) => Err(TextFault::Write),
    }
}
