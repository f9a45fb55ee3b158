//! Remarks on a call that succeeds, if standard error gets more than the fixed texts.
use crate::console::Console;
use crate::explain::input_name;
use crate::input::Source;
use cast_command::{LiveTask, Place, Refusals, Taken, aside_words, refused_words, twice_words};
use cast_live::FinishedRun;
use std::alloc::{AllocError, Global};
use std::fs;
use std::os::unix::fs::MetadataExt;
use std::rt::Runtime;

/// Says which lists of a script the command ignored, which member occurs twice, and which event was refused first.
pub fn remark_on_script<R: Runtime + AllocGlobal>(
    console: &Console<'_, R>,
    source: Source<'_, R::File, R::Reader>,
    taken: Taken,
    refusals: Option<Refusals>,
) {
    if !console.explains {
        return;
    }
    let alloc = console.rt.alloc();
    let place = source.place();
    let Some(bytes) = source.into_bytes(console.rt) else {
        return;
    };
    say_of(console, place, aside_words(alloc, bytes.as_slice(), taken));
    say_of(console, place, twice_words(alloc, bytes.as_slice()));
    if let Some(refusals) = refusals {
        let words = refused_words(alloc, bytes.as_slice(), refusals);
        say_of(console, place, words.map(Some));
    }
}

// Writes these words about an input, if there are any.
fn say_of<R: Runtime + AllocGlobal>(
    console: &Console<'_, R>,
    place: Place<'_>,
    words: Result<Option<String>, AllocError>,
) {
    if let Ok(Some(words)) = words {
        console.say_if_made(named_words(console.rt.alloc(), place, &words));
    }
}

fn named_words(alloc: Global, place: Place<'_>, words: &String) -> Result<String, AllocError> {
    let name = input_name(alloc, place)?;
    format!(in alloc; "{name}: {words}")
}

/// Says how many orders a run left in desks and refused, if there are any.
pub fn remark_on_orders<R: Runtime + AllocGlobal>(console: &Console<'_, R>, run: &FinishedRun) {
    if !console.explains {
        return;
    }
    let left = run.left;
    let refused = run.count_refused();
    if left > 0 || refused > 0 {
        console.say_if_made(format!(in console.rt.alloc();
            "orders that no node took up: {left} left in desks, {refused} refused"
        ));
    }
}

/// Says if an output of a run is the script that is read, and returns whether it is.
pub fn remark_on_overwriting<R: Runtime + AllocGlobal>(
    console: &Console<'_, R>,
    task: &LiveTask<'_>,
) -> bool {
    let mut is_overwritten = false;
    let places = &task.places;
    for (option, place) in [
        ("--record", places.record),
        ("--replay", places.replay),
        ("--draw", places.picture),
    ] {
        let Some(Place::File(path)) = place else {
            continue;
        };
        if is_same_file(console.rt, task.script, path) {
            is_overwritten = true;
            let words = format!(in console.rt.alloc();
                "{option} writes over the script that is read"
            );
            say_of(console, Place::File(path), words.map(Some));
        }
    }
    is_overwritten
}

// Whether the script is in the file with this name.
fn is_same_file<R: Runtime>(rt: &R, script: Place<'_>, path: &str) -> bool {
    let read = match script {
        Place::File(read) => read,
        Place::Standard => "/dev/stdin",
    };
    match (fs::metadata(rt, read), fs::metadata(rt, path)) {
        (Ok(read), Ok(written)) => {
            written.is_file() && read.dev() == written.dev() && read.ino() == written.ino()
        }
        _ => false,
    }
}
