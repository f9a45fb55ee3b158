//! The commands that read one text and write another: `run`, `migrate` and `draw`.
use crate::console::Console;
use crate::explain::{Stop, done_and_written, tell_stop};
use crate::input::{Source, open_source};
use crate::output::{Target, finish, open_output};
use crate::refusals::RefusalWatch;
use crate::remarks::remark_on_script;
use crate::status::Status;
use cast_command::{Place, Refusals, Taken};
use cast_record::Meter;
use cast_text::{Window, draw_text, migrate_text, page_text, run_text};
use std::rt::Runtime;

#[derive(Clone, Copy)]
pub enum TextCommand {
    /// Writes the record of a script.
    Run,
    /// Writes a record with the new head.
    Migrate,
    /// Writes the picture of a script's events in this window.
    Draw(Window),
    /// Writes a page with this picture that steps through the run.
    Page(Window),
}

/// Reads the text at this place, and writes what the command makes of it to standard output.
pub fn write_text<R: Runtime + AllocGlobal>(
    console: &Console<'_, R>,
    command: TextCommand,
    place: Place<'_>,
) -> Status {
    let mut source = open_source(console, place);
    match make_text(console, command, &mut source) {
        Ok(refusals) => {
            remark(console, command, source, refusals);
            Status::Good
        }
        Err(stop) => tell_stop(console, stop, source),
    }
}

// Makes remarks on a script that was accepted.
fn remark<R: Runtime + AllocGlobal>(
    console: &Console<'_, R>,
    command: TextCommand,
    source: Source<'_, R::File, R::Reader>,
    refusals: Option<Refusals>,
) {
    let from = match command {
        TextCommand::Migrate => return,
        TextCommand::Run => 0,
        TextCommand::Draw(window) | TextCommand::Page(window) => window.from,
    };
    remark_on_script(console, source, Taken::Events { from }, refusals);
}

// Makes the text, and returns which events were refused, if that is to be said.
fn make_text<'a, R: Runtime + AllocGlobal>(
    console: &Console<'a, R>,
    command: TextCommand,
    source: &mut Source<'_, R::File, R::Reader>,
) -> Result<Option<Refusals>, Stop<'a>> {
    let alloc = console.rt.alloc();
    let mut output = match open_output(console, Target::StandardOutput) {
        Ok(output) => output,
        Err(fault) => return Err(Stop::Fault(fault)),
    };
    let reader = &mut Meter::new(source);
    if console.explains && matches!(command, TextCommand::Run) {
        let mut watched = Meter::new(RefusalWatch::new(&mut output));
        let done = run_text(alloc, reader, &mut watched);
        let refusals = watched.into_inner().refusals();
        done_and_written(done, finish(output))?;
        return Ok(refusals);
    }
    let writer = &mut Meter::new(&mut output);
    let done = match command {
        TextCommand::Run => run_text(alloc, reader, writer),
        TextCommand::Migrate => migrate_text(alloc, reader, writer),
        TextCommand::Draw(window) => draw_text(alloc, window, reader, writer),
        TextCommand::Page(window) => page_text(alloc, window, reader, writer),
    };
    done_and_written(done, finish(output))?;
    Ok(None)
}
