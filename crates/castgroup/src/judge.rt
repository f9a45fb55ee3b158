//! The command `judge`: the verdict on each of several records.
use crate::console::Console;
use crate::explain::{Stop, done_and_written, input_name, tell_stop};
use crate::input::{Source, open_source};
use crate::output::{Target, finish, open_output};
use crate::status::Status;
use cast_command::{Place, verdict_words};
use cast_record::Meter;
use cast_text::{Verdict, judge_text};
use std::alloc::AllocError;
use std::io::{self, Write};
use std::rt::Runtime;

/// Writes the verdict on each record, after its name if there are several, and returns the worst status. If standard
/// output fails, the rest is not judged.
pub fn judge_records<R: Runtime + AllocGlobal>(
    console: &Console<'_, R>,
    records: &[Place<'_>],
) -> Status {
    let is_named = records.len() > 1;
    let mut worst = Status::Good;
    for record in records {
        let name = if is_named { Some(record.word()) } else { None };
        match judge_record(console, *record, name) {
            Ok(status) => worst = worst.or_worse(status),
            Err(status) => return worst.or_worse(status),
        }
    }
    worst
}

// Judges one record. An error comes from standard output.
fn judge_record<R: Runtime + AllocGlobal>(
    console: &Console<'_, R>,
    record: Place<'_>,
    name: Option<&str>,
) -> Result<Status, Status> {
    let mut source = open_source(console, record);
    match judge_source(console, &mut source, name) {
        Ok(Verdict::Good) => Ok(Status::Good),
        Ok(Verdict::Bad { line, rule }) => {
            explain_verdict(console, line, rule, source);
            Ok(Status::Bad)
        }
        Err(stop @ Stop::Output(_)) => Err(tell_stop(console, stop, source)),
        Err(stop) => Ok(tell_stop(console, stop, source)),
    }
}

fn judge_source<'a, R: Runtime + AllocGlobal>(
    console: &Console<'a, R>,
    source: &mut Source<'_, R::File, R::Reader>,
    name: Option<&str>,
) -> Result<Verdict, Stop<'a>> {
    let mut output = match open_output(console, Target::StandardOutput) {
        Ok(output) => output,
        Err(fault) => return Err(Stop::Fault(fault)),
    };
    let named = Named {
        name,
        inner: &mut output,
    };
    let done = judge_text(
        console.rt.alloc(),
        &mut Meter::new(source),
        &mut Meter::new(named),
    );
    done_and_written(done, finish(output))
}

/// Writes a name before the first byte, if there is one.
#[derive(Drop)]
struct Named<'a, W> {
    name: Option<&'a str>,
    inner: W,
}

impl<W: Write> Write for Named<'_, W> {
    fn write(&mut self, buf: &[u8]) -> io::Result<usize> {
        if let Some(name) = self.name.take() {
            self.inner.write_all(name.as_bytes())?;
            self.inner.write_all(b": ")?;
        }
        self.inner.write(buf)
    }

    fn flush(&mut self) -> io::Result<()> {
        self.inner.flush()
    }
}

// Says which line breaks which rule, if that is asked for.
fn explain_verdict<R: Runtime + AllocGlobal>(
    console: &Console<'_, R>,
    line: u64,
    rule: u64,
    source: Source<'_, R::File, R::Reader>,
) {
    if console.explains {
        if let Ok(Some(words)) = offending_words(console.rt, line, rule, source) {
            console.say(words.as_str());
        }
    }
}

fn offending_words<R: Runtime + AllocGlobal>(
    rt: &R,
    line: u64,
    rule: u64,
    source: Source<'_, R::File, R::Reader>,
) -> Result<Option<String>, AllocError> {
    let alloc = rt.alloc();
    let name = input_name(alloc, source.place())?;
    let Some(bytes) = source.into_bytes(rt) else {
        return Ok(None);
    };
    let words = verdict_words(alloc, bytes.as_slice(), line, rule)?;
    Ok(Some(format!(in alloc; "{name}: {words}")?))
}
