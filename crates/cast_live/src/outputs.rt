//! Where the texts of a run go: its summary and, if requested, its record and the script that replays it.
ghost use Rattle.std.specs.Prelude.{◌≡◌, ◌⊎◌, true, false, Err, IfErr, IsOk, IsSome, OnOk, OnErr};
ghost use Rattle.cast_record.specs.Text.{record_text};
ghost use Rattle.cast_script.specs.Replay.{script_text};
ghost use Rattle.cast_text.specs.Text.{Puts};
ghost use Rattle.cast_live.specs.Live.{IsFinished, events_of, summary_of};
ghost use Rattle.cast_live.specs.Outputs.{AreSound, IsSound, GotTexts, PutsWanted, FailsIn};
ghost use Rattle.cast_live.specs.Replayed.{record_of_accepted, RecordsReplay};

use crate::live::FinishedRun;
use crate::replay::{is_replayed, write_run_record};
use crate::summary::write_summary;
use cast_merge::merge_events;
use cast_record::Meter;
use cast_script::write_script;
use cast_text::TextFault;
use std::alloc::Global;
use std::io::Write;

#[derive(Drop)]
pub struct RunOutputs<S, F> {
    pub summary: Meter<S>,
    /// The record of what happened, if requested.
    pub record: Option<Meter<F>>,
    /// The script that says what happened, if requested.
    pub replay: Option<Meter<F>>,
}

impl<S: Write, F: Write> RunOutputs<S, F> {
    /// Writes the requested texts: the record, the replay, the summary. If one fails, the others are still written. Out
    /// of memory is reported before a failed writer.
    pub fn write(&mut self, alloc: Global, run: &FinishedRun) -> Result<(), TextFault>
        requires run { IsFinished run.now }
        requires writers { AreSound self.old }
        ensures whole { OnOk result
            (GotTexts S.contents F.contents self.old self.new true run.now) }
        ensures front { OnErr result
            (GotTexts S.contents F.contents self.old self.new false run.now) }
        ensures fault { IfErr result (FailsIn self.new) }
        ensures law { OnOk result (IsSome self.old.replay
            → RecordsReplay run.now.report.config (events_of run.now)) }
    {
        let record = put_record(alloc, run, &mut self.record);
        let replay = put_replay(alloc, run, &mut self.replay);
        let summary = put_summary(run, &mut self.summary);
        memory_first(record, memory_first(replay, summary))
    }
}

// The first fault, unless the other result is out of memory.
fn memory_first(one: Result<(), TextFault>, other: Result<(), TextFault>) -> Result<(), TextFault>
    ensures ok { OnOk result (IsOk one × IsOk other) }
    ensures err { IfErr result (λ fault. (one ≡ Err fault) ⊎ (other ≡ Err fault)) }
{
    match other {
        Err(TextFault::Memory) => other,
        _ => one.and(other),
    }
}

fn put_record<F: Write>(
    alloc: Global,
    run: &FinishedRun,
    wanted: &mut Option<Meter<F>>,
) -> Result<(), TextFault>
    requires { IsSound wanted.old }
    ensures { PutsWanted F.contents wanted.old wanted.new result
        (record_text (record_of_accepted run.now.report.config (events_of run.now))) }
{
    match wanted {
        Some(writer) => write_run_record(alloc, &run.report, writer),
        None => Ok(()),
    }
}

fn put_replay<F: Write>(
    alloc: Global,
    run: &FinishedRun,
    wanted: &mut Option<Meter<F>>,
) -> Result<(), TextFault>
    requires { IsSound wanted.old }
    ensures text { PutsWanted F.contents wanted.old wanted.new result
        (script_text run.now.report.config (events_of run.now)) }
    ensures law { OnOk result (IsSome wanted.old
        → RecordsReplay run.now.report.config (events_of run.now)) }
{
    match wanted {
        Some(writer) => write_replay_of(alloc, run, writer),
        None => Ok(()),
    }
}

fn put_summary<S: Write>(run: &FinishedRun, writer: &mut Meter<S>) -> Result<(), TextFault>
    requires run { IsFinished run.now }
    requires writer { writer.old.failed ≡ false }
    ensures { Puts S.contents writer.old writer.new result (summary_of run.now) }
{
    write_summary(run, writer)?;
    Ok(())
}

// Writes the script that says what happened in the run: its configuration and the list of merged events, which it
// makes. After a writer's fault, a prefix was written; after out of memory, nothing.
fn write_replay_of<W: Write>(
    alloc: Global,
    run: &FinishedRun,
    writer: &mut Meter<W>,
) -> Result<(), TextFault>
    requires { writer.old.failed ≡ false }
    ensures text { Puts W.contents writer.old writer.new result
        (script_text run.now.report.config (events_of run.now)) }
    // Running that script, if it is not too long for an input, writes the record of the run, in which no line is a
    // refusal.
    ensures law { OnOk result (RecordsReplay run.now.report.config (events_of run.now)) }
{
    let config = run.report.config();
    let events = merge_events(alloc, run.report.reports())?;
    is_replayed(config, events.as_slice());
    write_script(config, events.as_slice(), writer)?;
    Ok(())
}
