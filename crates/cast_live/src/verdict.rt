//! The verdict on the record of a run. The group takes its merged events, and the judge judges them, one after another.
//! Neither the events, the replies nor the text are kept.
ghost use Rattle.std.specs.Prelude.{◌≡◌, ℕ, ◌++◌, List, IfOk, OnOk};
ghost use Rattle.cast_message.specs.declared.config.Config.{Config as Settings};
ghost use Rattle.cast_model.specs.History.{History};
ghost use Rattle.cast_model.specs.Replies.{after, history, reply};
ghost use Rattle.cast_text.specs.Ranges.{HasEventRange};
ghost use Rattle.cast_record.specs.Lines.{lines_for};
ghost use Rattle.cast_record.specs.Text.{record_text};
ghost use Rattle.cast_world.specs.Group.{Stands as StandsFor};
ghost use Rattle.cast_judge.specs.Judged.{Stands};
ghost use Rattle.cast_merge.specs.ByStamp.{merged_events};

use crate::walk::{next_index, take_step};
use cast_judge::{Judging, Verdict};
use cast_merge::MergedEvents;
use cast_message::{Event, Reply};
use cast_node::GroupReport;
use cast_record::{Line, Meter, write_lines_of, write_record};
use cast_text::tell_event_range;
use cast_world::World;
use std::alloc::{AllocError, Global};

/// The group after the merged events of the logs, and the verdict on their record, which is good; or out of memory. The
/// judge gets the lines of one event after another.
pub fn judge_run(alloc: Global, report: &GroupReport) -> Result<(World, Verdict), AllocError>
    ensures stands { IfOk result (λ told. StandsFor report.now.config
        (history report.now.config (merged_events report.now.reports)) told.0) }
    ensures good { IfOk result (λ told. told.1 ≡ Verdict.Good) }
{
    let config = report.config();
    let mut world = World::new(alloc, *config)?;
    let mut judging = Judging::new(alloc);
    feed_lines(alloc, &mut judging, &[Line::head(config)])?;
    let mut merged = MergedEvents::new(alloc, report)?;
    let mut index = 0;
    'events: while let Some(event) = merged.take_next()? {
        judge_event(alloc, &mut world, &mut judging, index, &event)?;
        // (a call, since otherwise each kind of event is a case of its own for the prover)
        drop(event);
        index = next_index(index)?;
    }
    feed_lines(alloc, &mut judging, &[Line::End])?;
    let verdict = judging.finish()?;
    Ok((world, verdict))
}

// Lets the group take an event, and the judge its lines. Most events have none, and for them the group has a shorter
// way.
fn judge_event(
    alloc: Global,
    world: &mut World,
    judging: &mut Judging,
    index: u64,
    event: &Event,
) -> Result<(), AllocError>
    ensures stands { (config : Settings) (past : History) → StandsFor config past world.old →
        OnOk result (StandsFor config (after config past event.now) world.new) }
    ensures judged { (config : Settings) (past : History) → StandsFor config past world.old →
        (text : List ℕ) → Stands text judging.old → OnOk result (Stands
        (text ++ record_text (lines_for index event.now (reply config past event.now)))
        judging.new) }
    ensures range { OnOk result (HasEventRange event.now) }
{
    tell_event_range(event);
    if world.step_if_silent(event) {
        return Ok(());
    }
    let reply = take_step(world, event)?;
    feed_event(alloc, judging, index, event, &reply)
}

// Feeds the judge the lines of an event and its reply, without copying a message.
fn feed_event(
    alloc: Global,
    judging: &mut Judging,
    index: u64,
    event: &Event,
    reply: &Reply,
) -> Result<(), AllocError>
    ensures { (text : List ℕ) → Stands text judging.old →
        OnOk result (Stands (text ++ record_text (lines_for index event.now reply.now))
        judging.new) }
{
    let mut meter = Meter::new(Vec::new(alloc));
    if write_lines_of(index, event, reply, &mut meter).is_err() {
        return Err(AllocError);
    }
    feed(judging, meter.into_inner().as_slice())
}

// Feeds the judge the text of these lines.
fn feed_lines(alloc: Global, judging: &mut Judging, lines: &[Line]) -> Result<(), AllocError>
    ensures { (text : List ℕ) → Stands text judging.old →
        OnOk result (Stands (text ++ record_text lines.now) judging.new) }
{
    let mut meter = Meter::new(Vec::new(alloc));
    if write_record(lines, &mut meter).is_err() {
        return Err(AllocError);
    }
    feed(judging, meter.into_inner().as_slice())
}

// Feeds the judge a text. If all texts reach 2^63 bytes, it reports out of memory.
fn feed(judging: &mut Judging, text: &[u8]) -> Result<(), AllocError>
    ensures { (fed : List ℕ) → Stands fed judging.old →
        OnOk result (Stands (fed ++ text.now) judging.new) }
{
    if text.len() as u64 >= judging.room() {
        return Err(AllocError);
    }
    judging.feed(text)
}
