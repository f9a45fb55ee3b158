//! The record of a run, and that of the script that says what happened in it.
ghost use Rattle.std.specs.Prelude.{◌≡◌, ◌^◌, ◌<◌, false, length, IfErr};
ghost use Rattle.std.specs.List.{All};
ghost use Rattle.cast_record.specs.Lines.{lines_for};
ghost use Rattle.cast_record.specs.Text.{record_text};
ghost use Rattle.cast_text.specs.Ranges.{HasEventRange};
ghost use Rattle.cast_text.specs.Text.{Puts};
ghost use Rattle.cast_merge.specs.ByStamp.{merged_events};
ghost use Rattle.cast_live.specs.Replayed.{record_of_accepted, RecordsReplay};

use crate::walk::{next_index, take_step};
use cast_merge::MergedEvents;
use cast_message::{Config, Event, Reply};
use cast_node::GroupReport;
use cast_record::{Line, Meter, write_lines_of};
use cast_script::is_read_back;
use cast_text::{TextFault, put_head, put_line, tell_event_range};
use cast_world::World;
use std::alloc::Global;
use std::io::Write;

/// A law; it computes nothing. `write_script` writes a script for this configuration and these events. If it is not too
/// long for an input, running it writes the record that `write_run_record` writes for them and the replies to them.
/// That record is good, and if all events are accepted, no line of it is a refusal.
pub fn is_replayed(config: &Config, events: &[Event])
    ensures law { RecordsReplay config.now events.now }
{
    is_read_back(config, events);
    tell_event_ranges(events);
}

fn tell_event_ranges(events: &[Event])
    ensures ranges { All HasEventRange events.now }
    ensures few { length events.now < 2 ^ 64 }
{
    // This tells the prover that there are fewer than 2^64.
    let _count = events.len();
    for event in events {
        tell_event_range(event);
    }
}

/// Writes the record of a run: its head, the lines of its merged events, which the group takes once more, and its end.
/// After a writer's fault or out of memory, a prefix was written.
pub fn write_run_record<W: Write>(
    alloc: Global,
    report: &GroupReport,
    writer: &mut Meter<W>,
) -> Result<(), TextFault>
    requires { writer.old.failed ≡ false }
    ensures { Puts W.contents writer.old writer.new result (record_text
        (record_of_accepted report.now.config (merged_events report.now.reports))) }
{
    let config = report.config();
    let mut world = World::new(alloc, *config)?;
    let mut merged = MergedEvents::new(alloc, report)?;
    put_head(config, writer)?;
    let mut index = 0;
    'events: while let Some(event) = merged.take_next()? {
        let reply = take_step(&mut world, &event)?;
        put_lines(index, &event, &reply, writer)?;
        // (calls, since otherwise each kind of event and reply is a case of its own for the prover)
        drop(event);
        drop(reply);
        index = next_index(index)?;
    }
    put_line(&Line::End, writer)
}

fn put_lines<W: Write>(
    index: u64,
    event: &Event,
    reply: &Reply,
    writer: &mut Meter<W>,
) -> Result<(), TextFault>
    requires { writer.old.failed ≡ false }
    ensures text { Puts W.contents writer.old writer.new result
        (record_text (lines_for index event.now reply.now)) }
    ensures fault { IfErr result (λ fault. fault ≡ TextFault.Write) }
{
    write_lines_of(index, event, reply, writer)?;
    Ok(())
}
