//! The summary of a group that ran: how each node ended, how many items it delivered from each, whether the group is at
//! rest, and the verdict on the record.
ghost use Rattle.std.specs.Prelude.{◌≡◌, ◌<◌, ◌++◌, false, IfOk, OnOk, codes, decimal, length};
ghost use Rattle.cast_model.specs.History.{History};
ghost use Rattle.cast_model.specs.Delivery.{delivered};
ghost use Rattle.cast_model.specs.Replies.{history};
ghost use Rattle.cast_world.specs.Group.{Stands};
ghost use Rattle.cast_record.specs.Written.{Puts};
ghost use Rattle.cast_live.specs.Live.{IsFinished, ends_of, end_word, end_text, node_text, nodes_text, rest_text, summary_of};

use crate::live::FinishedRun;
use cast_judge::Verdict;
use cast_message::{Config, NodeId};
use cast_node::{EngineEnd, NodeReport};
use cast_record::{Meter, Written, write_bytes, write_number, write_verdict};
use cast_world::World;
use std::io::Write;

/// What is reported of a group that ran.
#[derive(Clone, Copy)]
pub struct Summary {
    /// Whether no live node owes a live node anything after the merged events.
    pub rest: bool,
    /// The judge's verdict on the record of the merged events.
    pub verdict: Verdict,
}

/// Writes the summary of the run. It allocates nothing. It fails only if the writer failed or took no byte; then it has
/// a prefix of the text.
pub fn write_summary<W: Write>(run: &FinishedRun, writer: &mut Meter<W>) -> Written
    requires run { IsFinished run.now }
    requires writer { writer.old.failed ≡ false }
    ensures { Puts W.contents writer.old writer.new result (summary_of run.now) }
{
    write_nodes(
        run.report.config(),
        &run.world,
        run.report.reports(),
        writer,
    )?;
    write_bytes(rest_line(run.summary.rest), writer)?;
    write_bytes(b"verdict ", writer)?;
    write_verdict(run.summary.verdict, writer)
}

fn write_nodes<W: Write>(
    config: &Config,
    world: &World,
    reports: &[NodeReport],
    writer: &mut Meter<W>,
) -> Written
    requires size { length reports.now ≡ config.now.nodes }
    requires writer { writer.old.failed ≡ false }
    ensures sound { OnOk result (writer.new.failed ≡ false) }
    ensures text { (past : History) → Stands config.now past world.now →
        Puts W.contents writer.old writer.new result
        (nodes_text config.now past 0 (ends_of reports.now)) }
{
    for (node, report) in reports.iter().enumerate() {
        write_node(config, world, node as u8, report.ended, writer)?;
    }
    Ok(())
}

// How the node ended, and how many items it delivered from each node.
fn write_node<W: Write>(
    config: &Config,
    world: &World,
    node: u8,
    ended: EngineEnd,
    writer: &mut Meter<W>,
) -> Written
    requires node { node < config.now.nodes }
    requires writer { writer.old.failed ≡ false }
    ensures sound { OnOk result (writer.new.failed ≡ false) }
    ensures text { (past : History) → Stands config.now past world.now →
        Puts W.contents writer.old writer.new result
        (node_text config.now past node ended) }
{
    write_end(u64::from(node), ended, writer)?;
    let nodes = config.nodes() as u8;
    for sender in 0..nodes {
        write_count(delivered_count(config, world, node, sender), writer)?;
    }
    write_bytes(b"\n", writer)
}

// The number of a node, and how it ended.
fn write_end<W: Write>(node: u64, ended: EngineEnd, writer: &mut Meter<W>) -> Written
    requires { writer.old.failed ≡ false }
    ensures { Puts W.contents writer.old writer.new result (end_text node ended) }
{
    write_bytes(b"node ", writer)?;
    write_number(node, writer)?;
    write_bytes(b" ", writer)?;
    write_bytes(end_name(ended), writer)
}

// A number of deliveries, after a blank.
fn write_count<W: Write>(count: u64, writer: &mut Meter<W>) -> Written
    requires { writer.old.failed ≡ false }
    ensures { Puts W.contents writer.old writer.new result (codes " " ++ decimal count) }
{
    write_bytes(b" ", writer)?;
    write_number(count, writer)
}

fn delivered_count(config: &Config, world: &World, node: u8, sender: u8) -> u64
    requires node { node < config.now.nodes }
    requires sender { sender < config.now.nodes }
    ensures { (past : History) → Stands config.now past world.now →
        result ≡ length (delivered config.now past node sender) }
{
    // This tells the prover that there are at most 64.
    let _nodes = config.nodes();
    match world.delivered(NodeId(node), NodeId(sender)) {
        Some(items) => items.len() as u64,
        None => 0,
    }
}

fn end_name(ended: EngineEnd) -> &'static [u8]
    ensures { result.now ≡ end_word ended }
{
    match ended {
        EngineEnd::Stopped => b"stopped",
        EngineEnd::Crashed => b"crashed",
        EngineEnd::TurnLimit => b"turnlimit",
        EngineEnd::LogFull => b"logfull",
        EngineEnd::ClockFull => b"clockfull",
    }
}

fn rest_line(rest: bool) -> &'static [u8]
    ensures { result.now ≡ rest_text rest }
{
    if rest { b"rest yes\n" } else { b"rest no\n" }
}
