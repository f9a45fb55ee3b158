//! What a page steps through, as lines of words: the events that are shown, and what each changes at a node.
//!
//! | line | what it says |
//! |---|---|
//! | `r CODE WORDS` | what a refusal with this code means |
//! | `g N` | the group has N nodes |
//! | `n P C ..` | before the first step node P has delivered this many items of each sender |
//! | `c P` | before the first step node P has crashed |
//! | `e E X EVENT = REPLY` | a step: event E of the script, whose column is at X, was accepted |
//! | `e E X EVENT ! CODE` | a step: it was refused |
//! | `d P S I` | the step delivers item I of S at node P |
//! | `v P J W` | the step, or an event before the first, decides W in J at node P |
//! | `w P C ..` | from here on node P owes each node this many slots |
//!
//! An event is written as in a script, and its item as in a record: `order P ITEM`, `send P Q SLOT`,
//! `ack P Q SLOT`, `arrive P SEQ` or `crash P`. A reply is the number of the item or of the frame, or the node at which the
//! frame arrives. No line has a letter with a meaning in HTML.
use crate::ink::Ink;
use crate::ink::Piece::{Number, Text, Word};
use crate::window::Window;
use cast_message::{Answer, Config, Decision, Event, Message, NodeId, Outcome, REFUSALS, Reply};
use cast_world::{World, is_want_of_memory};
use std::alloc::{AllocError, Global};

/// The steps of a page as they grow. A world takes the same events, and shows what they change.
#[derive(Drop)]
pub struct Steps {
    lines: Ink,
    world: World,
    nodes: u8,
    window: Window,
    has_begun: bool,
}

impl Steps {
    /// No steps of a group in which nothing has happened.
    pub fn new(alloc: Global, config: &Config, window: Window) -> Result<Steps, AllocError> {
        let mut lines = Ink::new(alloc);
        put_refusals(&mut lines)?;
        lines.put(&[Text(b"g "), Number(config.nodes()), Text(b"\n")])?;
        Ok(Steps {
            lines,
            world: World::new(alloc, *config)?,
            nodes: config.nodes() as u8,
            window,
            has_begun: false,
        })
    }

    /// The lines so far.
    pub fn as_slice(&self) -> &[u8] {
        self.lines.as_slice()
    }

    /// Takes an event, whose column is at `x`, and the reply to it.
    pub fn take(
        &mut self,
        index: u64,
        x: u64,
        event: &Event,
        reply: &Reply,
    ) -> Result<(), AllocError> {
        let is_shown = self.window.shows(index);
        if is_shown {
            self.begin()?;
        }
        if is_want_of_memory(&self.world.step(event)) {
            return Err(AllocError);
        }
        if is_shown {
            self.put_step(index, x, event, reply)
        } else {
            self.put_earlier(event, reply)
        }
    }

    /// Writes once what the nodes have delivered and owe before the first step.
    pub fn begin(&mut self) -> Result<(), AllocError> {
        if self.has_begun {
            return Ok(());
        }
        self.has_begun = true;
        for node in 0..self.nodes {
            self.put_delivered(NodeId(node))?;
            self.put_owed(NodeId(node))?;
        }
        Ok(())
    }

    fn put_delivered(&mut self, node: NodeId) -> Result<(), AllocError> {
        if !self.world.live(node) {
            self.lines
                .put(&[Text(b"c "), Number(u64::from(node.0)), Text(b"\n")])?;
        }
        self.lines.put(&[Text(b"n "), Number(u64::from(node.0))])?;
        for sender in 0..self.nodes {
            let count = delivered_count(&self.world, node, NodeId(sender));
            self.lines.put(&[Text(b" "), Number(count)])?;
        }
        self.lines.put_bytes(b"\n")
    }

    fn put_owed(&mut self, node: NodeId) -> Result<(), AllocError> {
        self.lines.put(&[Text(b"w "), Number(u64::from(node.0))])?;
        for other in 0..self.nodes {
            let count = self.world.owed(node, NodeId(other)).unwrap_or(0);
            self.lines.put(&[Text(b" "), Number(count)])?;
        }
        self.lines.put_bytes(b"\n")
    }

    fn put_step(
        &mut self,
        index: u64,
        x: u64,
        event: &Event,
        reply: &Reply,
    ) -> Result<(), AllocError> {
        self.lines
            .put(&[Text(b"e "), Number(index), Text(b" "), Number(x)])?;
        put_event(&mut self.lines, event)?;
        put_reply(&mut self.lines, reply)?;
        let Some((node, outcome)) = outcome_of(event, reply) else {
            return Ok(());
        };
        put_deliveries(&mut self.lines, node, outcome.deliveries.as_slice())?;
        put_decisions(&mut self.lines, node, outcome.decisions.as_slice())?;
        self.put_owed(node)
    }

    // Decisions before the first step are written too, since a world doesn't list them.
    fn put_earlier(&mut self, event: &Event, reply: &Reply) -> Result<(), AllocError> {
        if self.has_begun {
            return Ok(());
        }
        match outcome_of(event, reply) {
            Some((node, outcome)) => {
                put_decisions(&mut self.lines, node, outcome.decisions.as_slice())
            }
            None => Ok(()),
        }
    }
}

fn put_refusals(lines: &mut Ink) -> Result<(), AllocError> {
    for fault in REFUSALS.iter() {
        lines.put(&[
            Text(b"r "),
            Number(fault.code()),
            Text(b" "),
            Text(fault.words().as_bytes()),
            Text(b"\n"),
        ])?;
    }
    Ok(())
}

fn delivered_count(world: &World, node: NodeId, sender: NodeId) -> u64 {
    match world.delivered(node, sender) {
        Some(items) => items.len() as u64,
        None => 0,
    }
}

// The outcome of an event and its node, if it can deliver there.
fn outcome_of<'a>(event: &Event, reply: &'a Reply) -> Option<(NodeId, &'a Outcome)> {
    match (event, reply) {
        (Event::Order { node, .. }, Ok(Answer::Ordered { outcome, .. })) => Some((*node, outcome)),
        (_, Ok(Answer::Arrived { node, outcome })) => Some((*node, outcome)),
        _ => None,
    }
}

fn put_event(lines: &mut Ink, event: &Event) -> Result<(), AllocError> {
    match event {
        Event::Order { node, item } => lines.put(&[
            Text(b" order "),
            Number(u64::from(node.0)),
            Text(b" "),
            Word(item),
        ]),
        Event::Send { from, to, slot } => put_link(lines, b" send ", *from, *to, *slot),
        Event::Ack { from, to, slot } => put_link(lines, b" ack ", *from, *to, *slot),
        Event::Arrive { from, seq } => lines.put(&[
            Text(b" arrive "),
            Number(u64::from(from.0)),
            Text(b" "),
            Number(*seq),
        ]),
        Event::Crash { node } => lines.put(&[Text(b" crash "), Number(u64::from(node.0))]),
    }
}

fn put_link<'a>(
    lines: &mut Ink,
    word: &'a [u8],
    from: NodeId,
    to: NodeId,
    slot: u64,
) -> Result<(), AllocError> {
    lines.put(&[
        Text(word),
        Number(u64::from(from.0)),
        Text(b" "),
        Number(u64::from(to.0)),
        Text(b" "),
        Number(slot),
    ])
}

fn put_reply(lines: &mut Ink, reply: &Reply) -> Result<(), AllocError> {
    let (sign, number) = match reply {
        Ok(Answer::Ordered { number, .. }) => (b" = ", *number),
        Ok(Answer::Sent { seq }) => (b" = ", *seq),
        Ok(Answer::Arrived { node, .. }) => (b" = ", u64::from(node.0)),
        Ok(Answer::Down) => (b" = ", 0),
        Err(fault) => (b" ! ", fault.code()),
    };
    lines.put(&[Text(sign), Number(number), Text(b"\n")])
}

fn put_deliveries(lines: &mut Ink, node: NodeId, deliveries: &[Message]) -> Result<(), AllocError> {
    for message in deliveries {
        lines.put(&[
            Text(b"d "),
            Number(u64::from(node.0)),
            Text(b" "),
            Number(u64::from(message.sender.0)),
            Text(b" "),
            Number(message.number),
            Text(b"\n"),
        ])?;
    }
    Ok(())
}

fn put_decisions(lines: &mut Ink, node: NodeId, decisions: &[Decision]) -> Result<(), AllocError> {
    for decision in decisions {
        lines.put(&[
            Text(b"v "),
            Number(u64::from(node.0)),
            Text(b" "),
            Number(decision.instance),
            Text(b" "),
            Number(decision.value),
            Text(b"\n"),
        ])?;
    }
    Ok(())
}
