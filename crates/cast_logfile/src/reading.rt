//! Reads the text of a log.
use crate::fault::{LogCause, LogFault};
use crate::file_log::{FileLog, LoggedStep};
use crate::log_words::LogWords;
use cast_message::{Config, Decision, Event, Item, List, Message, NodeId, Outcome, Settings};
use cast_record::mode_named;
use std::alloc::{AllocError, Global};

// The first line of a log.
#[derive(Drop)]
struct LogHead {
    config: Config,
    group: u64,
    me: NodeId,
}

#[derive(Drop)]
struct LogReader {
    alloc: Global,
    head: Option<LogHead>,
    steps: Vec<LoggedStep>,
    // The last stamp.
    stamp: Option<u64>,
    // Nothing may follow, because the log's end or the node's crash was read.
    is_closed: bool,
    has_ended: bool,
}

/// The log with this text, or the first wrong line. Bytes after the last line feed are not a line. A log without an end
/// gets a crash after its last step.
pub fn read_log(alloc: Global, text: &[u8]) -> Result<FileLog, LogFault> {
    let mut reader = LogReader {
        alloc,
        head: None,
        steps: Vec::new(alloc),
        stamp: None,
        is_closed: false,
        has_ended: false,
    };
    let mut line = 1u64;
    let mut start = 0usize;
    for (place, byte) in text.iter().enumerate() {
        if *byte == b'\n' {
            if let Some(words) = text.get(start..place) {
                reader.take_line(line, words)?;
            }
            start = place.saturating_add(1);
            line = line.saturating_add(1);
        }
    }
    reader.finish(line)
}

impl LogReader {
    fn take_line(&mut self, line: u64, words: &[u8]) -> Result<(), LogFault> {
        let me = match &self.head {
            Some(head) => head.me,
            None => return self.take_head(line, words),
        };
        if self.is_closed {
            return Err(fault(line, LogCause::AfterEnd));
        }
        if words == b"end".as_slice() {
            self.is_closed = true;
            self.has_ended = true;
            return Ok(());
        }
        self.take_entry(line, me, words)
    }

    fn take_head(&mut self, line: u64, words: &[u8]) -> Result<(), LogFault> {
        match head_of(words) {
            Some(head) => {
                self.head = Some(head);
                Ok(())
            }
            None => Err(fault(line, LogCause::Head)),
        }
    }

    fn take_entry(&mut self, line: u64, me: NodeId, words: &[u8]) -> Result<(), LogFault> {
        let mut words = LogWords::of(words);
        let Some(stamp) = words.number() else {
            return Err(fault(line, LogCause::Form));
        };
        if self.stamp.is_some_and(|last| stamp <= last) {
            return Err(fault(line, LogCause::Stamp));
        }
        self.stamp = Some(stamp);
        let Some(entry) = entry_of(self.alloc, me, &mut words)? else {
            return Err(fault(line, LogCause::Form));
        };
        let Some(outcome) = outcome_of(self.alloc, &mut words)? else {
            return Err(fault(line, LogCause::Form));
        };
        if let Entry::Step(event) = entry {
            self.is_closed = matches!(event, Event::Crash { .. });
            let step = LoggedStep {
                stamp,
                line,
                event,
                outcome,
            };
            if self.steps.push(step).is_err() {
                return Err(LogFault::Memory);
            }
        }
        Ok(())
    }

    fn finish(mut self, line: u64) -> Result<FileLog, LogFault> {
        if !self.is_closed {
            self.add_crash(line)?;
        }
        let LogReader {
            head,
            steps,
            has_ended,
            ..
        } = self;
        let Some(LogHead { config, group, me }) = head else {
            return Err(fault(line, LogCause::Head));
        };
        Ok(FileLog {
            config,
            group,
            me,
            steps: List::from_vec(steps),
            has_ended,
        })
    }

    fn add_crash(&mut self, line: u64) -> Result<(), LogFault> {
        let Some(head) = &self.head else {
            return Err(fault(line, LogCause::Head));
        };
        let crash = crash_of(self.alloc, head.me, self.stamp.unwrap_or(0), line);
        match self.steps.push(crash) {
            Ok(()) => Ok(()),
            Err(_) => Err(LogFault::Memory),
        }
    }
}

pub fn crash_of(alloc: Global, node: NodeId, stamp: u64, line: u64) -> LoggedStep {
    LoggedStep {
        stamp,
        line,
        event: Event::Crash { node },
        outcome: Outcome {
            deliveries: List::new(alloc),
            decisions: List::new(alloc),
        },
    }
}

fn fault(line: u64, cause: LogCause) -> LogFault {
    LogFault::Line { line, cause }
}

fn head_of(line: &[u8]) -> Option<LogHead> {
    let mut words = LogWords::of(line);
    if words.word()? != b"cast-log/1".as_slice() {
        return None;
    }
    let nodes = words.number()?;
    let faults = words.number()?;
    let choices = words.number()?;
    let mode = mode_named(words.word()?)?;
    let items = words.number()?;
    let group = words.number()?;
    let me = words.node()?;
    let settings = Settings {
        choices,
        item_limit: items,
        mode,
        ..Settings::of(nodes, faults)
    };
    let config = settings.check().ok()?;
    if !words.is_empty() || u64::from(me.0) >= config.nodes() {
        return None;
    }
    Some(LogHead { config, group, me })
}

// What an entry says.
#[derive(Drop)]
enum Entry {
    Step(Event),
    // A refused order, which is not a step.
    Refused,
}

// The entry that the next words spell, if they spell one.
fn entry_of(
    alloc: Global,
    me: NodeId,
    words: &mut LogWords<'_>,
) -> Result<Option<Entry>, AllocError> {
    let Some(name) = words.word() else {
        return Ok(None);
    };
    if name == b"order".as_slice() {
        let item = words.item(alloc)?;
        return Ok(item.map(|item| Entry::Step(Event::Order { node: me, item })));
    }
    Ok(short_entry(name, me, words))
}

fn short_entry(name: &[u8], me: NodeId, words: &mut LogWords<'_>) -> Option<Entry> {
    if name == b"crash".as_slice() {
        return Some(Entry::Step(Event::Crash { node: me }));
    }
    if name == b"refused".as_slice() {
        words.number()?;
        return Some(Entry::Refused);
    }
    let peer = words.node()?;
    let number = words.number()?;
    if name == b"send".as_slice() {
        return Some(Entry::Step(Event::Send {
            from: me,
            to: peer,
            slot: number,
        }));
    }
    if name == b"ack".as_slice() {
        return Some(Entry::Step(Event::Ack {
            from: me,
            to: peer,
            slot: number,
        }));
    }
    if name == b"arrive".as_slice() {
        return Some(Entry::Step(Event::Arrive {
            from: peer,
            seq: number,
        }));
    }
    None
}

// The outcome that the remaining words spell, if they spell one.
fn outcome_of(alloc: Global, words: &mut LogWords<'_>) -> Result<Option<Outcome>, AllocError> {
    let mut deliveries = Vec::new(alloc);
    let mut decisions = Vec::new(alloc);
    for _word in 0..u64::MAX {
        if words.is_empty() {
            return Ok(Some(Outcome {
                deliveries: List::from_vec(deliveries),
                decisions: List::from_vec(decisions),
            }));
        }
        match words.word() {
            Some([b'd']) => {
                let Some(message) = message_of(alloc, words)? else {
                    return Ok(None);
                };
                deliveries.push(message)?;
            }
            Some([b'v']) => {
                let Some(decision) = decision_of(words) else {
                    return Ok(None);
                };
                decisions.push(decision)?;
            }
            _ => return Ok(None),
        }
    }
    Ok(None)
}

fn message_of(alloc: Global, words: &mut LogWords<'_>) -> Result<Option<Message>, AllocError> {
    let (Some(sender), Some(number)) = (words.node(), words.number()) else {
        return Ok(None);
    };
    let Some(item) = words.item(alloc)? else {
        return Ok(None);
    };
    Ok(Some(Message {
        sender,
        number,
        item,
    }))
}

fn decision_of(words: &mut LogWords<'_>) -> Option<Decision> {
    let instance = words.number()?;
    let value = words.number()?;
    Some(Decision { instance, value })
}
