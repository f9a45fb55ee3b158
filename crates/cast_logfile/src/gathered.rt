//! The logs of one group, node by node.
use crate::fault::{LogCause, MergeFault};
use crate::file_log::{FileLog, LoggedStep};
use crate::merging::StepPlace;
use crate::misfit::Misfit;
use crate::reading::crash_of;
use cast_message::{Config, List, Mode, NodeId};
use std::alloc::{AllocError, Global};

/// The logs of a group by node, and the file of each, counted from 0. A node without a file crashed before its first
/// step.
#[derive(Drop)]
pub struct Gathered {
    pub config: Config,
    pub logs: Vec<List<LoggedStep>>,
    pub files: Vec<Option<usize>>,
    /// Which nodes' logs have an end.
    pub have_ended: Vec<bool>,
}

/// The logs of these files, at least one, or what is wrong: a file of another group, or two of one node.
pub fn gather(alloc: Global, files: Vec<FileLog>) -> Result<Gathered, MergeFault> {
    let Some(first) = files.as_slice().first() else {
        return Err(fault_in(0, LogCause::Head));
    };
    let group = first.group;
    let mut gathered = empty(alloc, &first.config)?;
    for (file, log) in files.into_iter().enumerate() {
        put(&mut gathered, group, file, log)?;
    }
    Ok(gathered)
}

fn empty(alloc: Global, config: &Config) -> Result<Gathered, AllocError> {
    let mut gathered = Gathered {
        config: *config,
        logs: Vec::new(alloc),
        files: Vec::new(alloc),
        have_ended: Vec::new(alloc),
    };
    for number in 0..config.nodes() {
        let mut steps = List::new(alloc);
        if let Some(node) = NodeId::from_number(number) {
            steps.push(crash_of(alloc, node, 0, 0))?;
        }
        gathered.logs.push(steps)?;
        gathered.files.push(None)?;
        gathered.have_ended.push(false)?;
    }
    Ok(gathered)
}

fn put(gathered: &mut Gathered, group: u64, file: usize, log: FileLog) -> Result<(), MergeFault> {
    if log.group != group || !is_same(&log.config, &gathered.config) {
        return Err(fault_in(file, LogCause::OtherGroup));
    }
    let node = usize::from(log.me.0);
    let FileLog {
        steps,
        has_ended,
        ..
    } = log;
    match gathered.files.get_mut(node) {
        Some(named) if named.is_none() => *named = Some(file),
        Some(_) => return Err(fault_in(file, LogCause::SameNode)),
        None => return Err(fault_in(file, LogCause::Head)),
    }
    if let Some(ended) = gathered.have_ended.get_mut(node) {
        *ended = has_ended;
    }
    if let Some(log) = gathered.logs.get_mut(node) {
        *log = steps;
    }
    Ok(())
}

fn is_same(one: &Config, other: &Config) -> bool {
    one.nodes() == other.nodes()
        && one.faults() == other.faults()
        && one.choices() == other.choices()
        && one.item_limit() == other.item_limit()
        && is_uniform(one) == is_uniform(other)
}

fn is_uniform(config: &Config) -> bool {
    matches!(config.mode(), Mode::Uniform)
}

// The first line says which group and node a log is from.
fn fault_in(file: usize, cause: LogCause) -> MergeFault {
    MergeFault::Line {
        file,
        line: 1,
        cause,
    }
}

/// The file and line where logs don't merge. A crash without a line is after the last line.
pub fn locate(gathered: &Gathered, misfit: Misfit) -> MergeFault {
    match misfit {
        Misfit::Refused { at, fault } => fault_at(gathered, at, LogCause::Refused(fault)),
        Misfit::Differs { at } => fault_at(gathered, at, LogCause::Differs),
        Misfit::Memory => MergeFault::Memory,
    }
}

fn fault_at(gathered: &Gathered, at: StepPlace, cause: LogCause) -> MergeFault {
    let file = match gathered.files.get(at.node) {
        Some(Some(file)) => *file,
        _ => 0,
    };
    let line = match gathered.logs.get(at.node) {
        Some(log) => line_of(log.as_slice(), at.place),
        None => 0,
    };
    MergeFault::Line { file, line, cause }
}

fn line_of(steps: &[LoggedStep], place: usize) -> u64 {
    match steps.get(place) {
        Some(step) => step.line,
        None => 0,
    }
}
