//! What the words of a call ask for.
use crate::commands::{castgroup_command, draw_command, live_command, merge_command};
use cast_record::escaped;
use clap::error::ErrorKind;
use clap::{ArgMatches, Command, Error};
use std::alloc::{AllocError, Global};
use std::io;

/// Where a text is read or written.
#[derive(Clone, Copy)]
pub enum Place<'a> {
    /// Standard input or standard output.
    Standard,
    /// The file of this name.
    File(&'a str),
}

impl<'a> Place<'a> {
    /// The place that a word names; `-` is not a file.
    pub fn named(word: &'a str) -> Place<'a> {
        if word == "-" {
            Place::Standard
        } else {
            Place::File(word)
        }
    }

    /// The word that names this place.
    pub fn word(self) -> &'a str {
        match self {
            Place::Standard => "-",
            Place::File(path) => path,
        }
    }

    fn is_standard(self) -> bool {
        matches!(self, Place::Standard)
    }
}

/// Whether standard error gets more than the fixed texts.
#[derive(Clone, Copy)]
pub enum Detail {
    /// If standard error is a terminal.
    OnTerminal,
    Always,
    Never,
}

/// Where the requested texts of a run are kept.
#[derive(Clone, Copy)]
pub struct RunPlaces<'a> {
    /// The record of what happened.
    pub record: Option<Place<'a>>,
    /// The script that says what happened.
    pub replay: Option<Place<'a>>,
    /// The picture of what happened.
    pub picture: Option<Place<'a>>,
}

impl RunPlaces<'_> {
    /// Whether nothing is kept.
    pub fn is_empty(&self) -> bool {
        self.record.is_none() && self.replay.is_none() && self.picture.is_none()
    }

    /// How many outputs go to standard output.
    pub fn count_standard(&self) -> usize {
        let places = [self.record, self.replay, self.picture];
        places
            .iter()
            .flatten()
            .filter(|place| place.is_standard())
            .count()
    }

    // Whether two outputs have the same name; `-` names standard output.
    fn have_a_name_twice(&self) -> bool {
        is_again(self.record, self.replay)
            || is_again(self.record, self.picture)
            || is_again(self.replay, self.picture)
    }
}

fn is_again(place: Option<Place<'_>>, other: Option<Place<'_>>) -> bool {
    match (place, other) {
        (Some(place), Some(other)) => place.word() == other.word(),
        _ => false,
    }
}

/// This many seeds from the first on. After the greatest number comes 0.
#[derive(Clone, Copy)]
pub struct Seeds {
    pub first: u64,
    pub times: u64,
    /// How many are run at once; as many as there are processors if absent.
    pub at_once: Option<u64>,
}

#[derive(Clone, Copy)]
pub enum Running {
    /// Once, in threads.
    InThreads,
    /// Once, by the schedule of this seed.
    BySeed(u64),
    /// By each of these seeds.
    BySeeds(Seeds),
}

#[derive(Clone, Copy)]
pub struct LiveTask<'a> {
    pub script: Place<'a>,
    pub running: Running,
    pub places: RunPlaces<'a>,
    /// Whether progress is shown, even if standard error is not a terminal.
    pub tells_progress: bool,
}

#[derive(Drop)]
pub struct MergeTask<'a> {
    /// The logs, or the records of members, at least one.
    pub files: Vec<Place<'a>>,
    pub places: RunPlaces<'a>,
}

#[derive(Drop)]
pub enum Task<'a> {
    /// Write the record of a script.
    Run(Place<'a>),
    /// Judge these records, at least one.
    Judge(Vec<Place<'a>>),
    /// Run the group of a script.
    Live(LiveTask<'a>),
    /// Draw the run of a script.
    Draw {
        script: Place<'a>,
        /// The first event to draw, if given.
        from: Option<u64>,
        /// The last event, which is not before the first.
        to: Option<u64>,
        /// Whether to write a page that steps through the run, rather than the picture alone.
        as_page: bool,
    },
    /// Write a record with the new head.
    Migrate(Place<'a>),
    /// Merge the logs of a group's processes, or the records of another system's members.
    Merge(MergeTask<'a>),
}

#[derive(Drop)]
pub struct Request<'a> {
    pub task: Task<'a>,
    pub detail: Detail,
}

/// Why nothing is to be done.
#[derive(Drop)]
pub enum Refusal {
    /// Help or the version was asked for, or the words ask for nothing that the program does.
    Shown(Shown),
    /// Memory ran out.
    Memory,
}

/// A text that is shown instead of doing anything.
#[derive(Drop)]
pub struct Shown {
    error: Error,
}

impl Shown {
    /// Whether the words were wrong; help and the version are no error.
    pub fn is_fault(&self) -> bool {
        self.error.exit_code() != 0
    }

    /// Writes a fault to standard error, or help and the version to standard output.
    pub fn print<R: Print + Eprint>(&self, rt: &R) -> io::Result<()> {
        self.error.print(rt)
    }
}

impl From<AllocError> for Refusal {
    fn from(_refused: AllocError) -> Refusal {
        Refusal::Memory
    }
}

impl From<Error> for Refusal {
    fn from(error: Error) -> Refusal {
        match error.kind() {
            ErrorKind::OutOfMemory => Refusal::Memory,
            _ => Refusal::Shown(Shown { error }),
        }
    }
}

/// What these words ask for. The first of them names the program. The help of `run` ends with `refusals`, and that of
/// `judge` with `rules`.
pub fn parse<'a>(
    alloc: Global,
    words: &'a [String],
    refusals: &'a str,
    rules: &'static str,
) -> Result<Request<'a>, Refusal> {
    let matches = castgroup_command(alloc, refusals, rules)?.try_get_matches_from(words)?;
    match matches.subcommand() {
        Some((command, inner)) => Ok(Request {
            task: task_of(alloc, command, inner)?,
            detail: detail_of(inner),
        }),
        // (a command line that names none was refused before)
        None => Err(fault(
            castgroup_command(alloc, refusals, rules)?,
            "a command is wanted",
        )),
    }
}

fn task_of<'a>(
    alloc: Global,
    command: &str,
    matches: &ArgMatches<'a>,
) -> Result<Task<'a>, Refusal> {
    match command {
        "run" => Ok(Task::Run(input_of(matches, "SCRIPT"))),
        "judge" => Ok(Task::Judge(inputs_of(alloc, matches, "RECORD")?)),
        "merge" => merge(alloc, matches),
        "live" => live(alloc, matches),
        "draw" => draw(alloc, matches),
        // (there is no other)
        _ => Ok(Task::Migrate(input_of(matches, "RECORD"))),
    }
}

fn detail_of(matches: &ArgMatches<'_>) -> Detail {
    if matches.get_flag("explain") {
        Detail::Always
    } else if matches.get_flag("terse") {
        Detail::Never
    } else {
        Detail::OnTerminal
    }
}

fn place_of<'a>(matches: &ArgMatches<'a>, name: &str) -> Option<Place<'a>> {
    Some(Place::named(matches.get_str(name)?))
}

fn input_of<'a>(matches: &ArgMatches<'a>, name: &str) -> Place<'a> {
    place_of(matches, name).unwrap_or(Place::Standard)
}

fn inputs_of<'a>(
    alloc: Global,
    matches: &ArgMatches<'a>,
    name: &str,
) -> Result<Vec<Place<'a>>, AllocError> {
    let mut places = Vec::new(alloc);
    for word in matches.get_strs(name).unwrap_or(&[]) {
        places.push(Place::named(word))?;
    }
    if places.is_empty() {
        places.push(Place::Standard)?;
    }
    Ok(places)
}

const ONE_NAME: &str = "two of --record, --replay and --draw have one name";

fn run_places<'a>(matches: &ArgMatches<'a>) -> RunPlaces<'a> {
    RunPlaces {
        record: place_of(matches, "record"),
        replay: place_of(matches, "replay"),
        picture: place_of(matches, "draw"),
    }
}

fn merge<'a>(alloc: Global, matches: &ArgMatches<'a>) -> Result<Task<'a>, Refusal> {
    let places = run_places(matches);
    if places.have_a_name_twice() {
        let command = merge_command(alloc)?.bin_name("castgroup merge")?;
        return Err(fault(command, ONE_NAME));
    }
    let files = inputs_of(alloc, matches, "FILE")?;
    Ok(Task::Merge(MergeTask { files, places }))
}

// Two outputs with one name are a fault: one would be lost.
fn live<'a>(alloc: Global, matches: &ArgMatches<'a>) -> Result<Task<'a>, Refusal> {
    let places = run_places(matches);
    if places.have_a_name_twice() {
        let command = live_command(alloc)?.bin_name("castgroup live")?;
        return Err(fault(command, ONE_NAME));
    }
    Ok(Task::Live(LiveTask {
        script: input_of(matches, "SCRIPT"),
        running: running_of(alloc, matches)?,
        places,
        tells_progress: matches.get_flag("progress"),
    }))
}

// (a number of times without a seed, and of jobs without a number of times, was refused before)
fn running_of(alloc: Global, matches: &ArgMatches<'_>) -> Result<Running, Refusal> {
    let seed = number_of(alloc, matches, "seed", 0)?;
    let times = number_of(alloc, matches, "times", 1)?;
    let at_once = number_of(alloc, matches, "jobs", 1)?;
    Ok(match (seed, times) {
        (None, _) => Running::InThreads,
        (Some(seed), None) => Running::BySeed(seed),
        (Some(first), Some(times)) => Running::BySeeds(Seeds {
            first,
            times,
            at_once,
        }),
    })
}

// The number given for an option, at least this one.
fn number_of(
    alloc: Global,
    matches: &ArgMatches<'_>,
    name: &str,
    least: u64,
) -> Result<Option<u64>, Refusal> {
    let Some(word) = matches.get_str(name) else {
        return Ok(None);
    };
    match word.parse::<u64>() {
        Ok(number) if number >= least => Ok(Some(number)),
        _ => Err(number_fault(alloc, name, least, word)?),
    }
}

fn number_fault(alloc: Global, name: &str, least: u64, word: &str) -> Result<Refusal, AllocError> {
    let command = match name {
        "seed" | "times" | "jobs" => live_command(alloc)?.bin_name("castgroup live")?,
        _ => draw_command(alloc)?.bin_name("castgroup draw")?,
    };
    let shown = escaped(alloc, word.as_bytes())?;
    let most = u64::MAX;
    let message = format!(in alloc;
        "--{name} is '{shown}', and must be a whole number from {least} to {most}"
    )?;
    Ok(fault(command, message.as_str()))
}

// A first event after the last is a fault.
fn draw<'a>(alloc: Global, matches: &ArgMatches<'a>) -> Result<Task<'a>, Refusal> {
    let from = number_of(alloc, matches, "from", 0)?;
    let to = number_of(alloc, matches, "to", 0)?;
    if from.unwrap_or(0) > to.unwrap_or(u64::MAX) {
        let command = draw_command(alloc)?.bin_name("castgroup draw")?;
        return Err(fault(
            command,
            "the first event that is drawn stands behind the last",
        ));
    }
    Ok(Task::Draw {
        script: input_of(matches, "SCRIPT"),
        from,
        to,
        as_page: matches.get_flag("html"),
    })
}

// A fault in the words given to this command.
fn fault(mut command: Command<'_>, message: &str) -> Refusal {
    match command.error(ErrorKind::ValueValidation, message) {
        Ok(error) => error.into(),
        Err(_) => Refusal::Memory,
    }
}
