//! The commands with their arguments and texts.
use crate::version::VERSION;
use cast_message::REFUSALS;
use clap::{Arg, ArgAction, Command};
use std::alloc::{AllocError, Global};
use std::fmt::Write;

/// What the lines `r EVENT CODE` of a record mean, for the help of `run`.
pub fn refusals_help(alloc: Global) -> Result<String, AllocError> {
    let mut text = String::from_str(alloc, "Refused events (r EVENT CODE):")?;
    for fault in REFUSALS.iter() {
        write!(text, "\n  {:2}  {}", fault.code(), fault.words())?;
    }
    Ok(text)
}

/// What a refusal with this code means.
pub fn refusal_meaning(code: u64) -> Option<&'static str> {
    let fault = REFUSALS.iter().find(|fault| fault.code() == code)?;
    Some(fault.words())
}

/// What the lines of a summary mean.
const ENDS: &str =
    "A line for each node, with its end and how many items it delivered from each node. Ends:
  stopped    its clients were done, and the nodes that still ran owed one another nothing, as engines told
  crashed    the plan crashed it
  turnlimit  its turns, or those of a client, were used up
  logfull    its log has as many entries as it may have
  clockfull  no greater stamp is left
rest: whether all that live nodes gave live nodes was acknowledged
verdict: what the judge says of the record of what happened";

/// What is written of merged logs, and of merged records.
const MERGED: &str =
    "Of logs: a line for each node, with its end and how many items it delivered from each node. Ends:
  stopped    its log has its last line
  crashed    it has none
rest: whether all that live nodes gave live nodes was acknowledged
verdict: what the judge says of the record of what happened

If the first file begins with cast/1 or cast/2, each file is the record of a member of another system: the head of the
group, then the member's own lines in order, and end if it logged all. Then only the verdict is written, as by judge.";

/// What the marks in a picture mean.
const MARKS: &str = "A line for each node, time to the right, a column for each event. Marks:
  dot      a broadcast, with the item
  arrow    a frame that arrives, in the colour of the message's sender; dotted and grey an acknowledgement
  stub     a frame that never arrives, with a small cross; without it, one that arrives by an event that is not shown
  box      a delivery, with sender and number
  diamond  a decision, with the value
  cross    a crash
A pale mark below the lines is a refused event with its code, a pale ground a settle.";

/// The command line of the program. The help of `run` ends with `refusals`, and that of `judge` with `rules`.
pub fn castgroup_command<'a>(
    alloc: Global,
    refusals: &'a str,
    rules: &'static str,
) -> Result<Command<'a>, AllocError> {
    let command = with_command(program(alloc)?, run_command(alloc, refusals))?;
    let command = with_command(command, judge_command(alloc, rules))?;
    let command = with_command(command, live_command(alloc))?;
    let command = with_command(command, merge_command(alloc))?;
    let command = with_command(command, migrate_command(alloc))?;
    with_command(command, draw_command(alloc))
}

fn with_command<'a>(
    program: Command<'a>,
    command: Result<Command<'a>, AllocError>,
) -> Result<Command<'a>, AllocError> {
    program.subcommand(command?)
}

fn program<'a>(alloc: Global) -> Result<Command<'a>, AllocError> {
    Command::new(alloc, "castgroup")
        .about("A FIFO broadcast group with k-set agreement")
        .version(VERSION)
        .subcommand_required(true)
        .arg(explain_flag(alloc)?)?
        .arg(terse_flag(alloc))
}

// The place in a command's help of the flags that every command takes: after its own, and before the help flag.
const LAST: usize = 900;

// Flags that every command takes.
fn explain_flag<'a>(alloc: Global) -> Result<Arg<'a>, AllocError> {
    let help =
        "Say in one more line on standard error where a fault is, and why, as on a terminal, or where the environment has CASTGROUP_EXPLAIN=1";
    flag(alloc, "explain", help)
        .global(true)
        .display_order(LAST)
        .conflicts_with("terse")
}

fn terse_flag<'a>(alloc: Global) -> Arg<'a> {
    let help = "Say no more than the fault itself, also on a terminal";
    flag(alloc, "terse", help).global(true).display_order(LAST)
}

fn flag<'a>(alloc: Global, name: &'static str, help: &'static str) -> Arg<'a> {
    Arg::new(alloc, name)
        .long(name)
        .action(ArgAction::SetTrue)
        .help(help)
}

fn script<'a>(alloc: Global) -> Arg<'a> {
    Arg::new(alloc, "SCRIPT").help("The script; standard input if absent or -")
}

fn record<'a>(alloc: Global) -> Arg<'a> {
    Arg::new(alloc, "RECORD").help("The record; standard input if absent or -")
}

fn records<'a>(alloc: Global) -> Arg<'a> {
    Arg::new(alloc, "RECORD").num_args(0..).help(
        "The records; standard input if absent or -. Of more than one each verdict stands behind its name",
    )
}

fn run_command<'a>(alloc: Global, refusals: &'a str) -> Result<Command<'a>, AllocError> {
    Command::new(alloc, "run")
        .about("Writes the record of a script's events")
        .after_help(refusals)
        .arg(script(alloc))
}

fn judge_command<'a>(alloc: Global, rules: &'static str) -> Result<Command<'a>, AllocError> {
    Command::new(alloc, "judge")
        .about("Says whether a record is good, or which line breaks which rule")
        .after_help(rules)
        .arg(records(alloc))
}

/// The command that runs the group of a script.
pub fn live_command<'a>(alloc: Global) -> Result<Command<'a>, AllocError> {
    let command = Command::new(alloc, "live")
        .about("Runs a script's group, by its plan and jobs, and writes what became of it")
        .after_help(ENDS);
    let progress = "Say on standard error each second how far the run is, as on a terminal";
    with_outputs(alloc, with_seeds(alloc, command)?)?
        .arg(flag(alloc, "progress", progress))?
        .arg(script(alloc))
}

/// The command that merges logs, or members' records.
pub fn merge_command<'a>(alloc: Global) -> Result<Command<'a>, AllocError> {
    let files = Arg::new(alloc, "FILE").num_args(0..).help(
        "The logs, one of each process, or the records of another system's members; standard input if absent. A node without a log crashed before its first step",
    );
    let command = Command::new(alloc, "merge")
        .about(
            "Merges the logs of a group's processes into one run, or members' records into one record, and judges that",
        )
        .after_help(MERGED);
    with_outputs(alloc, command)?.arg(files)
}

// The options that choose seeds, by which a group runs in place of threads.
fn with_seeds<'a>(alloc: Global, command: Command<'a>) -> Result<Command<'a>, AllocError> {
    let seed = "Run in one thread, by the schedule of seed N: the same run each time";
    let times = "Run M seeds from N on, and tell of those runs that are not as one hopes";
    let jobs = "Run J seeds at once; as many as there are processors if absent";
    command
        .arg(number(alloc, "seed", "N", seed))?
        .arg(number(alloc, "times", "M", times).requires_arg("seed")?)?
        .arg(number(alloc, "jobs", "J", jobs).requires_arg("times")?)
}

fn with_outputs<'a>(alloc: Global, command: Command<'a>) -> Result<Command<'a>, AllocError> {
    let record =
        "Also write the record of the run to FILE; - is standard output, and the summary then goes to standard error";
    let replay = "Also write to FILE a script that runs the same step by step";
    let picture = "Also write to FILE a picture of the run as SVG";
    command
        .arg(option(alloc, "record", "FILE", record))?
        .arg(option(alloc, "replay", "FILE", replay))?
        .arg(option(alloc, "draw", "FILE", picture))
}

fn option<'a>(
    alloc: Global,
    name: &'static str,
    value_name: &'static str,
    help: &'static str,
) -> Arg<'a> {
    Arg::new(alloc, name)
        .long(name)
        .value_name(value_name)
        .help(help)
}

fn migrate_command<'a>(alloc: Global) -> Result<Command<'a>, AllocError> {
    Command::new(alloc, "migrate")
        .about("Writes a cast/1 record with the head of cast/2")
        .arg(record(alloc))
}

/// The command that draws a script's run.
pub fn draw_command<'a>(alloc: Global) -> Result<Command<'a>, AllocError> {
    let from = "The first event that is drawn, counted from 0; the first of all if absent";
    let to = "The last event that is drawn; the last of all if absent";
    let html = "Write one HTML page instead, which holds the picture and steps through the run";
    Command::new(alloc, "draw")
        .about("Writes a picture of a script's events as SVG")
        .after_help(MARKS)
        .arg(number(alloc, "from", "A", from))?
        .arg(number(alloc, "to", "B", to))?
        .arg(flag(alloc, "html", html))?
        .arg(script(alloc))
}

// An option that takes a number. A number below 0 passes here; like anything else that is not one, it is refused later
// with a message of this program.
fn number<'a>(
    alloc: Global,
    name: &'static str,
    value_name: &'static str,
    help: &'static str,
) -> Arg<'a> {
    option(alloc, name, value_name, help).allow_negative_numbers(true)
}
