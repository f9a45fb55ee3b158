//! The program `castgroup`. It asks `cast_command` what the words of its call want, opens what they name, and calls the
//! library once to do it. The result is its exit status.
#![tactic(auto)]

mod command_line;
mod console;
mod explain;
mod input;
mod inputs;
mod judge;
mod live;
mod lots;
mod members;
mod merge;
mod output;
mod outputs;
mod progress;
mod refusals;
mod remarks;
mod seeds;
mod status;
mod texts;

use cast_command::{RULES, Task, parse, refusals_help};
use cast_text::{TextFault, Window};
use command_line::{command_words, detail_of, refuse_request, refuse_words};
use console::Console;
use judge::judge_records;
use live::run_live;
use merge::merge_files;
use status::{Status, refuse};
use std::io::Stderr;
use std::process::ExitCode;
use std::rt::{Clock, Runtime};
use std::sync::Wait;
use std::thread::Threads;
use texts::{TextCommand, write_text};

fn main(rt: HostRuntime) -> ExitCode {
    ExitCode::from(run(&rt, rt.stderr()).code())
}

fn run<R: Runtime + AllocGlobal + Threads + Wait + Clock + Copy + Send + 'static>(
    rt: &R,
    stderr: Stderr,
) -> Status {
    let words = match command_words(rt) {
        Ok(words) => words,
        Err(error) => return refuse_words(rt, &error),
    };
    match refusals_help(rt.alloc()) {
        Ok(refusals) => run_words(rt, stderr, words.as_slice(), refusals.as_str()),
        Err(_) => refuse(rt, TextFault::Memory),
    }
}

// Does what the words ask for. The help of `run` ends with `refusals`.
fn run_words<R: Runtime + AllocGlobal + Threads + Wait + Clock + Copy + Send + 'static>(
    rt: &R,
    stderr: Stderr,
    words: &[String],
    refusals: &str,
) -> Status {
    match parse(rt.alloc(), words, refusals, RULES) {
        Ok(request) => perform(&Console::new(rt, stderr, request.detail), request.task),
        Err(refusal) => {
            let console = Console::new(rt, stderr, detail_of(words));
            refuse_request(&console, &refusal)
        }
    }
}

fn perform<R: Runtime + AllocGlobal + Threads + Wait + Clock + Copy + Send + 'static>(
    console: &Console<'_, R>,
    task: Task<'_>,
) -> Status {
    match task {
        Task::Run(script) => write_text(console, TextCommand::Run, script),
        Task::Judge(records) => judge_records(console, records.as_slice()),
        Task::Live(task) => run_live(console, task),
        Task::Draw {
            script,
            from,
            to,
            as_page,
        } => {
            let window = window(from, to);
            let command = if as_page {
                TextCommand::Page(window)
            } else {
                TextCommand::Draw(window)
            };
            write_text(console, command, script)
        }
        Task::Merge(task) => merge_files(console, &task),
        Task::Migrate(record) => write_text(console, TextCommand::Migrate, record),
    }
}

// The events from one place to another; without one, all before or after.
fn window(from: Option<u64>, to: Option<u64>) -> Window {
    let all = Window::all();
    Window {
        from: from.unwrap_or(all.from),
        to: to.unwrap_or(all.to),
    }
}
