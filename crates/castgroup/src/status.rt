//! How the program ends: its statuses, and what it says about each fault.
use cast_message::LiveFault;
use cast_script::ScriptFault;
use cast_text::TextFault;

#[derive(Clone, Copy)]
pub enum Status {
    /// All was done, even if steps were refused; also help.
    Good,
    /// The command line names nothing that the program does.
    Usage,
    /// The input was refused.
    Refused,
    /// The record is bad.
    Bad,
    /// The record is good, but the group is not at rest at the end.
    Restless,
    /// Memory or a thread was refused.
    Resources,
    /// A read or a write failed.
    Io,
}

impl Status {
    /// The exit code.
    pub fn code(self) -> u8 {
        match self {
            Status::Good => 0,
            Status::Usage => 1,
            Status::Refused => 2,
            Status::Bad => 3,
            Status::Restless => 4,
            Status::Resources => 5,
            Status::Io => 6,
        }
    }

    /// The worse of two statuses, for a call that does several things.
    pub fn or_worse(self, other: Status) -> Status {
        if other.gravity() > self.gravity() {
            other
        } else {
            self
        }
    }

    // A bad verdict is worse than a refused input, or than a run without rest.
    fn gravity(self) -> u8 {
        match self {
            Status::Good => 0,
            Status::Usage => 1,
            Status::Refused => 2,
            Status::Restless => 3,
            Status::Bad => 4,
            Status::Resources => 5,
            Status::Io => 6,
        }
    }
}

/// Says on standard error why nothing more was done, and returns the status for it.
pub fn refuse<R: Eprint>(rt: &R, fault: TextFault) -> Status {
    let said = match fault {
        TextFault::Read => eprintln!(rt; "castgroup: read fault"),
        TextFault::Write => eprintln!(rt; "castgroup: write fault"),
        TextFault::TooLong => eprintln!(rt; "castgroup: input too long"),
        TextFault::NotV1 => eprintln!(rt; "castgroup: not a cast/1 record"),
        TextFault::Memory
        | TextFault::Script(ScriptFault::Memory)
        | TextFault::Live(LiveFault::Memory) => eprintln!(rt; "castgroup: out of memory"),
        TextFault::Live(LiveFault::Threads) => eprintln!(rt; "castgroup: thread refused"),
        TextFault::Live(fault) => {
            let code = fault.code();
            eprintln!(rt; "castgroup: live: fault {code}")
        }
        TextFault::Script(ScriptFault::NotJson) => eprintln!(rt; "castgroup: script: not json"),
        TextFault::Script(ScriptFault::Shape { index }) => {
            eprintln!(rt; "castgroup: script: shape {index}")
        }
        TextFault::Script(ScriptFault::Config(fault)) => {
            let code = fault.code();
            eprintln!(rt; "castgroup: script: config {code}")
        }
    };
    // If standard error fails, only the status can report that.
    let _ = said;
    status_of(fault)
}

fn status_of(fault: TextFault) -> Status {
    match fault {
        TextFault::Read | TextFault::Write => Status::Io,
        TextFault::Memory
        | TextFault::Script(ScriptFault::Memory)
        | TextFault::Live(LiveFault::Memory | LiveFault::Threads) => Status::Resources,
        TextFault::TooLong | TextFault::NotV1 | TextFault::Script(_) | TextFault::Live(_) => {
            Status::Refused
        }
    }
}
