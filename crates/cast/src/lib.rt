//! The kit by one name: what its users need, in groups, in the order of need. Your crate's line in `crates.txt` says
//! `NAME: cast anyhow`, and its code `use cast::{..}`. Besides the names of the crates below, it has a few
//! conveniences, and the state machine that a group follows (`Machine`, `Followers`, `run_followers`).
#![tactic(auto)]

mod followed;
mod follower;
mod followers;
mod group;
mod interleavings;
mod items;
mod machine;

// Types for every use: what is broadcast, to whom, within which limits. `Settings::of` has the usual configuration, and
// `data` makes an item of bytes.
pub use cast_message::{
    Answer, Config, ConfigFault, Decision, Event, Frame, FrameBody, FrameKind, Item, List, Message,
    Mode, NodeId, Outcome, Payload, Reply, Settings, StepFault,
};
pub use items::data;

// The group as one value, if you decide yourself what happens when: a test bed, or a run that is read step by step. It
// uses no thread and no time.
pub use cast_world::{World, run_events};

// A group that follows a state machine, in threads or by a seed. The machine is the service, and all else is proved
// once.
pub use followed::{Followed, run_followers, run_followers_by_seed};
pub use follower::Follower;
pub use followers::Followers;
pub use machine::Machine;

// A machine in every order in which the messages of a few short streams may come. It needs no group.
pub use interleavings::{
    EveryOrder, LONGEST_ORDER, OrderCheck, every_order, tries_each_order_once,
};

// A group of your own jobs, in threads or by a seed, if a client does more than submit a list and follow. `run_group`
// has the usual gates and limits; `run_live` and `run_scheduled` take them from you.
pub use cast_desk::{Client, DeskFault, Notice};
pub use cast_run::{
    ClientJob, ClientReport, CountingGate, Gate, LONGEST_WAIT, Limits, Listed, LiveFault, LiveRun,
    OpenGate, Progress, Recorded, Schedule, Seeded, Steps, Submissions, SubmitAll, find_misfit,
    run_live, run_scheduled,
};
pub use cast_script::{Fault, FaultPlan, Frames};
pub use group::{USUAL_LIMITS, USUAL_STEPS, run_group, run_group_by_seed};
pub use items::no_faults;

// The outcome of a group in threads: its logs, and the one history that they make.
pub use cast_merge::{Assembly, EngineEnd, GroupReport, NodeReport, assemble};

// One node, if you carry its frames yourself, over your own network.
pub use cast_node::{Entry, EntryKind, Log, Node, Origin};

// Records and their judge, which checks a trace of any system, and scripts.
ghost use Rattle.cast.specs.Sums.{SumsAgree};

pub use cast_judge::{Judging, Verdict, judge};
pub use cast_record::{
    Line, Meter, MigrateFault, WriteFault, lines_of, migrate, read_line, write_line, write_record,
};
pub use cast_script::{Script, ScriptEvent, ScriptFault, read_script, write_script};

/// A law of lists of messages: whatever number each message counts for, two lists with the same messages of each sender
/// have the same sum. So machines that keep sums agree if their nodes have delivered the same of each sender.
pub fn sums_agree()
    ensures { SumsAgree }
{}
