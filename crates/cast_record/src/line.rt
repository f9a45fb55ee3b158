//! The lines of a record.
ghost use Rattle.std.specs.Prelude.{◌≡◌};

use cast_message::{Config, Decision, Message, Mode, NodeId};

/// The most nodes in the group of a record `cast/1`.
pub const FIRST_MOST_NODES: u64 = 16;

/// The greatest code of a refusal in a record. That of out of memory is greater: it ends a record, and has no line.
pub const MOST_CODE: u64 = 12;

#[derive(Debug, Drop, PartialEq)]
pub enum Line {
    /// The first line of a record `cast/1`: a group in basic mode with at most 16 nodes.
    Head {
        nodes: u64,
        faults: u64,
        choices: u64,
    },
    /// The first line of a record `cast/2`.
    Head2 {
        nodes: u64,
        faults: u64,
        choices: u64,
        mode: Mode,
    },
    /// The message's sender appended it to its stream.
    Broadcast(Message),
    Delivered {
        node: NodeId,
        message: Message,
    },
    Decided {
        node: NodeId,
        decision: Decision,
    },
    Crashed {
        node: NodeId,
    },
    /// The event of this index in the script, from 0 on, was refused with this code, 1 to 12.
    Refused {
        index: u64,
        code: u64,
    },
    /// The last line of a record.
    End,
}

impl Line {
    ghost use Rattle.cast_record.specs.Lines.{head_of};

    /// The first line of a record of a group of this configuration: `cast/1` if the mode is basic and there are at most 16 nodes,
    /// else `cast/2`.
    pub fn head(config: &Config) -> Line
        ensures { result ≡ head_of config.now }
    {
        let nodes = config.nodes();
        let faults = config.faults();
        let choices = config.choices();
        match config.mode() {
            Mode::Basic if nodes <= FIRST_MOST_NODES => Line::Head {
                nodes,
                faults,
                choices,
            },
            mode => Line::Head2 {
                nodes,
                faults,
                choices,
                mode,
            },
        }
    }
}
