//! The configuration of a group, and why it can be refused.
ghost use Rattle.std.specs.Prelude.{◌≡◌, ◌<◌, ◌≤◌, ◌*◌, Some, None, IfOk, OnOk, IfErr};
ghost use Rattle.cast_message.specs.Limits.{fault_factor, config_causes, first_config_fault, config_code};

use crate::settings::Settings;
use thiserror::Error;

/// When a message whose turn has come is delivered.
#[derive(Clone, Copy, Debug, PartialEq, Eq)]
pub enum Mode {
    /// In the step in which the node holds it.
    Basic,
    /// In the step in which the node knows that more nodes than may crash hold it. So the delivery outlives the node
    /// that made it (uniform agreement; Hadzilacos and Toueg, TR 94-1425, section 3).
    Uniform,
}

/// A configuration within its limits. The type itself states each limit.
#[derive(Clone, Copy)]
pub struct Config {
    /// How many nodes the group has, 1 to 64. They are numbered from 0.
    pub nodes: u64,
    /// How many nodes may crash, 0 to `nodes - 1`; in uniform mode fewer than half of them.
    pub faults: u64,
    /// How many values may be decided in an instance, 1 to `nodes`.
    pub choices: u64,
    /// How many items a stream may have, 1 to 4,096.
    pub item_limit: u64,
    /// How many entries the log of a running node may have, 1 to 65,536.
    pub log_limit: u64,
    /// How many items a box between threads may hold, 1 to 4,096.
    pub box_size: u64,
    /// Where the clocks of running nodes begin, any number.
    pub first_stamp: u64,
    /// When messages are delivered.
    pub mode: Mode,
    pub ghost some_node: { 1 ≤ nodes },
    pub ghost nodes_in_range: { nodes ≤ 64 },
    pub ghost faults_in_range: { faults < nodes },
    pub ghost some_choice: { 1 ≤ choices },
    pub ghost choices_in_range: { choices ≤ nodes },
    pub ghost some_item: { 1 ≤ item_limit },
    pub ghost items_in_range: { item_limit ≤ 4096 },
    pub ghost some_entry: { 1 ≤ log_limit },
    pub ghost log_in_range: { log_limit ≤ 65536 },
    pub ghost some_place: { 1 ≤ box_size },
    pub ghost box_in_range: { box_size ≤ 4096 },
    pub ghost mode_in_range: { fault_factor mode * faults < nodes },
}

/// The first value outside its limits.
#[derive(Clone, Copy, Debug, PartialEq, Eq, Error)]
pub enum ConfigFault {
    #[error("the number of nodes is not 1 to 64")]
    Nodes,
    #[error("the number of faults is not below the number of nodes")]
    Faults,
    #[error("the number of choices is not 1 to the number of nodes")]
    Choices,
    #[error("the item limit is not 1 to 4096")]
    ItemLimit,
    #[error("the log limit is not 1 to 65536")]
    LogLimit,
    #[error("the box size is not 1 to 4096")]
    BoxSize,
    #[error("uniform mode, and not fewer than half of the nodes may crash")]
    Mode,
}

impl ConfigFault {
    /// The number of the refusal, from 1. These numbers never change.
    pub fn code(self) -> u64
        ensures { result ≡ config_code self }
    {
        match self {
            ConfigFault::Nodes => 1,
            ConfigFault::Faults => 2,
            ConfigFault::Choices => 3,
            ConfigFault::ItemLimit => 4,
            ConfigFault::LogLimit => 5,
            ConfigFault::BoxSize => 6,
            ConfigFault::Mode => 7,
        }
    }
}

impl Config {
    /// The configuration with these values, or the first value outside its limits, in the order of the parameters.
    /// `Settings::check` takes the same values by name.
    pub fn check(
        nodes: u64,
        faults: u64,
        choices: u64,
        item_limit: u64,
        log_limit: u64,
        box_size: u64,
        first_stamp: u64,
        mode: Mode,
    ) -> Result<Config, ConfigFault>
        ensures ok { IfOk result (λ config. (config.nodes ≡ nodes) × (config.faults ≡ faults)
            × (config.choices ≡ choices)
            × (config.item_limit ≡ item_limit) × (config.log_limit ≡ log_limit)
            × (config.box_size ≡ box_size)
            × (config.first_stamp ≡ first_stamp) × (config.mode ≡ mode)) }
        ensures none { OnOk result
            (first_config_fault
            (config_causes nodes faults choices item_limit log_limit box_size mode) ≡ None) }
        ensures fault { IfErr result
            (λ fault. first_config_fault
            (config_causes nodes faults choices item_limit log_limit box_size mode) ≡ Some fault) }
    {
        let settings = Settings {
            nodes,
            faults,
            choices,
            item_limit,
            log_limit,
            box_size,
            first_stamp,
            mode,
        };
        settings.check()
    }

    /// How many nodes the group has, 1 to 64.
    pub fn nodes(&self) -> u64
        ensures { result ≡ self.now.nodes }
    {
        self.nodes
    }

    /// How many nodes may crash, 0 to `nodes - 1`.
    pub fn faults(&self) -> u64
        ensures { result ≡ self.now.faults }
    {
        self.faults
    }

    /// How many values may be decided in an instance, 1 to `nodes`.
    pub fn choices(&self) -> u64
        ensures { result ≡ self.now.choices }
    {
        self.choices
    }

    /// How many items a stream may have, 1 to 4,096.
    pub fn item_limit(&self) -> u64
        ensures { result ≡ self.now.item_limit }
    {
        self.item_limit
    }

    /// How many entries the log of a running node may have, 1 to 65,536.
    pub fn log_limit(&self) -> u64
        ensures { result ≡ self.now.log_limit }
    {
        self.log_limit
    }

    /// How many items a box between threads may hold, 1 to 4,096.
    pub fn box_size(&self) -> u64
        ensures { result ≡ self.now.box_size }
    {
        self.box_size
    }

    /// Where the clocks of running nodes begin.
    pub fn first_stamp(&self) -> u64
        ensures { result ≡ self.now.first_stamp }
    {
        self.first_stamp
    }

    /// When messages are delivered.
    pub fn mode(&self) -> Mode
        ensures { result ≡ self.now.mode }
    {
        self.mode
    }
}

impl Mode {
    // The faults, this many times, must be fewer than the nodes.
    pub(crate) fn fault_factor(self) -> u64
        ensures { result ≡ fault_factor self }
    {
        match self {
            Mode::Basic => 0,
            Mode::Uniform => 2,
        }
    }
}
