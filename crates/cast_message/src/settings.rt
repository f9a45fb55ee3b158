//! The values of a configuration, by name, and their check.
ghost use Rattle.std.specs.Prelude.{◌≡◌, ◌<◌, ◌≤◌, ◌+◌, ◌-◌, ◌^◌, min, List, None, Some, OnOk, IfOk, IfErr};
ghost use Rattle.cast_message.specs.Limits.{ConfigCause, count_causes, size_causes, first_config_fault};
ghost use Rattle.cast_message.specs.declared.config.Mode.TheVariants.{Basic};
ghost use Rattle.cast_message.specs.Settings.{IsConfigOf, causes_of};

use crate::config::{Config, ConfigFault, Mode};
use crate::limits::{MOST_ENTRIES, MOST_ITEMS, MOST_NODES, MOST_PLACES};

/// The values of a configuration, before their check. `Settings::of` has the usual ones. Write those that differ:
/// `Settings { mode: Mode::Uniform, ..Settings::of(5, 2) }.check()?`.
#[derive(Clone, Copy)]
pub struct Settings {
    /// How many nodes the group has, 1 to 64.
    pub nodes: u64,
    /// How many nodes may crash, fewer than `nodes`; in uniform mode fewer than half of them.
    pub faults: u64,
    /// How many values may be decided in an instance, 1 to `nodes`.
    pub choices: u64,
    /// How many items a sender may broadcast, with its close, 1 to 4,096.
    pub item_limit: u64,
    /// How many entries the log of a node in threads may have, 1 to 65,536.
    pub log_limit: u64,
    /// How many items a box between threads may hold, 1 to 4,096.
    pub box_size: u64,
    /// Where the clocks of nodes in threads begin, any number.
    pub first_stamp: u64,
    /// When messages are delivered.
    pub mode: Mode,
}

// The box size of `Settings::of`.
const USUAL_PLACES: u64 = 64;

impl Settings {
    /// The usual group of as many nodes as given, of which `faults` may crash. It has basic mode, the longest streams
    /// and logs, boxes of 64 places, and clocks from 0. It has one more choice than faults, so an instance has at most
    /// as many decided values as choices.
    pub fn of(nodes: u64, faults: u64) -> Settings
        ensures { result ≡ record {
          nodes = nodes;
          faults = faults;
          choices = min (faults + 1) (2 ^ 64 - 1);
          item_limit = 4096;
          log_limit = 65536;
          box_size = 64;
          first_stamp = 0;
          mode = Basic;
        } }
    {
        Settings {
            nodes,
            faults,
            choices: faults.saturating_add(1),
            item_limit: MOST_ITEMS,
            log_limit: MOST_ENTRIES,
            box_size: USUAL_PLACES,
            first_stamp: 0,
            mode: Mode::Basic,
        }
    }

    /// The configuration with these values, or the first value outside its limits, in the order of the fields. Uniform
    /// mode is refused if twice the faults are not fewer than the nodes.
    #[tactic(auto, using(std::proofs::lemmas::Bool::Decides::nat_tests), unfolding(crate::specs::Limits::first_config_fault, crate::specs::Limits::config_causes))]
    pub fn check(self) -> Result<Config, ConfigFault>
        ensures ok { IfOk result (IsConfigOf self) }
        ensures none { OnOk result (first_config_fault (causes_of self) ≡ None) }
        ensures fault { IfErr result (λ fault. first_config_fault (causes_of self) ≡ Some fault) }
    {
        self.check_counts()?;
        self.check_sizes()?;
        if self.mode.fault_factor() * self.faults >= self.nodes {
            return Err(ConfigFault::Mode);
        }
        Ok(Config {
            nodes: self.nodes,
            faults: self.faults,
            choices: self.choices,
            item_limit: self.item_limit,
            log_limit: self.log_limit,
            box_size: self.box_size,
            first_stamp: self.first_stamp,
            mode: self.mode,
        })
    }

    // Refuses the first count of nodes outside its limits.
    #[tactic(auto, using(std::proofs::lemmas::Bool::Decides::nat_tests), unfolding(crate::specs::Limits::first_config_fault))]
    fn check_counts(self) -> Result<(), ConfigFault>
        ensures nodes { OnOk result ((1 ≤ self.nodes) × (self.nodes ≤ 64)) }
        ensures faults { OnOk result (self.faults < self.nodes) }
        ensures choices { OnOk result ((1 ≤ self.choices) × (self.choices ≤ self.nodes)) }
        ensures none { OnOk result ((others : List ConfigCause) →
            first_config_fault (count_causes self.nodes self.faults self.choices others)
            ≡ first_config_fault others) }
        ensures fault { IfErr result (λ fault. (others : List ConfigCause) →
            first_config_fault (count_causes self.nodes self.faults self.choices others) ≡ Some fault) }
    {
        if self.nodes < 1 || self.nodes > MOST_NODES {
            return Err(ConfigFault::Nodes);
        }
        if self.faults >= self.nodes {
            return Err(ConfigFault::Faults);
        }
        if self.choices < 1 || self.choices > self.nodes {
            return Err(ConfigFault::Choices);
        }
        Ok(())
    }

    // Refuses the first size outside its limits.
    #[tactic(auto, using(std::proofs::lemmas::Bool::Decides::nat_tests), unfolding(crate::specs::Limits::first_config_fault))]
    fn check_sizes(self) -> Result<(), ConfigFault>
        ensures items { OnOk result ((1 ≤ self.item_limit) × (self.item_limit ≤ 4096)) }
        ensures entries { OnOk result ((1 ≤ self.log_limit) × (self.log_limit ≤ 65536)) }
        ensures places { OnOk result ((1 ≤ self.box_size) × (self.box_size ≤ 4096)) }
        ensures none { OnOk result ((others : List ConfigCause) →
            first_config_fault (size_causes self.item_limit self.log_limit self.box_size others)
            ≡ first_config_fault others) }
        ensures fault { IfErr result (λ fault. (others : List ConfigCause) →
            first_config_fault (size_causes self.item_limit self.log_limit self.box_size others) ≡ Some fault) }
    {
        if self.item_limit < 1 || self.item_limit > MOST_ITEMS {
            return Err(ConfigFault::ItemLimit);
        }
        if self.log_limit < 1 || self.log_limit > MOST_ENTRIES {
            return Err(ConfigFault::LogLimit);
        }
        if self.box_size < 1 || self.box_size > MOST_PLACES {
            return Err(ConfigFault::BoxSize);
        }
        Ok(())
    }
}
