//! Which events of a script are shown.
ghost use Rattle.std.specs.Prelude.{◌≡◌, ◌^◌, ◌-◌, ◌&&◌, nat_le};

/// The events of a script from one place to another, both included. Places are counted from 0.
#[derive(Clone, Copy, PartialEq, Eq)]
pub struct Window {
    /// The first event that is shown.
    pub from: u64,
    /// The last event that is shown. If it is less than the first, no event is shown.
    pub to: u64,
}

impl Window {
    /// All events.
    pub fn all() -> Window
        ensures { result ≡ record { from = 0; to = 2 ^ 64 - 1 } }
    {
        Window {
            from: 0,
            to: u64::MAX,
        }
    }

    /// Whether the event at this place is shown.
    pub fn shows(self, index: u64) -> bool
        ensures { result ≡ (nat_le self.from index && nat_le index self.to) }
    {
        (self.from <= index) & (index <= self.to)
    }
}
