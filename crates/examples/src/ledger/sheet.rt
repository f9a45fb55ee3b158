//! A node's sheet: what each account has received and sent in the transfers that the node delivered.
ghost use Rattle.std.specs.Prelude.{◌≡◌, ◌<◌, []};
ghost use Rattle.examples.specs.Sheets.{account_count, added};

use crate::ledger::transfer::{ACCOUNTS, Transfer};
use cast::{Machine, Message};
use std::fmt;
use std::fmt::{Display, Formatter, Write};

const NAMES: [&str; ACCOUNTS as usize] = ["ada", "ben", "cleo", "dan"];

/// What each account has received and sent in all. These are sums, so the order of the transfers doesn't matter.
#[derive(Clone, Copy, PartialEq, Eq)]
pub struct Sheet {
    pub received: [u64; ACCOUNTS as usize],
    pub sent: [u64; ACCOUNTS as usize],
}

impl Machine for Sheet {
    ghost use Rattle.examples.specs.Sheets.{IsSheetOf};

    ghost stands = { IsSheetOf };

    // An item without a transfer changes nothing.
    fn apply(&mut self, message: &Message) {
        if let Some(transfer) = Transfer::read(&message.item) {
            self.add(transfer);
        }
    }
}

impl Sheet {
    ghost use Rattle.examples.specs.Sheets.{IsSheetOf};

    /// The sheet before any transfer.
    pub fn new() -> Sheet
        ensures { IsSheetOf result [] }
    {
        Sheet {
            received: [0; ACCOUNTS as usize],
            sent: [0; ACCOUNTS as usize],
        }
    }

    // A sum stops at 2^64 - 1, far above what 64 streams of 4,096 transfers can reach.
    fn add(&mut self, transfer: Transfer)
        requires { (transfer.from < account_count) × (transfer.to < account_count) }
        ensures received { self.new.received ≡ added self.old.received transfer.to transfer.amount }
        ensures sent { self.new.sent ≡ added self.old.sent transfer.from transfer.amount }
    {
        let Transfer { from, to, amount } = transfer;
        let (from, to) = (usize::from(from), usize::from(to));
        self.received[to] = self.received[to].saturating_add(u64::from(amount));
        self.sent[from] = self.sent[from].saturating_add(u64::from(amount));
    }
}

impl Display for Sheet {
    fn fmt<W: Write>(&self, f: &mut Formatter<W>) -> fmt::Result {
        for account in 0..usize::from(ACCOUNTS) {
            let balance = i128::from(self.received[account]) - i128::from(self.sent[account]);
            write!(f, " {} {balance}", NAMES[account])?;
        }
        Ok(())
    }
}
