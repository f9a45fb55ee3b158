//! Transfers between accounts, and the items that hold them.
ghost use Rattle.std.specs.Prelude.{◌≡◌, ◌<◌, Some, IfOk, IfSome};
ghost use Rattle.examples.specs.Sheets.{account_count, transfer_in};

use cast::{Item, data};
use std::alloc::{AllocError, Global};

/// The number of accounts, numbered from 0.
pub const ACCOUNTS: u8 = 4;

/// An amount that goes from one account to another, or to itself.
#[derive(Clone, Copy, PartialEq, Eq)]
pub struct Transfer {
    pub from: u8,
    pub to: u8,
    pub amount: u16,
}

impl Transfer {
    /// The transfer in an item of four bytes: the two accounts, and the amount, its high byte first. There is none in
    /// any other item, nor if an account does not exist.
    pub fn read(item: &Item) -> Option<Transfer>
        ensures said { result ≡ transfer_in item.now }
        ensures accounts { IfSome result (λ t. (t.from < account_count) × (t.to < account_count)) }
    {
        let Item::Data(payload) = item else {
            return None;
        };
        let [from, to, high, low] = payload.as_slice() else {
            return None;
        };
        if *from >= ACCOUNTS || *to >= ACCOUNTS {
            return None;
        }
        Some(Transfer {
            from: *from,
            to: *to,
            amount: u16::from_be_bytes([*high, *low]),
        })
    }

    /// The item for the transfer, if its accounts exist. It can run out of memory.
    pub fn item(&self, alloc: Global) -> Result<Item, AllocError>
        ensures { IfOk result (λ item. self.now.from < account_count
            → self.now.to < account_count → transfer_in item ≡ Some self.now) }
    {
        let [high, low] = self.amount.to_be_bytes();
        data(alloc, &[self.from, self.to, high, low])
    }
}
