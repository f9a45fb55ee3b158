//! Three programs that use the kit as `cast`, run in turn: a counter, a ledger, and the ways to use the kit.
#![tactic(auto)]

mod counter;
mod ledger;
mod ways;

use anyhow::Result;

fn main(rt: HostRuntime) -> Result<()> {
    let alloc = rt.alloc();
    counter::count(rt, alloc)?;
    ledger::by_seed(&rt, alloc, 7)?;
    ledger::in_threads(rt, alloc)?;
    ways::show(rt, alloc)
}
