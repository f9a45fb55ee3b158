//! A ledger that each node keeps. Transfers between accounts are broadcast, and a node's sheet takes those that it
//! delivers. The same followers run by a seed, with losses and a crash, and in threads, with losses.
//!
//! What a node keeps must not depend on the order between senders. Here it keeps sums of what each account received and
//! sent. It could not ensure that an account is never overdrawn: whether a transfer is covered depends on what came
//! before it.
mod law;
mod sheet;
mod story;
mod transfer;

use anyhow::Result;
use cast::{Followed, run_followers, run_followers_by_seed};
use sheet::Sheet;
use std::alloc::Global;
use std::sync::Wait;
use std::thread::Threads;

pub fn by_seed<R: Wait + Print>(rt: &R, alloc: Global, seed: u64) -> Result<()> {
    let plan = story::losses_and_a_crash(alloc)?;
    let run = run_followers_by_seed(
        rt,
        alloc,
        story::config()?,
        &plan,
        story::ledgers(alloc)?,
        seed,
    )?;
    println!(rt; "by seed {seed}, node 2 crashes")?;
    show(rt, &run)
}

/// Threads run differently each time, but the output is the same: at rest all have delivered all items.
pub fn in_threads<R: Threads + Wait + Print + Copy + Send + 'static>(
    rt: R,
    alloc: Global,
) -> Result<()> {
    let plan = story::losses(alloc)?;
    let run = run_followers(rt, alloc, story::config()?, &plan, story::ledgers(alloc)?)?;
    println!(&rt; "in threads")?;
    show(&rt, &run)
}

fn show(rt: &impl Print, run: &Followed<Sheet>) -> Result<()> {
    for (sheet, client) in run.machines.iter().zip(run.clients.iter()) {
        let crashed = if run.assembly.world.live(client.node) {
            ""
        } else {
            ", crashed"
        };
        println!(rt; "node {}{crashed}:{sheet}", client.node.0)?;
    }
    println!(rt; "at rest: {}", run.assembly.world.at_rest())?;
    Ok(())
}
