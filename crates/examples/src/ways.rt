//! Three ways to use the kit, in order of need: a group as one value, jobs by a seed and in threads, and nodes whose
//! frames the caller moves.
mod jobs;
mod transport;
mod world;

use anyhow::Result;
use cast::{Mode, Settings, no_faults, run_group, run_group_by_seed};
use std::alloc::Global;
use std::sync::Wait;
use std::thread::Threads;

pub fn show<R: Threads + Wait + Print + Copy + Send + 'static>(rt: R, alloc: Global) -> Result<()> {
    println!(&rt; "one value: {} delivered", world::first_path(alloc)?)?;
    by_seed(&rt, alloc)?;
    in_threads(rt, alloc)?;
    println!(&rt;
        "frames by hand: {} delivered",
        transport::carry_all(alloc)?
    )?;
    Ok(())
}

fn by_seed<R: Wait + Print>(rt: &R, alloc: Global) -> Result<()> {
    let config = Settings {
        mode: Mode::Uniform,
        ..Settings::of(3, 1)
    };
    let voters = jobs::voters(alloc)?;
    let run = run_group_by_seed(rt, alloc, config.check()?, &no_faults(alloc), voters, 1)?;
    jobs::show(rt, "by a seed", run.jobs.as_slice())
}

fn in_threads<R: Threads + Wait + Print + Copy + Send + 'static>(
    rt: R,
    alloc: Global,
) -> Result<()> {
    let config = Settings::of(3, 1).check()?;
    let run = run_group(rt, alloc, config, &no_faults(alloc), jobs::voters(alloc)?)?;
    jobs::show(&rt, "in threads", run.jobs.as_slice())
}
