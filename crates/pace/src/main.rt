//! Measures how long an end takes over arrivals. It reads a list of them once, makes as many laps over it as its argument says,
//! each at a fresh end, and prints the checksum of the answers and the processor time of each lap.
#![tactic(auto)]

use lap::lap;
use list::List;
use std::env;
use std::time::CpuClock;

mod checksum;
mod lap;
mod list;

fn main(rt: HostRuntime) -> anyhow::Result<()> {
    let laps = laps_wanted(&rt)?;
    let list = List::read(&rt)?;
    let answers = lap(rt.alloc(), &list)?;
    println!(rt; "answers {answers}")?;
    for _ in 0..laps {
        let start = rt.thread_cpu_time()?;
        let answers = lap(rt.alloc(), &list)?;
        let took = rt.thread_cpu_time()?.saturating_sub(start);
        println!(rt; "lap {} {answers}", took.as_nanos())?;
    }
    Ok(())
}

// With no argument the answers alone are wanted.
fn laps_wanted(rt: &HostRuntime) -> anyhow::Result<u32> {
    let mut args = env::args(rt)?;
    let _program = args.next();
    match args.next() {
        Some(laps) => Ok(laps.as_str().parse::<u32>()?),
        None => Ok(0),
    }
}
