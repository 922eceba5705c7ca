// Runs whole rounds between two replicas and prints how they went. What is to be printed comes from an independent
// simulation.
#![tactic(auto)]

mod cases;
mod names;
mod orderly;
mod plans;
mod scripted;
mod sites;
mod trial;

use digest::{Fnv, Sum};
use kinds::{Card, Register};
use orderly::run_cases;
use plans::{CROSSING, LONG, LOSSY, RENEWED, REPEATING, SILENT, large_cases, small_cases};
use scripted::run_script;

fn run(rt: &HostRuntime) -> anyhow::Result<()> {
    run_cases::<Register, Fnv>(rt, Fnv, &small_cases())?;
    run_cases::<Register, Sum>(rt, Sum, &small_cases())?;
    run_cases::<Card, Fnv>(rt, Fnv, &small_cases())?;
    run_cases::<Card, Sum>(rt, Sum, &small_cases())?;
    run_cases::<Card, Fnv>(rt, Fnv, &large_cases())?;
    run_script::<Register, Fnv>(rt, Fnv, &LOSSY)?;
    run_script::<Register, Fnv>(rt, Fnv, &REPEATING)?;
    run_script::<Register, Sum>(rt, Sum, &SILENT)?;
    run_script::<Register, Fnv>(rt, Fnv, &RENEWED)?;
    run_script::<Card, Sum>(rt, Sum, &CROSSING)?;
    run_script::<Card, Fnv>(rt, Fnv, &LONG)?;
    Ok(())
}

fn main(rt: HostRuntime) -> anyhow::Result<()> {
    run(&rt)
}
