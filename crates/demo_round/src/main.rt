// An office's and a laptop's copy of four mast cards are brought together by one round, over couriers that repeat,
// delay and lose frames.
#![tactic(auto)]

mod checks;
mod ends;
mod picks;
mod print;
mod round;

use checks::print_checks;
use ends::{copies_of, make_pair};
use print::print_copies;
use round::bring_together;

fn run(rt: &HostRuntime) -> anyhow::Result<()> {
    let mut pair = make_pair(rt.alloc())?;
    print_copies(rt, "before", &copies_of(&pair)?)?;
    println!(rt; "the round, over couriers that repeat, delay and lose frames")?;
    let answers = bring_together(rt, &mut pair)?;
    println!(rt; "the report: the round is complete, with {answers} answers")?;
    let after = copies_of(&pair)?;
    print_copies(rt, "after", &after)?;
    print_checks(rt, &after)?;
    Ok(())
}

fn main(rt: HostRuntime) -> anyhow::Result<()> {
    run(&rt)
}
