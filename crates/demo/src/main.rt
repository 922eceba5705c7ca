// Two copies of a small table of mast cards, an office's and a laptop's, are joined key by key.
#![tactic(auto)]

mod copies;
mod link;

use copies::{digest_of, joined, stands_in};
use link::send;
use mast_sites::{BEFORE, Copies, Digests};
use std::io;

// Prints what became of the two copies once they were joined.
fn print_checks(rt: &HostRuntime, before: &Copies, after: &Copies) -> io::Result<()> {
    let whole = &after.office;
    println!(rt; "both orders of joining agree: {}", after.agree())?;
    println!(rt;
        "all that the office had stands: {}",
        stands_in(&before.office, whole)
    )?;
    println!(rt;
        "all that the laptop had stands: {}",
        stands_in(&before.laptop, whole)
    )?;
    println!(rt;
        "the height of site 0 is the corrected one: {}",
        whole.is_corrected()
    )?;
    println!(rt;
        "position 1 of site 1 stays removed: {}",
        whole.is_removed()
    )
}

// Prints the digests by which two copies are compared: of all their bytes, and at the root of their digest trees.
fn print_digests(rt: &HostRuntime, when: &str, copies: &Copies) -> anyhow::Result<()> {
    let digests = Digests {
        office: digest_of(rt.alloc(), &copies.office)?,
        laptop: digest_of(rt.alloc(), &copies.laptop)?,
    };
    println!(rt; "fnv {when}: {digests}")?;
    println!(rt; "roots {when}: {}", copies.roots())?;
    Ok(())
}

fn run(rt: &HostRuntime) -> anyhow::Result<()> {
    let before = BEFORE;
    print!(rt; "the office's copy\n{}", before.office)?;
    print!(rt; "the laptop's copy\n{}", before.laptop)?;
    let after = Copies {
        office: joined(&before.office, &before.laptop)?,
        laptop: joined(&before.laptop, &before.office)?,
    };
    print!(rt;
        "the office's copy, with the laptop's joined into it\n{}",
        after.office
    )?;
    print_checks(rt, &before, &after)?;
    print_digests(rt, "before", &before)?;
    print_digests(rt, "after", &after)?;
    send(rt, &before.laptop.cards[0])?;
    Ok(())
}

fn main(rt: HostRuntime) -> anyhow::Result<()> {
    run(&rt)
}
