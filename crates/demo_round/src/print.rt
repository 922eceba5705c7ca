// The copies and their roots, printed.
use mast_sites::Copies;
use std::io;

// Prints both copies, and the roots of their digest trees, by which a round first compares them.
pub(crate) fn print_copies(rt: &HostRuntime, when: &str, copies: &Copies) -> io::Result<()> {
    print!(rt; "the office's copy {when} the round\n{}", copies.office)?;
    print!(rt; "the laptop's copy {when} the round\n{}", copies.laptop)?;
    println!(rt; "roots {when}: {}", copies.roots())
}
