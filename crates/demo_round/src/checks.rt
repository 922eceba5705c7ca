// What a planner asks of the two copies.
use mast_sites::Copies;
use std::io;

pub(crate) fn print_checks(rt: &HostRuntime, copies: &Copies) -> io::Result<()> {
    let Copies { office, laptop } = copies;
    println!(rt; "both hold the same at every site: {}", copies.agree())?;
    println!(rt;
        "the height of site 0 is the corrected 3050 cm at both: {}",
        office.is_corrected() && laptop.is_corrected()
    )?;
    println!(rt;
        "position 1 of site 1 stays removed at both: {}",
        office.is_removed() && laptop.is_removed()
    )
}
