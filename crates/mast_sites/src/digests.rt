// A digest of each copy.
use std::fmt;

#[derive(Clone, Copy)]
pub struct Digests {
    pub office: u64,
    pub laptop: u64,
}

impl fmt::Display for Digests {
    fn fmt<W: fmt::Write>(&self, f: &mut fmt::Formatter<W>) -> fmt::Result {
        write!(
            f,
            "{:016x} at the office, {:016x} on the laptop",
            self.office, self.laptop
        )
    }
}
