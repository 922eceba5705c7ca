// Two small copies of a table of mast cards, an office's and a laptop's, and how they read as text.
#![tactic(auto)]

mod copies;
mod digests;
mod sites;
mod start;

pub use copies::Copies;
pub use digests::Digests;
pub use sites::{SITES, SiteCard, Sites};
pub use start::BEFORE;
