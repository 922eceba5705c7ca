// The elements that are supplied: registers, sets and counters, and the mast card made of them.
#![tactic(auto)]

mod card;
mod counter;
mod register;
mod set;
mod set_record;

pub use card::{Card, new_card};
pub use counter::Counter;
pub use register::Register;
pub use set::Set;
pub use set_record::{NeverAdded, SetRecord};
