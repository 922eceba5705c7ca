// A replica of a collection: an element table, a digest table, and the record of its round. Its owner keeps the tables
// and hands both to each call: so they are parameters of each call, and no struct's fields.
#![tactic(auto)]

mod answer;
mod asking;
mod judging;
mod loan;
mod making;
mod opening;
mod reacting;
mod round;
mod rounds;
mod stepping;
mod tables;

pub use answer::Answer;
pub use making::make;
pub use opening::{abandon, open, resend};
pub use round::Round;
pub use stepping::step;
pub use tables::{lay, show};
