// A pair of replicas with the channel toward each, and what is promised of every run of it.
#![tactic(auto)]

mod calls;
mod end;
mod making;
mod owner;
mod owners;
mod pair;
mod start;
mod unmade;

pub use end::End;
pub use pair::Peers;
pub use start::Start;
pub use unmade::Unmade;
