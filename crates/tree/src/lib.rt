// Ranges of keys, the order in which a round goes through them, and the digest tree over a table of elements.
#![tactic(auto)]

mod building;
mod digests;
mod renewing;
mod size;
mod walk;

// Both tables stay with their owner, who lends them to each call: so they are its parameters, and no struct's fields.
// The tree lies in the lent table, range n at place n: without a heap there are no boxes.
pub use building::build;
pub use renewing::renew;
pub use size::is_size;
pub use walk::next_range;
