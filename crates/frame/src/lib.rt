// Frames: the questions and answers of a round, and their bytes.
#![tactic(auto)]

mod decoding;
mod encoding;
mod header;
mod kind;
mod message;
mod parts;

pub use decoding::decode;
pub use encoding::encode;
pub use message::Message;
