// Frames, written to lent memory.
ghost use Rattle.std.specs.Prelude.{◌≡◌};
ghost use Rattle.element.specs.Bytes.{placed};
ghost use Rattle.frame.specs.Frames.{written, room, Example};
ghost use Rattle.frame.specs.Views.{viewed};

use crate::header::Header;
use crate::kind::Kind;
use crate::message::Message;

// Writes the frame of `message` over the front of `out` and answers how many bytes that were. Where `out` is too short,
// it writes nothing and answers none.
pub fn encode(message: Message<'_>, out: &mut [u8]) -> Option<usize>
    ensures count { result ≡ room (written (viewed message.entry)) out.old }
    ensures after { out.new ≡ placed (written (viewed message.entry)) out.old }
    ensures example { Example }
{
    match message {
        Message::Compare {
            round,
            range,
            digest,
        } => Header::new(Kind::Compare, round, range).put(&digest.to_be_bytes(), out),
        Message::Same { round, range } => Header::new(Kind::Same, round, range).put(&[], out),
        Message::Differ { round, range } => Header::new(Kind::Differ, round, range).put(&[], out),
        Message::Offer { round, range, part } => {
            Header::new(Kind::Offer, round, range).put(part, out)
        }
        Message::Held { round, range, part } => {
            Header::new(Kind::Held, round, range).put(part, out)
        }
    }
}
