// Questions, put to a channel.
ghost use Rattle.std.specs.Prelude.{◌≡◌, ◌*◌, ◌<◌, ◌≤◌, true, length};
ghost use Rattle.frame.specs.Frames.{written};
ghost use Rattle.frame.specs.Views.{viewed};
ghost use Rattle.replica.specs.Replicas.{fitting, question, replica_of};

use crate::round::Round;
use channel::Channel;
use digest::Digest;
use element::Element;
use frame::{Message, encode};

// Puts the frame of a message.
pub(crate) fn send<O: Channel>(message: Message<'_>, out: &mut O)
    requires { length (written (viewed message)) ≤ 71 }
    ensures { O.Channel.link.puts out.old (written (viewed message.entry)) out.new }
{
    // room for the longest frame: without a heap there is no buffer of just this frame's length
    let mut bytes = [0; 71];
    let n = encode(message, &mut bytes).unwrap();
    out.put(&bytes[..n]);
}

// Puts the question of range `n`: its digest where it has halves, and of a single key its element. It takes the parts of a
// replica one by one, since open and resend are lent tables that they may not change, and a struct for this one function
// would be made at each of its calls.
pub(crate) fn ask<E: Element, D: Digest, O: Channel>(
    digest: &D,
    round: &Round,
    elements: &[E],
    digests: &[u64],
    n: u16,
    out: &mut O,
)
    requires { (fitting (replica_of round.now elements.now digests.now) ≡ true) × (n < 2 * round.now.size) }
    ensures { O.Channel.link.puts out.old (written (question E.Element.model (D.Digest.function digest.now) (replica_of round.now elements.now digests.now) n)) out.new }
{
    let place = usize::from(n);
    let size = usize::from(round.size);
    if place < size {
        send(
            Message::Compare {
                round: round.last,
                range: n,
                digest: digests[place],
            },
            out,
        );
    } else {
        let mut bytes = [0; 64];
        let part = part_of(&elements[place - size], &mut bytes);
        send(
            Message::Offer {
                round: round.last,
                range: n,
                part,
            },
            out,
        );
    }
}

// The bytes of `x`, written at the front of `bytes`. That has room for the widest element: without a heap there is no
// buffer of just this type's width.
pub(crate) fn part_of<'a, E: Element>(x: &E, bytes: &'a mut [u8; 64]) -> &'a [u8]
    ensures { result.now ≡ E.Element.model.written x.now }
{
    x.write(bytes);
    &bytes[..E::width()]
}
