// The call that takes a frame and handles it.
ghost use Rattle.std.specs.Prelude.{◌≡◌, true};
ghost use Rattle.frame.specs.Decoding.{decoded};
ghost use Rattle.frame.specs.Frames.{Lawful};
ghost use Rattle.frame.specs.Views.{viewed};
ghost use Rattle.replica.specs.Loans.{lent, Keeps};
ghost use Rattle.replica.specs.Replicas.{replica_of};
ghost use Rattle.replica.specs.Steps.{Reacts, Judged, Steps};

use crate::answer::Answer;
use crate::loan::Loan;
use crate::reacting::answer_compare;
use crate::round::Round;
use channel::Channel;
use digest::Digest;
use element::{Element, Refusal};
use frame::{Message, decode};

impl<E: Element, D: Digest> Loan<'_, '_, '_, '_, E, D> {
    // Does what a lawful message asks.
    fn react<O: Channel>(&mut self, message: Message<'_>, out: &mut O) -> Result<Answer, Refusal>
        requires { Lawful E.Element.model self.old.round.now.size (viewed message) }
        ensures keeps { Keeps self.old self.new }
        ensures does { Reacts E.Element.model (D.Digest.function self.old.digest.now) O.Channel.link (viewed message.entry) (lent self.old) (lent self.new) out.old out.new result }
    {
        match message {
            Message::Compare {
                round,
                range,
                digest,
            } => {
                answer_compare(round, range, digest, self.digests[usize::from(range)], out);
                Ok(Answer::Answered)
            }
            Message::Same { round, range } => {
                self.round.check_awaited(round, range)?;
                Ok(self.proceed(out))
            }
            Message::Differ { round, range } => {
                self.round.check_awaited(round, range)?;
                Ok(self.descend(out))
            }
            Message::Offer { round, range, part } => {
                let x = E::read(part).unwrap();
                self.take_offer(round, range, x, out);
                Ok(Answer::Answered)
            }
            Message::Held {
                round: number,
                range,
                part,
            } => {
                self.round.check_awaited(number, range)?;
                let x = E::read(part).unwrap();
                Ok(self.take_held(x, out))
            }
        }
    }

    // Reads a frame, and does what it asks.
    fn handle<O: Channel>(&mut self, frame: &[u8], out: &mut O) -> Result<Answer, Refusal>
        ensures keeps { Keeps self.old self.new }
        ensures does { Judged E.Element.model (D.Digest.function self.old.digest.now) O.Channel.link (decoded E.Element.model self.old.round.now.size frame.now) (lent self.old) (lent self.new) out.old out.new result }
    {
        let message = decode::<E>(usize::from(self.round.size), frame)?;
        self.react(message, out)
    }
}

// Takes what comes from the incoming channel and handles it.
pub fn step<E: Element, D: Digest, I: Channel, O: Channel>(
    digest: &D,
    round: &mut Round,
    elements: &mut [E],
    digests: &mut [u64],
    from: &mut I,
    out: &mut O,
) -> Result<Answer, Refusal>
    ensures { Steps E.Element.model (D.Digest.function digest.now) O.Channel.link I.Channel.link (replica_of round.old elements.old digests.old) (replica_of round.new elements.new digests.new) from.old from.new out.old out.new result }
{
    round.check_tables(elements, digests)?;
    let Some(packet) = from.take() else {
        return Ok(Answer::Nothing);
    };
    let mut loan = Loan {
        digest,
        round,
        elements,
        digests,
    };
    loan.handle(packet.as_bytes(), out)
}
