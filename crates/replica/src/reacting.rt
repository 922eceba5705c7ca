// What a step does with a message.
ghost use Rattle.std.specs.Prelude.{◌≡◌, ◌-◌, ◌*◌, ◌<◌, true, if◌then◌else◌, Some, Ok, nat_eq};
ghost use Rattle.frame.specs.Frames.{written, same as frame_same, differ as frame_differ, Single};
ghost use Rattle.tree.specs.Walk.{follow};
ghost use Rattle.replica.specs.Loans.{lent, Keeps};
ghost use Rattle.replica.specs.Replicas.{absorbed, question};
ghost use Rattle.replica.specs.Steps.{Proceeds, Offered};
ghost use Rattle.replica.specs.declared.answer.Answer.TheVariants.{Answered};

use crate::answer::Answer;
use crate::asking::{ask, part_of, send};
use crate::loan::Loan;
use crate::tables::absorb;
use channel::Channel;
use digest::Digest;
use element::Element;
use frame::Message;

// Answers a compare: same where the digest sent is this replica's own, and differ otherwise.
pub(crate) fn answer_compare<O: Channel>(round: u32, range: u16, sent: u64, own: u64, out: &mut O)
    ensures { O.Channel.link.puts out.old (written (if nat_eq sent own then frame_same round range else frame_differ round range)) out.new }
{
    if sent == own {
        send(Message::Same { round, range }, out);
    } else {
        send(Message::Differ { round, range }, out);
    }
}

impl<E: Element, D: Digest> Loan<'_, '_, '_, '_, E, D> {
    // Puts the question of the running range.
    #[tactic(auto, using(crate::proofs::Walks::range_high))]
    fn ask<O: Channel>(&self, out: &mut O)
        requires { self.now.round.now.running ≡ true }
        ensures { O.Channel.link.puts out.old (written (question E.Element.model (D.Digest.function self.now.digest.now) (lent self.now) self.now.round.now.range)) out.new }
    {
        ask(
            self.digest,
            self.round,
            self.elements,
            self.digests,
            self.round.range,
            out,
        );
    }

    // Goes on from the running range, which is settled, to the one that follows, or ends the round.
    pub(crate) fn proceed<O: Channel>(&mut self, out: &mut O) -> Answer
        requires { self.old.round.now.running ≡ true }
        ensures keeps { Keeps self.old self.new }
        ensures does { Proceeds E.Element.model (D.Digest.function self.old.digest.now) O.Channel.link (follow self.old.round.now.range) (lent self.old) (lent self.new) out.old out.new (Ok result) }
    {
        let answer = self.round.settle();
        if self.round.running {
            self.ask(out);
        }
        answer
    }

    // Goes on from the running range, which differs, to its lower half.
    pub(crate) fn descend<O: Channel>(&mut self, out: &mut O) -> Answer
        requires { (self.old.round.now.running ≡ true) × (self.old.round.now.range < self.old.round.now.size) }
        ensures keeps { Keeps self.old self.new }
        ensures does { Proceeds E.Element.model (D.Digest.function self.old.digest.now) O.Channel.link (Some (2 * self.old.round.now.range)) (lent self.old) (lent self.new) out.old out.new (Ok result) }
    {
        let answer = self.round.split();
        self.ask(out);
        answer
    }

    // Takes the element of an offer into the range's key, and answers with what the key then holds.
    pub(crate) fn take_offer<O: Channel>(&mut self, asked: u32, range: u16, x: E, out: &mut O)
        requires { Single self.old.round.now.size range }
        ensures keeps { Keeps self.old self.new }
        ensures does { Offered E.Element.model (D.Digest.function self.old.digest.now) O.Channel.link asked range x (lent self.old) (lent self.new) out.old out.new (Ok Answered) }
    {
        let key = usize::from(range - self.round.size);
        let held = absorb(self.digest, self.elements, self.digests, key, x);
        let mut bytes = [0; 64];
        let part = part_of(&held, &mut bytes);
        send(
            Message::Held {
                round: asked,
                range,
                part,
            },
            out,
        );
    }

    // Takes the element that the other replica holds into the running range's key, and goes on.
    pub(crate) fn take_held<O: Channel>(&mut self, x: E, out: &mut O) -> Answer
        requires { (self.old.round.now.running ≡ true) × (Single self.old.round.now.size self.old.round.now.range) }
        ensures keeps { Keeps self.old self.new }
        ensures does { Proceeds E.Element.model (D.Digest.function self.old.digest.now) O.Channel.link (follow self.old.round.now.range) (absorbed E.Element.model (D.Digest.function self.old.digest.now) (lent self.old) (self.old.round.now.range - self.old.round.now.size) x) (lent self.new) out.old out.new (Ok result) }
    {
        let key = usize::from(self.round.range - self.round.size);
        absorb(self.digest, self.elements, self.digests, key, x);
        self.proceed(out)
    }
}
