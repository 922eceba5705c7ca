// The calls at either end of a pair.
ghost use Rattle.std.specs.Prelude.{◌≡◌};
ghost use Rattle.replica.specs.Calls.{show_answer};
ghost use Rattle.peers.specs.Pairs.{laid, opened, resent, abandoned, lines};
ghost use Rattle.peers.specs.Promise.{Promise};
ghost use Rattle.peers.specs.States.{digest_of, replicas, Goes, StepsTo};

use crate::end::End;
use crate::pair::Peers;
use channel::Channel;
use digest::Digest;
use element::{Element, Refusal};
use replica::Answer;

// Two arms a call. The channels of the ends are of two types, so no one expression names those of open, resend and step;
// for lay and abandon a function that lends the owner of an end would need a clause on both owners after the loan. And show
// reads like the others.
impl<E: Element, D: Digest, A: Channel, B: Channel> Peers<E, D, A, B> {
    // Joins an element into a key.
    pub fn lay(&mut self, end: End, key: usize, x: E) -> Result<(), Refusal>
        ensures { Goes A.Channel.link B.Channel.link E.Element.model D.Digest.function end (laid end key x result) self.old self.new }
    {
        match end {
            End::Left => self.left.lay(&self.digest, key, x),
            End::Right => self.right.lay(&self.digest, key, x),
        }
    }

    // Opens a round: takes the next round number and asks about range 1.
    pub fn open(&mut self, end: End) -> Result<(), Refusal>
        ensures { Goes A.Channel.link B.Channel.link E.Element.model D.Digest.function end (opened end result) self.old self.new }
    {
        match end {
            End::Left => self.left.open(&self.digest, &mut self.to_right),
            End::Right => self.right.open(&self.digest, &mut self.to_left),
        }
    }

    // Asks again about the range at which the round is.
    pub fn resend(&mut self, end: End) -> Result<(), Refusal>
        ensures { Goes A.Channel.link B.Channel.link E.Element.model D.Digest.function end (resent end result) self.old self.new }
    {
        match end {
            End::Left => self.left.resend(&self.digest, &mut self.to_right),
            End::Right => self.right.resend(&self.digest, &mut self.to_left),
        }
    }

    // Gives the round up.
    pub fn abandon(&mut self, end: End) -> Result<(), Refusal>
        ensures { Goes A.Channel.link B.Channel.link E.Element.model D.Digest.function end (abandoned end result) self.old self.new }
    {
        match end {
            End::Left => self.left.abandon(&self.digest),
            End::Right => self.right.abandon(&self.digest),
        }
    }

    // What a key holds.
    pub fn show(&self, end: End, key: usize) -> Result<E, Refusal>
        ensures { result ≡ show_answer E.Element.model (D.Digest.function (digest_of self.now)) (replicas A.Channel.link B.Channel.link self.now end) key }
    {
        match end {
            End::Left => self.left.show(&self.digest, key),
            End::Right => self.right.show(&self.digest, key),
        }
    }

    // Takes what comes from the channel toward this end, and handles it. Whatever run of the pair led here, all that is
    // promised of it holds.
    pub fn step(&mut self, end: End) -> Result<Answer, Refusal>
        ensures goes { StepsTo A.Channel.link B.Channel.link E.Element.model D.Digest.function end result self.old self.new }
        ensures promise { Promise E.Element.model (D.Digest.function (digest_of self.old)) (lines A.Channel.link B.Channel.link) }
    {
        match end {
            End::Left => self
                .left
                .step(&self.digest, &mut self.to_left, &mut self.to_right),
            End::Right => self
                .right
                .step(&self.digest, &mut self.to_right, &mut self.to_left),
        }
    }
}
