// The making of a pair.
ghost use Rattle.channel.specs.Links.{Arrives};
ghost use Rattle.peers.specs.States.{MakesPair, Begun};

use crate::owner::Owner;
use crate::pair::Peers;
use crate::start::Start;
use crate::unmade::Unmade;
use channel::Channel;
use digest::Digest;
use element::{Element, Refusal};
use std::alloc::Global;

impl<E: Element, D: Digest + Drop, A: Channel + Drop, B: Channel + Drop> Peers<E, D, A, B> {
    // Makes two replicas of one size, under one digest. Each channel is the one toward that end. With channels from which
    // nothing may arrive, a run of the pair begins here.
    pub fn make(
        heap: Global,
        digest: D,
        left: Start<E>,
        right: Start<E>,
        to_left: A,
        to_right: B,
    ) -> Result<Self, Unmade>
        ensures pair { MakesPair A.Channel.link B.Channel.link E.Element.model D.Digest.function digest left right to_left to_right result }
        ensures begins { Begun A.Channel.link B.Channel.link E.Element.model D.Digest.function result }
    {
        if left.elements.len() != right.elements.len() {
            return Err(Unmade::Refused(Refusal::Size));
        }
        Ok(Peers {
            left: Owner::new(heap, &digest, left)?,
            right: Owner::new(heap, &digest, right)?,
            digest,
            to_left,
            to_right,
        })
    }
}
