// The making of a replica that owns its tables, and its calls.
ghost use Rattle.std.specs.Prelude.{◌≡◌};
ghost use Rattle.peers.specs.Calls.{Lays, Opens, Resends, Abandons};
ghost use Rattle.replica.specs.Calls.{show_answer};
ghost use Rattle.replica.specs.Steps.{Steps};
ghost use Rattle.peers.specs.States.{owned, Owns};

use crate::owner::Owner;
use crate::start::Start;
use crate::unmade::Unmade;
use channel::Channel;
use digest::Digest;
use element::{Element, Refusal};
use replica::{Answer, abandon, lay, make, open, resend, show, step};
use std::alloc::Global;
use tree::is_size;

impl<E: Element> Owner<E> {
    // Makes a replica, with a digest table of its own.
    pub(crate) fn new<D: Digest>(heap: Global, digest: &D, start: Start<E>) -> Result<Self, Unmade>
        ensures { Owns E.Element.model (D.Digest.function digest.now) start result }
    {
        let elements = start.elements;
        let size = elements.len();
        if !is_size(size) {
            return Err(Unmade::Refused(Refusal::Size));
        }
        let mut digests = vec![in heap; 0; 2 * size]?;
        let round = make(digest, &elements, &mut digests, start.last)?;
        Ok(Owner {
            round,
            elements,
            digests,
        })
    }

    pub(crate) fn lay<D: Digest>(&mut self, digest: &D, key: usize, x: E) -> Result<(), Refusal>
        ensures { Lays E.Element.model (D.Digest.function digest.now) key x result (owned self.old) (owned self.new) }
    {
        lay(
            digest,
            &self.round,
            &mut self.elements,
            &mut self.digests,
            key,
            x,
        )
    }

    pub(crate) fn show<D: Digest>(&self, digest: &D, key: usize) -> Result<E, Refusal>
        ensures { result ≡ show_answer E.Element.model (D.Digest.function digest.now) (owned self.now) key }
    {
        show(digest, &self.round, &self.elements, &self.digests, key)
    }

    pub(crate) fn open<D: Digest, O: Channel>(
        &mut self,
        digest: &D,
        out: &mut O,
    ) -> Result<(), Refusal>
        ensures { Opens E.Element.model (D.Digest.function digest.now) O.Channel.link result (owned self.old) (owned self.new) out.old out.new }
    {
        open(digest, &mut self.round, &self.elements, &self.digests, out)
    }

    pub(crate) fn resend<D: Digest, O: Channel>(
        &self,
        digest: &D,
        out: &mut O,
    ) -> Result<(), Refusal>
        ensures { Resends E.Element.model (D.Digest.function digest.now) O.Channel.link result (owned self.now) out.old out.new }
    {
        resend(digest, &self.round, &self.elements, &self.digests, out)
    }

    pub(crate) fn abandon<D: Digest>(&mut self, digest: &D) -> Result<(), Refusal>
        ensures { Abandons E.Element.model (D.Digest.function digest.now) result (owned self.old) (owned self.new) }
    {
        abandon(digest, &mut self.round, &self.elements, &self.digests)
    }

    pub(crate) fn step<D: Digest, I: Channel, O: Channel>(
        &mut self,
        digest: &D,
        from: &mut I,
        out: &mut O,
    ) -> Result<Answer, Refusal>
        ensures { Steps E.Element.model (D.Digest.function digest.now) O.Channel.link I.Channel.link (owned self.old) (owned self.new) from.old from.new out.old out.new result }
    {
        step(
            digest,
            &mut self.round,
            &mut self.elements,
            &mut self.digests,
            from,
            out,
        )
    }
}
