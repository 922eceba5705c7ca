// The calls that open a round, ask again and give it up.
ghost use Rattle.std.specs.Prelude.{◌≡◌};
ghost use Rattle.replica.specs.Calls.{open_answer, open_after, running_answer, abandon_after, current, Puts};
ghost use Rattle.replica.specs.Replicas.{replica_of};
ghost use Rattle.replica.specs.Rounds.{state_of};

use crate::asking::ask;
use crate::round::Round;
use channel::Channel;
use digest::Digest;
use element::{Element, Refusal};

// Takes the next round number and asks about range 1.
#[tactic(auto, using(tree::proofs::Sizing::sized_low))]
pub fn open<E: Element, D: Digest, O: Channel>(
    digest: &D,
    round: &mut Round,
    elements: &[E],
    digests: &[u64],
    out: &mut O,
) -> Result<(), Refusal>
    ensures answer { result ≡ open_answer E.Element.model (D.Digest.function digest.now) (replica_of round.old elements.now digests.now) }
    ensures after { replica_of round.new elements.now digests.now ≡ open_after E.Element.model (D.Digest.function digest.now) (replica_of round.old elements.now digests.now) }
    ensures link { Puts E.Element.model (D.Digest.function digest.now) (replica_of round.new elements.now digests.now) result O.Channel.link (current E.Element.model (D.Digest.function digest.now) (replica_of round.new elements.now digests.now) (state_of round.new)) out.old out.new }
{
    round.check_tables(elements, digests)?;
    if round.running {
        return Err(Refusal::Busy);
    }
    if round.last == u32::MAX {
        return Err(Refusal::Spent);
    }
    round.begin();
    ask(digest, round, elements, digests, 1, out);
    Ok(())
}

// Puts the question of the running range as it stands now.
#[tactic(auto, using(crate::proofs::Walks::range_high))]
pub fn resend<E: Element, D: Digest, O: Channel>(
    digest: &D,
    round: &Round,
    elements: &[E],
    digests: &[u64],
    out: &mut O,
) -> Result<(), Refusal>
    ensures answer { result ≡ running_answer E.Element.model (D.Digest.function digest.now) (replica_of round.now elements.now digests.now) }
    ensures link { Puts E.Element.model (D.Digest.function digest.now) (replica_of round.now elements.now digests.now) result O.Channel.link (current E.Element.model (D.Digest.function digest.now) (replica_of round.now elements.now digests.now) (state_of round.now)) out.old out.new }
{
    round.check_tables(elements, digests)?;
    round.check_running()?;
    ask(digest, round, elements, digests, round.range, out);
    Ok(())
}

// Gives the round up. Its number stays used.
pub fn abandon<E: Element, D: Digest>(
    digest: &D,
    round: &mut Round,
    elements: &[E],
    digests: &[u64],
) -> Result<(), Refusal>
    ensures answer { result ≡ running_answer E.Element.model (D.Digest.function digest.now) (replica_of round.old elements.now digests.now) }
    ensures after { replica_of round.new elements.now digests.now ≡ abandon_after E.Element.model (D.Digest.function digest.now) (replica_of round.old elements.now digests.now) }
{
    round.check_tables(elements, digests)?;
    round.check_running()?;
    round.end();
    Ok(())
}
