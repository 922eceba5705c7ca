// The call that makes a replica.
ghost use Rattle.std.specs.Prelude.{◌≡◌, length};
ghost use Rattle.tree.specs.Tree.{build_after};
ghost use Rattle.replica.specs.Calls.{Makes};

use crate::round::Round;
use digest::Digest;
use element::{Element, Refusal};
use tree::build;

// Builds the digest table over the elements that it finds, and answers an idle record.
pub fn make<E: Element, D: Digest>(
    digest: &D,
    elements: &[E],
    digests: &mut [u64],
    last: u32,
) -> Result<Round, Refusal>
    ensures answer { Makes (length elements.now) (length digests.old) last result }
    ensures after { digests.new ≡ build_after E.Element.model (D.Digest.function digest.now) elements.now digests.old }
{
    let round = Round::new(elements.len(), last).ok_or(Refusal::Size)?;
    build(digest, elements, digests)?;
    Ok(round)
}
