// The two tables of a replica, and elements joined into them.
ghost use Rattle.std.specs.Prelude.{◌≡◌, ◌<◌, true, length};
ghost use Rattle.element.specs.Tables.{held_at, joined_at};
ghost use Rattle.tree.specs.Renewal.{renewed};
ghost use Rattle.tree.specs.Sizes.{fit};
ghost use Rattle.replica.specs.Calls.{lay_answer, lay_after, show_answer};
ghost use Rattle.replica.specs.Replicas.{replica_of};

use crate::round::Round;
use digest::Digest;
use element::{Element, Refusal, join_at};
use tree::renew;

// Joins `x` into a key and renews the digests; answers what the key then holds.
pub(crate) fn absorb<E: Element, D: Digest>(
    digest: &D,
    elements: &mut [E],
    digests: &mut [u64],
    key: usize,
    x: E,
) -> E
    requires { (fit (length elements.old) (length digests.old) ≡ true) × (key < length elements.old) }
    ensures held { result ≡ held_at E.Element.model elements.old key x }
    ensures elements { elements.new ≡ joined_at E.Element.model elements.old key x }
    ensures digests { digests.new ≡ renewed E.Element.model (D.Digest.function digest.now) (joined_at E.Element.model elements.old key x) key digests.old }
{
    let held = join_at(elements, key, x).unwrap();
    renew(digest, elements, digests, key).unwrap();
    held
}

// Joins an element into a key, and renews the digests of its range and of those above.
pub fn lay<E: Element, D: Digest>(
    digest: &D,
    round: &Round,
    elements: &mut [E],
    digests: &mut [u64],
    key: usize,
    x: E,
) -> Result<(), Refusal>
    ensures answer { result ≡ lay_answer E.Element.model (D.Digest.function digest.now) (replica_of round.now elements.old digests.old) key }
    ensures after { replica_of round.now elements.new digests.new ≡ lay_after E.Element.model (D.Digest.function digest.now) (replica_of round.now elements.old digests.old) key x }
{
    round.check_tables(elements, digests)?;
    round.check_key(key)?;
    absorb(digest, elements, digests, key, x);
    Ok(())
}

// What a key holds, as what its record stands for.
pub fn show<E: Element, D: Digest>(
    digest: &D,
    round: &Round,
    elements: &[E],
    digests: &[u64],
    key: usize,
) -> Result<E, Refusal>
    ensures { result ≡ show_answer E.Element.model (D.Digest.function digest.now) (replica_of round.now elements.now digests.now) key }
{
    round.check_tables(elements, digests)?;
    round.check_key(key)?;
    Ok(elements[key].meaning())
}
