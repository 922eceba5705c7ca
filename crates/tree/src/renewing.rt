// The digest table, renewed after a key has changed.
ghost use Rattle.std.specs.Prelude.{◌≡◌, ◌+◌, ◌*◌, ◌<◌, length};
ghost use Rattle.tree.specs.Renewal.{climbed, renew_answer, renew_after, Renewing, Stays};

use crate::digests::{leaf, node};
use crate::size::tables_fit;
use digest::Digest;
use element::{Element, Refusal};

// Renews the digests of range `from` and of those above it.
fn climb<D: Digest>(digest: &D, from: usize, digests: &mut [u64])
    requires { (2 * from + 1 < length digests.old) × (from < 4096) }
    ensures { digests.new ≡ climbed (D.Digest.function digest.now) 12 from digests.old }
{
    let mut n = from;
    // a `while`: an iterator over the halves would have to name the end twice (`successors`) or the levels (`take_while`)
    while n > 0 {
        digests[n] = node(digest, digests[2 * n], digests[2 * n + 1]);
        n /= 2;
    }
}

// Renews the digest of a key's range and of those above, from what the tables hold, whatever that is. It declines
// tables that do not fit, and then a key that is not there, and then writes nothing.
pub fn renew<E: Element, D: Digest>(
    digest: &D,
    elements: &[E],
    digests: &mut [u64],
    key: usize,
) -> Result<(), Refusal>
    ensures answer { result ≡ renew_answer E.Element.model (D.Digest.function digest.now) elements.now key digests.old }
    ensures after { digests.new ≡ renew_after E.Element.model (D.Digest.function digest.now) elements.now key digests.old }
    ensures rule { Renewing E.Element.model (D.Digest.function digest.now) }
    ensures stays { Stays E.Element.model (D.Digest.function digest.now) }
{
    let n = elements.len();
    if !tables_fit(n, digests.len()) {
        return Err(Refusal::Size);
    }
    if key >= n {
        return Err(Refusal::Key);
    }
    digests[n + key] = leaf(digest, &elements[key]);
    climb(digest, (n + key) / 2, digests);
    Ok(())
}
