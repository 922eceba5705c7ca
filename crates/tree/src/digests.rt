// The digest of a single range, from what is digested of it in local memory.
ghost use Rattle.std.specs.Prelude.{◌≡◌};
ghost use Rattle.tree.specs.Tree.{leaf_bytes, node_bytes};

use digest::Digest;
use element::Element;

// The bytes that are digested of a range with two halves.
fn node_of(lower: u64, upper: u64) -> [u8; 17]
    ensures { result ≡ node_bytes lower upper }
{
    let mut bytes = [1; 17];
    bytes[1..9].copy_from_slice(&lower.to_be_bytes());
    bytes[9..].copy_from_slice(&upper.to_be_bytes());
    bytes
}

// The digest of a range with two halves, by their digests.
pub(crate) fn node<D: Digest>(digest: &D, lower: u64, upper: u64) -> u64
    ensures { result ≡ D.Digest.function digest.now (node_bytes lower upper) }
{
    digest.digest(&node_of(lower, upper))
}

// The digest of a single key, by its element.
pub(crate) fn leaf<E: Element, D: Digest>(digest: &D, x: &E) -> u64
    ensures { result ≡ D.Digest.function digest.now (leaf_bytes E.Element.model x.now) }
{
    // room for the widest element: without a heap there is no buffer of just this type's width
    let mut bytes = [0; 65];
    x.write(&mut bytes[1..]);
    digest.digest(&bytes[..1 + E::width()])
}
