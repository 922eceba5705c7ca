// The digest table, built anew.
ghost use Rattle.std.specs.Prelude.{◌≡◌, ℕ, ◌+◌, ◌*◌, ◌<◌, ◌≤◌, length, slice_index, slice_index_or};
ghost use Rattle.tree.specs.Renewal.{node_in};
ghost use Rattle.tree.specs.Tree.{leaf_bytes, build_answer, build_after, Built, Telling};

use crate::digests::{leaf, node};
use crate::size::tables_fit;
use digest::Digest;
use element::{Element, Refusal};

// The digests of the single keys.
fn fill_leaves<E: Element, D: Digest>(digest: &D, elements: &[E], digests: &mut [u64])
    requires { length digests.old ≡ 2 * length elements.now }
    ensures { (k : ℕ) → k < length elements.now → slice_index digests.new (length elements.now + k) ≡ D.Digest.function digest.now (leaf_bytes E.Element.model (slice_index_or elements.now k E.Element.model.bottom)) }
{
    let n = elements.len();
    for (key, element) in elements.iter().enumerate() {
        digests[n + key] = leaf(digest, element);
    }
}

// The digests of the ranges that have halves, the last first.
fn fill_nodes<D: Digest>(digest: &D, size: usize, digests: &mut [u64])
    requires { length digests.old ≡ 2 * size }
    ensures nodes { (k : ℕ) → 1 ≤ k → k < size → slice_index digests.new k ≡ node_in (D.Digest.function digest.now) digests.new k }
    ensures kept { (k : ℕ) → size ≤ k → slice_index digests.new k ≡ slice_index digests.old k }
{
    // by numbers, since a place is tied to those of its halves by its number alone: k to 2k and 2k + 1
    for k in (1..size).rev() {
        digests[k] = node(digest, digests[2 * k], digests[2 * k + 1]);
    }
}

// Fills `digests` with the digest tree of `elements`: 0 at place 0, and the digest of range n at place n. It declines
// tables that do not fit, and then writes nothing.
pub fn build<E: Element, D: Digest>(
    digest: &D,
    elements: &[E],
    digests: &mut [u64],
) -> Result<(), Refusal>
    ensures answer { result ≡ build_answer E.Element.model (D.Digest.function digest.now) elements.now digests.old }
    ensures after { digests.new ≡ build_after E.Element.model (D.Digest.function digest.now) elements.now digests.old }
    ensures merkle { Built E.Element.model (D.Digest.function digest.now) }
    ensures tells { Telling E.Element.model (D.Digest.function digest.now) }
{
    if !tables_fit(elements.len(), digests.len()) {
        return Err(Refusal::Size);
    }
    fill_leaves(digest, elements, digests);
    fill_nodes(digest, elements.len(), digests);
    digests[0] = 0;
    Ok(())
}
