// Both copies, compared.
ghost use Rattle.std.specs.Prelude.{◌≡◌, ◌↔◌, IsTrue};
ghost use Rattle.std.specs.List.{AllZip};
ghost use Rattle.digest.specs.Folds.{fnv};
ghost use Rattle.element.specs.Order.{Same};
ghost use Rattle.tree.specs.Tree.{digest_of};

use crate::digests::Digests;
use crate::sites::{SITES, Sites};
use digest::Fnv;
use element::{Element, same};
use kinds::Card;
use tree::build;

// What the office and the laptop hold at one moment.
#[derive(Clone, Copy)]
pub struct Copies {
    pub office: Sites,
    pub laptop: Sites,
}

// The root of the digest tree of `elements`, which is at place 1 of the digest table.
fn root_of<E: Element>(elements: &[E; SITES]) -> u64
    ensures { result ≡ digest_of E.Element.model fnv elements.now 1 }
{
    let mut digests = [0; 2 * SITES];
    build(&Fnv, elements, &mut digests).unwrap();
    digests[1]
}

// Whether two tables stand for the same elements at every key.
fn alike<E: Element>(a: &[E], b: &[E]) -> bool
    ensures { IsTrue result ↔ AllZip (Same E.Element.model) a.now b.now }
{
    a.len() == b.len() && a.iter().zip(b).all(|(x, y)| same(*x, *y))
}

impl Copies {
    // Whether the two stand for the same elements at every site.
    pub fn agree(&self) -> bool
        ensures { IsTrue result ↔ AllZip (Same ⟦<Card as Element>⟧.model) self.now.office.cards self.now.laptop.cards }
    {
        alike(&self.office.cards, &self.laptop.cards)
    }

    // The roots of the digest trees, by which a round first compares the two.
    pub fn roots(&self) -> Digests
        ensures { result ≡ record { office = digest_of ⟦<Card as Element>⟧.model fnv self.now.office.cards 1; laptop = digest_of ⟦<Card as Element>⟧.model fnv self.now.laptop.cards 1 } }
    {
        Digests {
            office: root_of(&self.office.cards),
            laptop: root_of(&self.laptop.cards),
        }
    }
}
