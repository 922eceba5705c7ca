// The pair of two elements, part by part.
ghost use Rattle.std.specs.Prelude.{◌+◌, ◌≤◌};
ghost use Rattle.element.specs.Pairs.{pair};
ghost use Rattle.element.specs.PairsLemmas;

use crate::Element;

#[derive(Clone, Copy)]
pub struct Pair<X, Y> {
    pub first: X,
    pub second: Y,
}

// Two elements have room beside each other: their widths together are at most 64. An `impl` of this for two types
// makes their pair an element. The prover refuses it where they are wider, so that such a pair is none.
pub trait Beside<Y: Element>: Element {
    ghost room: { Self.Element.model.width + Y.Element.model.width ≤ 64 };
}

impl<X: Element + Beside<Y>, Y: Element> Element for Pair<X, Y> {
    ghost model = { pair X.Element.model Y.Element.model };

    ghost laws = { PairsLemmas.laws X.Element.laws Y.Element.laws X.Beside.room };

    fn bottom() -> Pair<X, Y> {
        Pair {
            first: X::bottom(),
            second: Y::bottom(),
        }
    }

    fn join(self, other: Pair<X, Y>) -> Pair<X, Y> {
        Pair {
            first: self.first.join(other.first),
            second: self.second.join(other.second),
        }
    }

    fn width() -> usize {
        X::width() + Y::width()
    }

    fn write(&self, out: &mut [u8]) -> bool {
        let n = X::width();
        if out.len() < n + Y::width() {
            return false;
        }
        self.first.write(out);
        self.second.write(&mut out[n..])
    }

    fn read(bytes: &[u8]) -> Option<Pair<X, Y>> {
        let n = X::width();
        if bytes.len() != n + Y::width() {
            return None;
        }
        Some(Pair {
            first: X::read(&bytes[..n])?,
            second: Y::read(&bytes[n..])?,
        })
    }
}
