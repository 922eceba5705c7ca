// Equality and order of elements, by what their records stand for.
ghost use Rattle.std.specs.Prelude.{Decides};
ghost use Rattle.element.specs.Order.{Same, AtMost, Order};

use crate::Element;

// Whether the two stand for one element: their bytes tell.
pub fn same<E: Element>(x: E, y: E) -> bool
    ensures { Decides result (Same E.Element.model x y) }
{
    // room for the widest element, zeros behind it: without a heap there is no buffer of just this type's width
    let mut left = [0; 64];
    let mut right = [0; 64];
    x.write(&mut left);
    y.write(&mut right);
    left == right
}

// Whether `x` is at most `y`: whether their join is what `y` stands for. The clause `order` is no condition on the
// answer: it is a theorem about the type, which every call brings to its caller. "At most" is an order with bottom the
// least, in which join is the least upper bound.
pub fn at_most<E: Element>(x: E, y: E) -> bool
    ensures answer { Decides result (AtMost E.Element.model x y) }
    ensures order { Order E.Element.model }
{
    same(x.join(y), y)
}
