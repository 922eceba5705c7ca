// Pairs of other elements than the card's.
ghost use Rattle.std.proofs.Common.{rules};

use crate::Peak;
use element::{Beside, Pair};
use kinds::Card;

pub type Watched = Pair<Peak, Card>;

// 64 bytes, as wide as an element may be.
pub type Widest = Pair<Peak, Watched>;

impl Beside<Card> for Peak {
    ghost room = { Prim.search rules };
}

impl Beside<Watched> for Peak {
    ghost room = { Prim.search rules };
}
