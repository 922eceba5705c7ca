// The mast card: height, positions and field samples of one site.
ghost use Rattle.std.specs.Prelude.{◌≡◌};
ghost use Rattle.kinds.specs.Cards.{card_of};
ghost use Rattle.std.proofs.Common.{rules};

use crate::{Counter, Register, SetRecord};
use element::{Beside, Pair};

pub type Card = Pair<Register, Pair<SetRecord, Counter>>;

impl Beside<Counter> for SetRecord {
    ghost room = { Prim.search rules };
}

impl Beside<Pair<SetRecord, Counter>> for Register {
    ghost room = { Prim.search rules };
}

// The card of these three parts.
pub fn new_card(height: Register, positions: SetRecord, samples: Counter) -> Card
    ensures { result ≡ card_of height positions samples }
{
    Pair {
        first: height,
        second: Pair {
            first: positions,
            second: samples,
        },
    }
}
