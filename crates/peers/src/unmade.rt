// Why a pair was not made.
ghost use Rattle.std.specs.Prelude.{◌≡◌, Some};
ghost use Rattle.peers.specs.Unmades.{unmade_text};
ghost use Rattle.peers.specs.declared.unmade.Unmade.TheVariants.{Refused, Memory};

use element::Refusal;
use std::alloc::AllocError;
use std::error::Error;
use std::fmt;

#[derive(Clone, Copy, PartialEq, Eq, Debug)]
pub enum Unmade {
    // the tables are of other sizes
    Refused(Refusal),
    // there is no memory for the digest tables
    Memory,
}

impl From<Refusal> for Unmade {
    ghost from_gives = { λ r u. u ≡ Refused r };

    fn from(refusal: Refusal) -> Self {
        Self::Refused(refusal)
    }
}

impl From<AllocError> for Unmade {
    ghost from_gives = { λ _ u. u ≡ Memory };

    fn from(_error: AllocError) -> Self {
        Self::Memory
    }
}

// The reason in words, for a program that passes it up. By hand: what a derive of errors prints has no contract.
impl fmt::Display for Unmade {
    ghost output = { λ u. Some (unmade_text u) };

    fn fmt<W: fmt::Write>(&self, f: &mut fmt::Formatter<W>) -> fmt::Result {
        match self {
            Unmade::Refused(refusal) => fmt::Display::fmt(refusal, f),
            Unmade::Memory => f.write_str("there is no memory for the digest tables"),
        }
    }
}

impl Error for Unmade {}
