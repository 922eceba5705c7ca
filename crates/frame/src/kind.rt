// The kinds of frames.
ghost use Rattle.std.specs.Prelude.{◌≡◌, ◌+◌};
ghost use Rattle.frame.specs.Decoding.{kind_length};
ghost use Rattle.frame.specs.Kinds.{kind_number, IsKind};

use element::Refusal;

// By the numbers that byte 0 has.
#[derive(Clone, Copy, PartialEq, Eq, Debug)]
pub(crate) enum Kind {
    Compare = 1,
    Same = 2,
    Differ = 3,
    Offer = 4,
    Held = 5,
}

impl Kind {
    // How many bytes follow the header, where an element has `width` bytes.
    pub(crate) fn part_length(self, width: usize) -> usize
        ensures { 7 + result ≡ kind_length width (kind_number self) }
    {
        match self {
            Kind::Compare => 8,
            Kind::Same | Kind::Differ => 0,
            Kind::Offer | Kind::Held => width,
        }
    }
}

impl From<Kind> for u8 {
    ghost from_gives = { λ kind n. n ≡ kind_number kind };

    fn from(kind: Kind) -> u8 {
        kind as u8
    }
}

impl TryFrom<u8> for Kind {
    type Error = Refusal;

    ghost try_from_gives = { IsKind };

    fn try_from(number: u8) -> Result<Kind, Refusal> {
        match number {
            1 => Ok(Kind::Compare),
            2 => Ok(Kind::Same),
            3 => Ok(Kind::Differ),
            4 => Ok(Kind::Offer),
            5 => Ok(Kind::Held),
            _ => Err(Refusal::Frame),
        }
    }
}
