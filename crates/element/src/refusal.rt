// Why a call is declined.
ghost use Rattle.std.specs.Prelude.{◌≡◌, Some};
ghost use Rattle.element.specs.Refusals.{refusal_number, refusal_text};

use std::error::Error;
use std::fmt;

// The reasons of all layers. A call gives the first that holds, in the order of their numbers.
#[derive(Clone, Copy, PartialEq, Eq, Debug)]
pub enum Refusal {
    Size = 1,
    Key = 2,
    Busy = 3,
    Idle = 4,
    Spent = 5,
    Frame = 6,
    Stale = 7,
}

impl Refusal {
    // The number by which a refusal is told. A method: `u8::from(refusal)` would not say what the number is.
    pub fn number(self) -> u8
        ensures { result ≡ refusal_number self }
    {
        self as u8
    }
}

// The reason in words, for a program that passes it up. By hand: what a derive of errors prints has no contract.
impl fmt::Display for Refusal {
    ghost output = { λ r. Some (refusal_text r) };

    fn fmt<W: fmt::Write>(&self, f: &mut fmt::Formatter<W>) -> fmt::Result {
        f.write_str(match self {
            Refusal::Size => "a table has not the number of places that it should have",
            Refusal::Key => "there is no such key",
            Refusal::Busy => "a round is running already",
            Refusal::Idle => "no round is running",
            Refusal::Spent => "all round numbers have been used",
            Refusal::Frame => "the frame that came is not lawful",
            Refusal::Stale => "the frame that came is no answer to the question that is asked",
        })
    }
}

impl Error for Refusal {}
