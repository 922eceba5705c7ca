// An element that is not among those supplied.
ghost use Rattle.std.specs.Prelude.{◌≡◌};
ghost use Rattle.element.specs.Ruled.{meant, ruled};
ghost use Rattle.element_tests.specs.Peaks.{peak};
ghost use Rattle.element.proofs.Rules;
ghost use Rattle.element_tests.specs.Peaking.{sound};

use element::{Element, place};

// The greatest level that was seen.
#[derive(Clone, Copy, Default, PartialEq, Eq, PartialOrd, Ord, Debug)]
pub struct Peak {
    pub value: u8,
}

impl Peak {
    // The one byte of this peak.
    fn to_bytes(self) -> [u8; 1]
        ensures { result ≡ peak.bytes (meant peak self) }
    {
        [self.value]
    }
}

impl Element for Peak {
    ghost model = { ruled peak };

    ghost laws = { Rules.laws sound };

    fn bottom() -> Peak {
        Peak::default()
    }

    fn join(self, other: Peak) -> Peak {
        self.max(other)
    }

    fn width() -> usize {
        1
    }

    fn write(&self, out: &mut [u8]) -> bool {
        place(&self.to_bytes(), out)
    }

    fn read(bytes: &[u8]) -> Option<Peak> {
        match bytes {
            [value] => Some(Peak { value: *value }),
            _ => None,
        }
    }
}
