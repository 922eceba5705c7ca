// The register: a height, with the stamp and the office of the entry that set it.
ghost use Rattle.std.specs.Prelude.{◌≡◌};
ghost use Rattle.kinds.specs.Registers.{register, register_bytes, before};
ghost use Rattle.element.specs.Ruled.{ruled, meant};
ghost use Rattle.element.proofs.Rules;
ghost use Rattle.kinds.specs.RegistersLemmas.{sound};

use element::{Element, place};

// The fields stand in the order in which two registers are compared.
#[derive(Clone, Copy, Default, PartialEq, Eq, PartialOrd, Ord)]
pub struct Register {
    pub stamp: u64,
    // 0 marks a bulk import
    pub office: u16,
    // the height in centimetres above ground
    pub value: u32,
}

impl Register {
    // Whether this one is less than `other`: by stamp, then by office, then by value.
    pub fn precedes(self, other: Register) -> bool
        ensures { result ≡ before self other }
    {
        self < other
    }

    // The bytes of this register.
    fn to_bytes(self) -> [u8; 14]
        ensures { result ≡ register_bytes (meant register self) }
    {
        let mut bytes = [0; 14];
        bytes[..8].copy_from_slice(&self.stamp.to_be_bytes());
        bytes[8..10].copy_from_slice(&self.office.to_be_bytes());
        bytes[10..].copy_from_slice(&self.value.to_be_bytes());
        bytes
    }
}

impl Element for Register {
    ghost model = { ruled register };

    ghost laws = { Rules.laws sound };

    fn bottom() -> Register {
        Register::default()
    }

    fn join(self, other: Register) -> Register {
        self.max(other)
    }

    fn width() -> usize {
        14
    }

    fn write(&self, out: &mut [u8]) -> bool {
        place(&self.to_bytes(), out)
    }

    fn read(bytes: &[u8]) -> Option<Register> {
        let (stamp, rest) = bytes.split_first_chunk()?;
        let (office, rest) = rest.split_first_chunk()?;
        Some(Register {
            stamp: u64::from_be_bytes(*stamp),
            office: u16::from_be_bytes(*office),
            value: u32::from_be_bytes(*rest.as_array()?),
        })
    }
}
