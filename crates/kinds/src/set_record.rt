// The plain record of a set of mast positions, as tables hold it.
ghost use Rattle.std.specs.Prelude.{◌≡◌, true, false, Some, MatchResult, codes};
ghost use Rattle.element.specs.Ruled.{ruled, meant};
ghost use Rattle.kinds.specs.Sets.{position_set, set_of, lawful_set, spelt_set};
ghost use Rattle.element.proofs.Rules;
ghost use Rattle.kinds.specs.SetsLemmas.{sound};

use crate::set::Set;
use element::{Element, place};
use std::error::Error;
use std::fmt;

// Any two masks: whether they keep the rule of a set is asked where a set is made of them.
#[derive(Clone, Copy, Default)]
pub struct SetRecord {
    pub added: u64,
    pub removed: u64,
}

impl From<Set> for SetRecord {
    ghost from_gives = { λ s x. x ≡ set_of s.added s.removed };

    fn from(set: Set) -> SetRecord {
        let (added, removed) = set.masks();
        SetRecord { added, removed }
    }
}

// Why no set is made of a record: a position is removed that was not added.
#[derive(Clone, Copy, PartialEq, Eq, Debug)]
pub struct NeverAdded;

// By hand: what a derive of errors prints has no contract.
impl fmt::Display for NeverAdded {
    ghost output = { λ _. Some (codes "a position is removed that was not added") };

    fn fmt<W: fmt::Write>(&self, f: &mut fmt::Formatter<W>) -> fmt::Result {
        f.write_str("a position is removed that was not added")
    }
}

impl Error for NeverAdded {}

impl TryFrom<SetRecord> for Set {
    type Error = NeverAdded;

    ghost try_from_gives = { λ x r. MatchResult r
        (λ s. (set_of s.added s.removed ≡ x) × (lawful_set x ≡ true)) (λ _. lawful_set x ≡ false) };

    fn try_from(record: SetRecord) -> Result<Set, NeverAdded> {
        Set::new(record.added, record.removed).ok_or(NeverAdded)
    }
}

impl SetRecord {
    // The set that this record stands for, the empty one where it breaks the rule.
    pub fn as_set(self) -> Set
        ensures { set_of result.added result.removed ≡ meant position_set self }
    {
        Set::try_from(self).unwrap_or_default()
    }

    // The record that 16 bytes spell, lawful or not, or none where there are not 16.
    fn spelt(bytes: &[u8]) -> Option<SetRecord>
        ensures { result ≡ spelt_set bytes.now }
    {
        let (added, rest) = bytes.split_first_chunk()?;
        let removed: &[u8; 8] = rest.as_array()?;
        Some(SetRecord {
            added: u64::from_be_bytes(*added),
            removed: u64::from_be_bytes(*removed),
        })
    }

    // The bytes of this record as it is, lawful or not.
    fn to_bytes(self) -> [u8; 16]
        ensures { result ≡ position_set.bytes self }
    {
        let mut bytes = [0; 16];
        bytes[..8].copy_from_slice(&self.added.to_be_bytes());
        bytes[8..].copy_from_slice(&self.removed.to_be_bytes());
        bytes
    }
}

impl Element for SetRecord {
    ghost model = { ruled position_set };

    ghost laws = { Rules.laws sound };

    fn bottom() -> SetRecord {
        SetRecord::default()
    }

    fn join(self, other: SetRecord) -> SetRecord {
        SetRecord::from(self.as_set().join(other.as_set()))
    }

    fn width() -> usize {
        16
    }

    fn write(&self, out: &mut [u8]) -> bool {
        place(&SetRecord::from(self.as_set()).to_bytes(), out)
    }

    fn read(bytes: &[u8]) -> Option<SetRecord> {
        let record = SetRecord::spelt(bytes)?;
        let set = Set::try_from(record).ok()?;
        Some(SetRecord::from(set))
    }
}
