// The set of mast positions, as a type whose every value keeps the rule. It stands in a file of its own, apart from
// the definitions that speak of its record.
ghost use Rattle.std.specs.Prelude.{◌≡◌, true, false, MatchOption, bit_or};
ghost use Rattle.kinds.specs.Masks.{contained};

// 64 positions, bit k of each mask for position k: those that were ever added, and those that were removed since.
#[derive(Clone, Copy)]
pub struct Set {
    added: u64,
    removed: u64,
    // nothing is removed that was not added
    ghost within: { bit_or added removed ≡ added },
}

impl Set {
    // The set of these masks, or none where a removed position was not added.
    pub fn new(added: u64, removed: u64) -> Option<Set>
        ensures { MatchOption result (contained added removed ≡ false) (λ s. (s.added ≡ added) × (s.removed ≡ removed) × (contained added removed ≡ true)) }
    {
        if added | removed == added {
            Some(Set { added, removed })
        } else {
            None
        }
    }

    // The union of each mask.
    pub fn join(self, other: Set) -> Set
        ensures { (result.added ≡ bit_or self.added other.added) × (result.removed ≡ bit_or self.removed other.removed) }
    {
        Set {
            added: self.added | other.added,
            removed: self.removed | other.removed,
        }
    }

    // The mask of those added, and the mask of those removed.
    pub fn masks(self) -> (u64, u64)
        ensures { result ≡ (self.added, self.removed) }
    {
        (self.added, self.removed)
    }
}

// The set to which nothing was added. By hand: no default is derived where a field is ghost.
impl Default for Set {
    ghost is_default = { λ s. (s.added ≡ 0) × (s.removed ≡ 0) };

    fn default() -> Set {
        Set {
            added: 0,
            removed: 0,
        }
    }
}
