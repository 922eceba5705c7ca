// The record of a round, as a type whose every value keeps its rule. It stands in a file of its own, apart from the
// definitions that speak of it.
ghost use Rattle.std.specs.Prelude.{◌≡◌, ◌≤◌, true};
ghost use Rattle.replica.specs.Walking.{Walked};
ghost use Rattle.tree.specs.Sizes.{sized};

#[derive(Clone, Copy)]
pub struct Round {
    // By the rule for round records (docs/DECISIONS.md) these are plain numbers with an invariant, no Option: `state_of`
    // reads them as a state, and that a round runs is a fact which a method requires, and no type.
    // the number of keys
    pub(crate) size: u16,
    // the last round number that was used
    pub(crate) last: u32,
    pub(crate) running: bool,
    // where a round runs: the range that is asked about, and how many answers were taken
    pub(crate) range: u16,
    pub(crate) count: u16,
    ghost powered: { sized size ≡ true },
    ghost numbered: { running ≡ true → 1 ≤ last },
    ghost walks: { running ≡ true → ∥ Walked size range count ∥₁ },
}
