// The order in which a round goes through the ranges.
ghost use Rattle.std.specs.Prelude.{◌≡◌, ℕ};
ghost use Rattle.tree.specs.Ranges.{Ranges};
ghost use Rattle.tree.specs.Walk.{follow, Rule, Preorder};

// The range that follows `range` once it is settled, or none where the round ends with it.
#[tactic(auto, using(crate::proofs::Following::rule, crate::proofs::Levels::ranges, crate::proofs::Forward::preorder))]
pub fn next_range(range: u16) -> Option<u16>
    ensures value { result ≡ follow range }
    ensures rule { Rule }
    ensures ranges { (d : ℕ) → Ranges d }
    ensures preorder { (d : ℕ) → Preorder d }
{
    // Each binary one at the end of its number is a level at which the range is an upper half. Halved past them all, it
    // is even, or 0 where it ends with the last key. 65535 is sixteen of them and nothing else.
    let halved = range.checked_shr(range.trailing_ones())?;
    if halved == 0 && range > 0 {
        None
    } else {
        Some(halved + 1)
    }
}
