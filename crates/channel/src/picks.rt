// The picks of a courier.
ghost use Rattle.std.specs.Prelude.{◌≡◌, ◌≤◌, length, take};
ghost use Rattle.std.specs.Iterator.{YieldsFirst, item_count};

use std::marker::Model;

// The picks that are left stand at the end, from `from` on, so that one number says which they are.
// An array with that number beside it: a channel keeps its picks in memory of its own, without a heap.
#[derive(Drop)]
pub(crate) struct Picks {
    bytes: [u8; 64],
    from: usize,
}

// Clauses see the picks that are left, the next one first.
impl Model for Picks {
    ghost use Rattle.std.specs.Prelude.{ℕ, ◌≤◌, List, drop};

    ghost Value = { List ℕ };

    ghost view = { λ p. drop p.from p.bytes };

    ghost invariant = { λ p. p.from ≤ 64 };
}

impl Picks {
    // The first 64 of the picks given.
    pub(crate) fn new(given: &[u8]) -> Picks
        ensures { result ≡ take 64 given.now }
    {
        let n = given.len().min(64);
        let from = 64 - n;
        let mut bytes = [0; 64];
        bytes[from..].copy_from_slice(&given[..n]);
        Picks { bytes, from }
    }

    // How many are left.
    pub(crate) fn count_left(&self) -> usize
        ensures count { result ≡ length self.now }
        ensures within { result ≤ 64 }
    {
        self.bytes[self.from..].len()
    }
}

// The next pick is used up.
impl Iterator for Picks {
    type Item = u8;

    ghost next_gives = { YieldsFirst (λ ps. ps) };

    ghost remaining = { item_count (λ ps. ps) };

    fn next(&mut self) -> Option<u8> {
        let pick = *self.bytes.get(self.from)?;
        self.from += 1;
        Some(pick)
    }
}
