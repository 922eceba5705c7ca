// Builds the digest tree of 4,096 cards, changes some, renews their digests, and prints the roots.
#![tactic(auto)]

use digest::{Digest, Fnv, Sum};
use element::{Element, Refusal, join_at};
use kinds::{Card, Counter, Register, SetRecord, new_card};
use std::alloc::{AllocError, Global};
use tree::{build, renew};

// A card that differs from key to key. Every seventh has a set that breaks its rule, and so stands for the empty one.
// `rounds` has such positions and samples too, but corrects some: a crate for these two records would be no plainer.
fn card_at(key: u16) -> Card {
    let number = u32::from(key);
    let positions = u64::from(key);
    new_card(
        Register {
            stamp: u64::from(key) * 7 + 1,
            office: key % 100,
            value: number * 31 % 10007,
        },
        SetRecord {
            added: positions,
            removed: if key % 7 == 0 {
                positions + 1
            } else {
                positions & 5
            },
        },
        Counter {
            seats: [number, 0, number / 2, 0, 0, 0, 0, 4096],
        },
    )
}

// How many cards there are.
const SIZE: u16 = 4096;

// A table of cards with its digest tree.
#[derive(Drop)]
struct Table<D> {
    digest: D,
    cards: Vec<Card>,
    digests: Vec<u64>,
}

impl<D: Digest + Drop> Table<D> {
    fn new(heap: Global, digest: D) -> Result<Table<D>, AllocError> {
        let size = usize::from(SIZE);
        Ok(Table {
            digest,
            cards: vec![in heap; Card::bottom(); size]?,
            digests: vec![in heap; 0; 2 * size]?,
        })
    }

    // Joins each key's card into it.
    fn fill(&mut self) -> Result<(), Refusal> {
        for key in 0..SIZE {
            join_at(&mut self.cards, usize::from(key), card_at(key))?;
        }
        Ok(())
    }

    fn build(&mut self) -> Result<(), Refusal> {
        build(&self.digest, &self.cards, &mut self.digests)
    }

    // Joins one more card into a key and renews the digests.
    fn change(&mut self, key: usize) -> Result<(), Refusal> {
        join_at(&mut self.cards, key, card_at(5000))?;
        renew(&self.digest, &self.cards, &mut self.digests, key)
    }

    // The digest of all keys, at place 1.
    fn root(&self) -> Result<u64, Refusal> {
        self.digests.get(1).copied().ok_or(Refusal::Size)
    }
}

fn print_roots<D: Digest + Drop>(rt: &HostRuntime, name: &str, digest: D) -> anyhow::Result<()> {
    let mut table = Table::new(rt.alloc(), digest)?;
    table.build()?;
    println!(rt; "{name}: {:016x} of bottoms", table.root()?)?;
    table.fill()?;
    table.build()?;
    println!(rt; "{name}: {:016x} of cards", table.root()?)?;
    for key in [0, 1, 2048, 4095] {
        table.change(key)?;
    }
    println!(rt; "{name}: {:016x} after four joins", table.root()?)?;
    Ok(())
}

// A table that did not fit would have ended the program before the last line.
fn main(rt: HostRuntime) -> anyhow::Result<()> {
    print_roots(&rt, "fnv", Fnv)?;
    print_roots(&rt, "sum", Sum)?;
    println!(rt; "all tables fit: true")?;
    Ok(())
}
