// What the replicas hold: for each site an entry as it was first made, or as it was corrected at one end.
use crate::cases::Case;
use crate::names::Named;
use element::Element;
use kinds::{Card, Counter, Register, SetRecord, new_card};
use peers::{End, Start};
use std::alloc::{AllocError, Global};

// An element with a height.
pub(crate) trait Site: Element + Named {
    // The element of a key, as it was corrected at an end, or as it was first made.
    fn at(key: u16, corrected: Option<End>) -> Self;

    fn height(&self) -> u32;
}

// Both corrections have one stamp, so the office decides between them, and the lower height wins. The numbers are
// chosen so that some corrections at the left end collide with others at the right under sum.
fn register_at(key: u16, corrected: Option<End>) -> Register {
    let (later, office, more) = match corrected {
        None => (0, 0, 0),
        Some(End::Left) => (5, 1, 505),
        Some(End::Right) => (5, 2, 250),
    };
    Register {
        stamp: u64::from(key) * 7 + 1 + later,
        office: key % 100 + office,
        value: 3000 + u32::from(key) * 31 % 1000 + more,
    }
}

// A set that breaks its rule where `key` is a multiple of 7 and nothing was corrected: it stands for the empty one.
fn set_at(key: u16, corrected: Option<End>) -> SetRecord {
    let positions = u64::from(key);
    let more = match corrected {
        None => 0,
        Some(End::Left) => 0x100000,
        Some(End::Right) => 0x10000000000,
    };
    let breaks = corrected.is_none() && key % 7 == 0;
    SetRecord {
        added: positions + more,
        removed: if breaks { positions + 1 } else { positions & 5 },
    }
}

fn counter_at(key: u16, corrected: Option<End>) -> Counter {
    let number = u32::from(key);
    let (second, fourth) = match corrected {
        None => (0, 0),
        Some(End::Left) => (9, 0),
        Some(End::Right) => (0, 23),
    };
    Counter {
        seats: [number, second, number / 2, fourth, 0, 0, 0, 4096],
    }
}

impl Site for Register {
    fn at(key: u16, corrected: Option<End>) -> Register {
        register_at(key, corrected)
    }

    fn height(&self) -> u32 {
        self.value
    }
}

impl Site for Card {
    fn at(key: u16, corrected: Option<End>) -> Card {
        new_card(
            register_at(key, corrected),
            set_at(key, corrected),
            counter_at(key, corrected),
        )
    }

    fn height(&self) -> u32 {
        self.first.value
    }
}

// What an end of a case starts from: the elements of all keys, of which some were corrected there.
pub(crate) fn start_of<S: Site>(
    heap: Global,
    case: &Case,
    end: End,
) -> Result<Start<S>, AllocError> {
    let corrected = case.corrected.at(end);
    let elements = (0..case.size())
        .map(|key| S::at(key, corrected.contains(&key).then_some(end)))
        .collect(heap)?;
    Ok(Start { elements, last: 0 })
}
