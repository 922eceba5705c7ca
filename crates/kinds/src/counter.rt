// The counter of field samples: eight seats, one for each field party.
ghost use Rattle.std.specs.Prelude.{◌≡◌, ◌+◌, ◌≤◌, take, drop};
ghost use Rattle.std.specs.List.{flat_map};
ghost use Rattle.kinds.specs.Counters.{counter, counter_of};
ghost use Rattle.element.specs.Bytes.{number};
ghost use Rattle.element.specs.Ruled.{ruled};
ghost use Rattle.kinds.specs.CountersLemmas.{sound};
ghost use Rattle.element.proofs.Rules;

use element::{Element, place};
use std::array;

#[derive(Clone, Copy, Default)]
pub struct Counter {
    pub seats: [u32; 8],
}

// The next two take the arrays themselves, by reference: of those the check knows that there are eight seats of 32 bits.
// That is the rule of a counter, so the counter of these seats stands for itself.

// The greater in each seat.
fn greater(a: &[u32; 8], b: &[u32; 8]) -> [u32; 8]
    ensures { counter_of result ≡ (ruled counter).joined (counter_of a.now) (counter_of b.now) }
{
    array::from_fn(|i| a[i].max(b[i]))
}

// The bytes of the seats, four for each.
fn to_bytes(seats: &[u32; 8]) -> [[u8; 4]; 8]
    ensures { flat_map (λ word. word) result ≡ (ruled counter).written (counter_of seats.now) }
{
    seats.map(u32::to_be_bytes)
}

// The seat that the four bytes from place `at` on spell.
fn seat_at(bytes: &[u8; 32], at: usize) -> u32
    requires { at + 4 ≤ 32 }
    ensures { result ≡ number (take 4 (drop at bytes.now)) }
{
    u32::from_be_bytes([bytes[at], bytes[at + 1], bytes[at + 2], bytes[at + 3]])
}

impl Element for Counter {
    ghost model = { ruled counter };

    ghost laws = { Rules.laws sound };

    fn bottom() -> Counter {
        Counter::default()
    }

    fn join(self, other: Counter) -> Counter {
        Counter {
            seats: greater(&self.seats, &other.seats),
        }
    }

    fn width() -> usize {
        32
    }

    fn write(&self, out: &mut [u8]) -> bool {
        place(to_bytes(&self.seats).as_flattened(), out)
    }

    fn read(bytes: &[u8]) -> Option<Counter> {
        let bytes = bytes.as_array()?;
        Some(Counter {
            seats: array::from_fn(|i| seat_at(bytes, 4 * i)),
        })
    }
}
