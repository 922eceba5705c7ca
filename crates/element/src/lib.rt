// Elements: what a key of a table holds.
#![tactic(auto)]

ghost use Rattle.std.specs.Prelude.{◌≡◌, length, is_some, nat_le};
ghost use Rattle.element.specs.Bytes.{placed};
ghost use Rattle.element.specs.Model.{Model, Laws};

mod compare;
mod memory;
mod pair;
mod refusal;
mod table;

pub use compare::{at_most, same};
pub use memory::place;
pub use pair::{Beside, Pair};
pub use refusal::Refusal;
pub use table::join_at;

// An element type, by plain records: a table holds any record of the type, and each stands for an element.
// What the calls mean is the model; what every type shows of it are the laws.
pub trait Element: Copy {
    ghost model: { Model Self };

    // The least element.
    fn bottom() -> Self
        ensures { result ≡ model.bottom };

    // The join of what the two stand for.
    fn join(self, other: Self) -> Self
        ensures { result ≡ model.joined self other };

    // How many bytes an element has: from 1 to 64.
    fn width() -> usize
        ensures { result ≡ model.width };

    // Writes the element's bytes over the front of `out`, and leaves the rest. Where `out` is shorter than
    // they are, it writes nothing and answers false: a bool, as `place` has it.
    fn write(&self, out: &mut [u8]) -> bool
        ensures fits { result ≡ nat_le model.width (length out.old) }
        ensures after { out.new ≡ placed (model.written self.now) out.old };

    // The element that has these bytes, or none where they are not lawful.
    fn read(bytes: &[u8]) -> Option<Self>
        ensures { result ≡ model.parsed bytes.now };

    // Whether these bytes are lawful.
    fn lawful(bytes: &[u8]) -> bool
        ensures { result ≡ is_some (model.parsed bytes.now) }
    {
        Self::read(bytes).is_some()
    }

    // The record of the element that this record stands for.
    fn meaning(self) -> Self
        ensures { result ≡ model.means self }
    {
        Self::bottom().join(self)
    }

    ghost laws: { Laws model };
}
