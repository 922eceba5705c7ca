// A table of elements in lent memory.
ghost use Rattle.std.specs.Prelude.{◌≡◌};
ghost use Rattle.element.specs.Tables.{joined_at, answered_at};

use crate::{Element, Refusal};

// Joins `x` into a key of `table` in place, and answers what the key then holds. Where there is no such key, it
// declines and changes nothing.
pub fn join_at<E: Element>(table: &mut [E], key: usize, x: E) -> Result<E, Refusal>
    ensures held { result ≡ answered_at E.Element.model table.old key x }
    ensures after { table.new ≡ joined_at E.Element.model table.old key x }
{
    let held = table.get(key).ok_or(Refusal::Key)?.join(x);
    table[key] = held;
    Ok(held)
}
