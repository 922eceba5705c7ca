// Frames, read from their bytes.
ghost use Rattle.std.specs.Prelude.{◌≡◌, Some, None, MatchResult};
ghost use Rattle.element.specs.declared.refusal.Refusal.TheVariants.{Frame};
ghost use Rattle.frame.specs.Decoding.{decoded, Reads};
ghost use Rattle.frame.specs.Views.{viewed};

use crate::kind::Kind;
use crate::message::Message;
use crate::parts::Parts;
use element::{Element, Refusal};

// The message of a frame between tables of `size` elements: its kind is judged, then its length, its round, its range
// and its element, and the first that fails declines it. Any bytes and any size are taken. The clause `codec` is no
// condition on the answer: it is a theorem about the definitions, which every call brings to its caller.
pub fn decode<'a, E: Element>(size: usize, frame: &'a [u8]) -> Result<Message<'a>, Refusal>
    ensures answer { MatchResult result (λ m. decoded E.Element.model size frame.now ≡ Some (viewed m)) (λ e. (e ≡ Frame) × (decoded E.Element.model size frame.now ≡ None)) }
    ensures codec { Reads E.Element.model }
{
    // By the decoder's rule (docs/DECISIONS.md) each question is a `let .. else` with its refusal beside it, and no `?`.
    let [number, ..] = frame else {
        return Err(Refusal::Frame);
    };
    let Ok(kind) = Kind::try_from(*number) else {
        return Err(Refusal::Frame);
    };
    let Some(parts) = Parts::new(kind, E::width(), frame) else {
        return Err(Refusal::Frame);
    };
    let round = parts.header.round;
    let 1.. = round else {
        return Err(Refusal::Frame);
    };
    let true = parts.header.range_fits(size) else {
        return Err(Refusal::Frame);
    };
    let true = parts.element_fits::<E>() else {
        return Err(Refusal::Frame);
    };
    Ok(Message::from(parts))
}
