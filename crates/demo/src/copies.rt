// What is done with a copy.
use digest::{Digest, Fnv};
use element::{Element, Refusal, at_most, join_at};
use kinds::Card;
use mast_sites::Sites;
use std::alloc::{AllocError, Global};

// `into`, with `from` joined into it key by key.
pub(crate) fn joined(into: &Sites, from: &Sites) -> Result<Sites, Refusal> {
    let mut table = *into;
    for (key, card) in from.cards.iter().enumerate() {
        join_at(&mut table.cards, key, *card)?;
    }
    Ok(table)
}

// Whether at every key the element of `part` is at most that of `whole`, so that nothing of `part` is lost in it.
pub(crate) fn stands_in(part: &Sites, whole: &Sites) -> bool {
    part.cards
        .iter()
        .zip(&whole.cards)
        .all(|(x, y)| at_most(*x, *y))
}

// A card has 62 bytes: 14 of the height, 16 of the positions and 32 of the samples.
pub(crate) fn bytes_of(card: &Card) -> [u8; 62] {
    let mut bytes = [0; 62];
    card.write(&mut bytes);
    bytes
}

// The fnv of the bytes of all cards, key by key.
pub(crate) fn digest_of(heap: Global, copy: &Sites) -> Result<u64, AllocError> {
    let bytes: Vec<u8> = copy.cards.iter().flat_map(bytes_of).collect(heap)?;
    Ok(Fnv.digest(bytes.as_slice()))
}
