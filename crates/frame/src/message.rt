// What a frame says.

// An element is told by its bytes, as a part of the memory that they came in: nothing is copied. Round and range stand
// in each variant, so that one pattern tells all that a message has.
#[derive(Clone, Copy, PartialEq, Eq, Debug)]
pub enum Message<'a> {
    // asks whether the other replica has this digest of the range
    Compare {
        round: u32,
        range: u16,
        digest: u64,
    },
    // the digests are the same
    Same {
        round: u32,
        range: u16,
    },
    // they differ
    Differ {
        round: u32,
        range: u16,
    },
    // brings an element of the range's key
    Offer {
        round: u32,
        range: u16,
        part: &'a [u8],
    },
    // answers with what the key then holds
    Held {
        round: u32,
        range: u16,
        part: &'a [u8],
    },
}
