// What each frame begins with.
ghost use Rattle.std.specs.Prelude.{◌≡◌, ◌++◌};
ghost use Rattle.element.specs.Bytes.{placed};
ghost use Rattle.frame.specs.Decoding.{range_suits};
ghost use Rattle.frame.specs.Frames.{room};
ghost use Rattle.frame.specs.Kinds.{kind_number};
ghost use Rattle.frame.specs.Views.{header_of};

use crate::kind::Kind;
use element::place;

#[derive(Clone, Copy)]
pub(crate) struct Header {
    pub(crate) kind: Kind,
    pub(crate) round: u32,
    pub(crate) range: u16,
}

impl Header {
    pub(crate) fn new(kind: Kind, round: u32, range: u16) -> Header
        ensures { (result.kind ≡ kind) × (result.round ≡ round) × (result.range ≡ range) }
    {
        Header { kind, round, range }
    }

    // Whether a frame of this kind may have this range, between tables of `size` elements. A size can be so large that
    // its double is no `usize`, so the upper bound is asked of the difference.
    pub(crate) fn range_fits(self, size: usize) -> bool
        ensures { result ≡ range_suits size (kind_number self.kind) self.range }
    {
        let n = usize::from(self.range);
        match self.kind {
            Kind::Compare | Kind::Same | Kind::Differ => 1 <= n && n < size,
            Kind::Offer | Kind::Held => size <= n && n - size < size,
        }
    }

    // Its seven bytes.
    fn to_bytes(self) -> [u8; 7]
        ensures { result ≡ header_of self }
    {
        let [r0, r1, r2, r3] = self.round.to_be_bytes();
        let [n0, n1] = self.range.to_be_bytes();
        [u8::from(self.kind), r0, r1, r2, r3, n0, n1]
    }

    // Writes its bytes and then `tail` over the front of `out`, or nothing where `out` is too short for both.
    pub(crate) fn put(self, tail: &[u8], out: &mut [u8]) -> Option<usize>
        ensures count { result ≡ room (header_of self ++ tail.now) out.old }
        ensures after { out.new ≡ placed (header_of self ++ tail.now) out.old }
    {
        let bytes = self.to_bytes();
        let n = bytes.len() + tail.len();
        if out.len() < n {
            return None;
        }
        place(&bytes, out);
        place(tail, &mut out[bytes.len()..]);
        Some(n)
    }
}
