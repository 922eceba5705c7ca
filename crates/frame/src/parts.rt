// A frame taken apart.
ghost use Rattle.std.specs.Prelude.{◌≡◌, ◌↔◌, length, drop, IsSome, IfSome};
ghost use Rattle.frame.specs.Decoding.{round_of, range_of, kind_length, element_suits, frame_of};
ghost use Rattle.frame.specs.Kinds.{kind_number};
ghost use Rattle.frame.specs.Views.{viewed};
ghost use Rattle.frame.specs.declared.kind.Kind.TheVariants.{Compare};

use crate::header::Header;
use crate::kind::Kind;
use crate::message::Message;
use element::Element;

// The header, and the bytes that follow it: of an offer and a held, those of the element.
#[derive(Clone, Copy)]
pub(crate) struct Parts<'a> {
    pub(crate) header: Header,
    pub(crate) part: &'a [u8],
    // a digest follows the header of a compare
    ghost digest_long: { header.kind ≡ Compare → length part.now ≡ 8 },
}

impl<'a> Parts<'a> {
    // The parts of a frame of this kind, or none where it has not its length. An element has `width` bytes.
    pub(crate) fn new(kind: Kind, width: usize, frame: &'a [u8]) -> Option<Parts<'a>>
        ensures long { IsSome result ↔ (length frame.now ≡ kind_length width (kind_number kind)) }
        ensures header { IfSome result (λ p. (p.header.kind ≡ kind) × (p.header.round ≡ round_of frame.now) × (p.header.range ≡ range_of frame.now)) }
        ensures part { IfSome result (λ p. p.part.now ≡ drop 7 frame.now) }
    {
        let [_, r0, r1, r2, r3, n0, n1, part @ ..] = frame else {
            return None;
        };
        if part.len() != kind.part_length(width) {
            return None;
        }
        let header = Header {
            kind,
            round: u32::from_be_bytes([*r0, *r1, *r2, *r3]),
            range: u16::from_be_bytes([*n0, *n1]),
        };
        Some(Parts { header, part })
    }

    // Whether what follows the header is lawful: of the kinds with an element, whether its bytes are.
    pub(crate) fn element_fits<E: Element>(self) -> bool
        ensures { result ≡ element_suits E.Element.model (kind_number self.entry.header.kind) self.entry.part.now }
    {
        match self.header.kind {
            Kind::Compare | Kind::Same | Kind::Differ => true,
            Kind::Offer | Kind::Held => E::lawful(self.part),
        }
    }
}

// What the frame says.
impl<'a> From<Parts<'a>> for Message<'a> {
    ghost from_gives = { λ p m. viewed m ≡ frame_of (kind_number p.header.kind) p.header.round p.header.range p.part.now };

    fn from(parts: Parts<'a>) -> Message<'a> {
        let Header { kind, round, range } = parts.header;
        let part = parts.part;
        match kind {
            Kind::Compare => Message::Compare {
                round,
                range,
                digest: u64::from_be_bytes(part.try_into().unwrap()),
            },
            Kind::Same => Message::Same { round, range },
            Kind::Differ => Message::Differ { round, range },
            Kind::Offer => Message::Offer { round, range, part },
            Kind::Held => Message::Held { round, range, part },
        }
    }
}
