// Tests of frames. The expected bytes are put together by hand from the layout.
#![tactic(auto)]

#[cfg(test)]
mod tests {
    use element::{Element, Refusal};
    use frame::{Message, decode, encode};
    use kinds::{Card, Register, SetRecord};

    // Round 1, the whole table, digest 255.
    const COMPARE: [u8; 15] = [1, 0, 0, 0, 1, 0, 1, 0, 0, 0, 0, 0, 0, 0, 0xff];

    // Round 0x01020304, range 0x0506.
    const SAME: [u8; 7] = [2, 1, 2, 3, 4, 5, 6];

    const DIFFER: [u8; 7] = [3, 1, 2, 3, 4, 5, 6];

    // Round 2, range 5, the register with stamp 9, office 2 and value 100.
    const OFFER: [u8; 21] = [
        4, 0, 0, 0, 2, 0, 5, 0, 0, 0, 0, 0, 0, 0, 9, 0, 2, 0, 0, 0, 100,
    ];

    // Round 2, range 5, the set with positions 0 and 2 added and position 0 removed.
    const HELD: [u8; 23] = [
        5, 0, 0, 0, 2, 0, 5, 0, 0, 0, 0, 0, 0, 0, 5, 0, 0, 0, 0, 0, 0, 0, 1,
    ];

    // Whether a frame is declined, as one that is not lawful.
    fn declined<E: Element>(size: usize, frame: &[u8]) -> bool {
        decode::<E>(size, frame) == Err(Refusal::Frame)
    }

    // Whether a frame is lawful, and its message is written as the same bytes.
    fn comes_back<E: Element>(size: usize, frame: &[u8]) -> bool {
        let Ok(message) = decode::<E>(size, frame) else {
            return false;
        };
        let mut out = [0; 71];
        let Some(n) = encode(message, &mut out) else {
            return false;
        };
        out.get(..n) == Some(frame)
    }

    #[test]
    fn a_compare_has_known_bytes(rt: HostRuntime) {
        let compare = Message::Compare {
            round: 1,
            range: 1,
            digest: 255,
        };
        let mut out = [9; 16];
        assert_eq!(rt; encode(compare, &mut out), Some(15));
        assert_eq!(rt; out, [1, 0, 0, 0, 1, 0, 1, 0, 0, 0, 0, 0, 0, 0, 0xff, 9]);
    }

    #[test]
    fn nothing_is_written_where_there_is_too_little_room(rt: HostRuntime) {
        let offer = Message::Offer {
            round: 1,
            range: 4,
            part: &[7; 3],
        };
        let mut out = [9; 10];
        assert_eq!(rt; encode(offer, &mut out[0..9]), None);
        assert_eq!(rt; out, [9; 10]);
        assert_eq!(rt; encode(offer, &mut out), Some(10));
        assert_eq!(rt; out, [4, 0, 0, 0, 1, 0, 4, 7, 7, 7]);
    }

    #[test]
    fn each_kind_is_read(rt: HostRuntime) {
        assert_eq!(rt;
            decode::<Register>(2, &COMPARE),
            Ok(Message::Compare {
                round: 1,
                range: 1,
                digest: 255,
            })
        );
        assert_eq!(rt;
            decode::<Register>(4096, &SAME),
            Ok(Message::Same {
                round: 0x01020304,
                range: 0x0506,
            })
        );
        assert_eq!(rt;
            decode::<Register>(4096, &DIFFER),
            Ok(Message::Differ {
                round: 0x01020304,
                range: 0x0506,
            })
        );
    }

    #[test]
    fn an_element_is_told_by_its_part_of_the_frame(rt: HostRuntime) {
        assert_eq!(rt;
            decode::<Register>(4, &OFFER),
            Ok(Message::Offer {
                round: 2,
                range: 5,
                part: &OFFER[7..21],
            })
        );
        assert_eq!(rt;
            decode::<SetRecord>(4, &HELD),
            Ok(Message::Held {
                round: 2,
                range: 5,
                part: &HELD[7..23],
            })
        );
    }

    #[test]
    fn lawful_frames_come_back(rt: HostRuntime) {
        assert!(rt; comes_back::<Register>(2, &COMPARE));
        assert!(rt; comes_back::<SetRecord>(4096, &SAME));
        assert!(rt; comes_back::<Card>(4096, &DIFFER));
        assert!(rt; comes_back::<Register>(4, &OFFER));
        assert!(rt; comes_back::<SetRecord>(4, &HELD));
        let mut card = [1; 69];
        card[0] = 5;
        card[5] = 0x1f;
        card[6] = 0xff;
        assert!(rt; comes_back::<Card>(4096, &card));
    }

    #[test]
    fn kinds_are_from_1_to_5(rt: HostRuntime) {
        assert!(rt; declined::<Register>(4, &[]));
        let mut same = SAME;
        same[0] = 0;
        assert!(rt; declined::<Register>(4096, &same));
        let mut offer = OFFER;
        offer[0] = 6;
        assert!(rt; declined::<Register>(4, &offer));
    }

    #[test]
    fn lengths_go_by_kind(rt: HostRuntime) {
        assert!(rt; declined::<Register>(2, &COMPARE[0..14]));
        assert!(rt; declined::<Register>(4096, &SAME[0..6]));
        assert!(rt; declined::<Register>(4096, &[3, 1, 2, 3, 4, 5, 6, 0]));
        assert!(rt; declined::<Register>(4, &OFFER[0..20]));
        assert!(rt; declined::<Register>(4, &HELD));
        assert!(rt; declined::<SetRecord>(4, &HELD[0..22]));
        assert!(rt; declined::<SetRecord>(4, &HELD[0..1]));
    }

    #[test]
    fn rounds_are_numbered_from_1(rt: HostRuntime) {
        assert!(rt; declined::<Register>(4, &[2, 0, 0, 0, 0, 0, 1]));
        assert!(rt; comes_back::<Register>(4, &[2, 0xff, 0xff, 0xff, 0xff, 0, 1]));
        let mut offer = OFFER;
        offer[4] = 0;
        assert!(rt; declined::<Register>(4, &offer));
    }

    #[test]
    fn ranges_with_halves_are_from_1_to_one_less_than_the_size(rt: HostRuntime) {
        assert!(rt; declined::<Register>(4, &[2, 0, 0, 0, 1, 0, 0]));
        assert!(rt; comes_back::<Register>(4, &[2, 0, 0, 0, 1, 0, 3]));
        assert!(rt; declined::<Register>(4, &[2, 0, 0, 0, 1, 0, 4]));
        assert!(rt; declined::<Register>(4, &[3, 0, 0, 0, 1, 1, 3]));
        assert!(rt; declined::<Register>(1, &COMPARE));
    }

    #[test]
    fn single_keys_are_from_the_size_to_one_less_than_its_double(rt: HostRuntime) {
        assert!(rt; declined::<Register>(6, &OFFER));
        assert!(rt; comes_back::<Register>(5, &OFFER));
        assert!(rt; comes_back::<Register>(3, &OFFER));
        assert!(rt; declined::<Register>(2, &OFFER));
        assert!(rt; declined::<SetRecord>(6, &HELD));
    }

    // A table of one element has no range with halves.
    #[test]
    fn a_table_of_one_element_is_offered_at_once(rt: HostRuntime) {
        assert!(rt; declined::<Register>(1, &[2, 0, 0, 0, 1, 0, 1]));
        assert!(rt; declined::<Register>(1, &[3, 0, 0, 0, 1, 0, 1]));
        let mut offer = OFFER;
        offer[6] = 1;
        assert!(rt; comes_back::<Register>(1, &offer));
    }

    #[test]
    fn any_size_is_taken(rt: HostRuntime) {
        assert!(rt; comes_back::<Register>(usize::MAX, &COMPARE));
        assert!(rt; declined::<Register>(usize::MAX, &OFFER));
        assert!(rt; declined::<Register>(0, &COMPARE));
        assert!(rt; declined::<Register>(0, &OFFER));
    }

    #[test]
    fn unlawful_elements_are_declined(rt: HostRuntime) {
        let mut held = HELD;
        held[22] = 2;
        assert!(rt; declined::<SetRecord>(4, &held));
        held[0] = 4;
        assert!(rt; declined::<SetRecord>(4, &held));
    }
}
