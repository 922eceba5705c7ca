// Tests of the elements, with an element and pairs of its own: a new one needs only its laws.
#![tactic(auto)]

mod pairs;
mod peak;

pub use pairs::{Watched, Widest};
pub use peak::Peak;

#[cfg(test)]
mod tests {
    use super::*;
    use element::{Element, Pair, Refusal, at_most, join_at, same};
    use kinds::{Card, Counter, Register, Set, SetRecord, new_card};
    use std::test::Fail;

    // The bytes of `known_card`, put together by hand from the layout.
    const KNOWN: [u8; 62] = [
        1, 2, 3, 4, 5, 6, 7, 8, 9, 10, 0, 4, 0xa7, 0x68, 0x80, 0, 0, 0, 0, 0, 0, 7, 0, 0, 0, 0, 0,
        0, 0, 2, 0, 0, 0, 1, 0, 0, 0, 0, 0, 0, 0, 0, 0, 1, 0x11, 0x70, 0, 0, 0, 0, 0, 0, 0, 0, 0,
        0, 0, 0, 0xff, 0xff, 0xff, 0xff,
    ];

    fn register(stamp: u64, office: u16, value: u32) -> Register {
        Register {
            stamp,
            office,
            value,
        }
    }

    fn set(added: u64, removed: u64) -> SetRecord {
        SetRecord { added, removed }
    }

    fn known_card() -> Card {
        new_card(
            register(0x0102030405060708, 0x090a, 305000),
            set(0x8000000000000007, 2),
            Counter {
                seats: [1, 0, 0, 70000, 0, 0, 0, 0xffffffff],
            },
        )
    }

    #[test]
    fn sets_join_by_union(rt: HostRuntime) {
        let joined = set(5, 1).join(set(3, 2));
        assert_eq!(rt; joined.added, 7);
        assert_eq!(rt; joined.removed, 3);
    }

    #[test]
    fn a_set_keeps_its_rule(rt: HostRuntime) {
        assert!(rt; Set::new(4, 1).is_none());
        assert!(rt; Set::new(5, 1).is_some());
        assert!(rt; Set::try_from(set(4, 1)).is_err());
        assert_eq!(rt; set(4, 1).as_set().masks(), (0, 0));
        assert_eq!(rt; set(5, 1).as_set().masks(), (5, 1));
        assert_eq!(rt; set(4, 1).join(set(2, 0)).added, 2);
        assert!(rt; same(set(4, 1), set(0, 0)));
    }

    #[test]
    fn a_broken_set_is_written_as_the_empty_one(rt: HostRuntime) {
        let mut bytes = [9; 16];
        assert!(rt; set(4, 1).write(&mut bytes));
        assert!(rt; bytes == [0; 16]);
    }

    #[test]
    fn unlawful_set_bytes_are_refused(rt: HostRuntime) {
        let mut bytes = [0u8; 16];
        bytes[7] = 4;
        bytes[15] = 1;
        assert!(rt; !SetRecord::lawful(&bytes));
        assert!(rt; SetRecord::read(&bytes).is_none());
        bytes[7] = 5;
        assert!(rt; SetRecord::lawful(&bytes));
        assert!(rt; SetRecord::read(&bytes[..15]).is_none());
    }

    #[test]
    fn a_correction_beats_the_height_that_it_corrects(rt: HostRuntime) {
        let above_sea_level = register(40, 7, 41250);
        let corrected = register(52, 7, 3050);
        assert_eq!(rt; above_sea_level.join(corrected).value, 3050);
        assert_eq!(rt; corrected.join(above_sea_level).value, 3050);
        assert!(rt; at_most(above_sea_level, corrected));
        assert!(rt; !at_most(corrected, above_sea_level));
    }

    #[test]
    fn equal_stamps_go_by_office_and_then_by_value(rt: HostRuntime) {
        assert_eq!(rt; register(9, 1, 500).join(register(9, 2, 100)).value, 100);
        assert_eq!(rt; register(9, 2, 100).join(register(9, 1, 500)).value, 100);
        assert_eq!(rt; register(9, 2, 100).join(register(9, 2, 300)).value, 300);
        assert_eq!(rt; register(9, 2, 300).join(register(9, 2, 100)).value, 300);
    }

    #[test]
    fn counters_join_seat_by_seat(rt: HostRuntime) {
        let a = Counter {
            seats: [1, 20, 3, 40, 5, 60, 7, 80],
        };
        let b = Counter {
            seats: [10, 2, 30, 4, 50, 6, 70, 8],
        };
        assert!(rt; a.join(b).seats == [10, 20, 30, 40, 50, 60, 70, 80]);
    }

    #[test]
    fn a_card_has_known_bytes(rt: HostRuntime) -> Result<(), Fail> {
        assert_eq!(rt; Card::width(), 62);
        let mut bytes = [0; 62];
        assert!(rt; known_card().write(&mut bytes));
        assert!(rt; bytes == KNOWN);
        let card = Card::read(&KNOWN).ok_or("the bytes are lawful")?;
        assert!(rt; same(card, known_card()));
        Ok(())
    }

    #[test]
    fn a_card_with_a_broken_set_keeps_its_other_parts(rt: HostRuntime) {
        let whole = known_card();
        let broken = new_card(whole.first, set(4, 1), whole.second.second);
        let joined = broken.join(Card::bottom());
        assert_eq!(rt; joined.first.value, 305000);
        assert_eq!(rt; joined.second.first.added, 0);
        assert!(rt; joined.second.second.seats == whole.second.second.seats);
        let mut expected = KNOWN;
        expected[14..30].fill(0);
        let mut bytes = [9; 62];
        assert!(rt; broken.write(&mut bytes));
        assert!(rt; bytes == expected);
    }

    #[test]
    fn a_write_leaves_what_it_does_not_fill(rt: HostRuntime) {
        let mut long = [9; 16];
        assert!(rt; register(0, 0, 1).write(&mut long));
        assert!(rt; long == [0, 0, 0, 0, 0, 0, 0, 0, 0, 0, 0, 0, 0, 1, 9, 9]);
        let mut short = [9; 13];
        assert!(rt; !register(0, 0, 1).write(&mut short));
        assert!(rt; short == [9; 13]);
    }

    #[test]
    fn a_join_into_a_key_changes_that_key_alone(rt: HostRuntime) {
        let mut table = [Peak { value: 4 }, Peak { value: 4 }];
        assert_eq!(rt;
            join_at(&mut table, 1, Peak { value: 6 }),
            Ok(Peak { value: 6 })
        );
        assert_eq!(rt;
            join_at(&mut table, 1, Peak { value: 5 }),
            Ok(Peak { value: 6 })
        );
        assert_eq!(rt;
            join_at(&mut table, 2, Peak { value: 9 }),
            Err(Refusal::Key)
        );
        assert_eq!(rt; table[0].value, 4);
        assert_eq!(rt; table[1].value, 6);
    }

    #[test]
    fn other_pairs_are_elements_too(rt: HostRuntime) {
        assert_eq!(rt; Widest::width(), 64);
        let watched = Pair {
            first: Peak { value: 3 },
            second: known_card(),
        };
        assert_eq!(rt; watched.join(Watched::bottom()).second.first.value, 305000);
        assert!(rt; same(watched, watched.meaning()));
    }
}
