// Tests of the calls of a replica, and of rounds between two replicas.
#![tactic(auto)]

#[cfg(test)]
mod tests {
    use channel::{Channel, InOrder};
    use digest::Fnv;
    use element::{Element, Refusal};
    use kinds::{Register, SetRecord};
    use peers::{End, Peers, Start};
    use replica::{Answer, Round, abandon, lay, make, open, resend, show, step};
    use std::alloc::Global;
    use std::test::Fail;

    const OFFER: u8 = 4;

    const HELD: u8 = 5;

    // Of round 1 and the whole table.
    const DIFFER: [u8; 7] = [3, 0, 0, 0, 1, 0, 1];

    fn entry(stamp: u64) -> Register {
        Register {
            stamp,
            office: 1,
            value: 3000,
        }
    }

    // The frame of this kind that brings a register. The kind is a byte, since one that is no kind is tried, too.
    fn frame(kind: u8, round: u8, range: u8, x: Register) -> [u8; 21] {
        let mut bytes = [0; 21];
        bytes[0] = kind;
        bytes[4] = round;
        bytes[6] = range;
        x.write(&mut bytes[7..21]);
        bytes
    }

    // Whether `frame` comes from the channel. The tests of channels have this line too: a crate for it would be no plainer.
    fn comes(channel: &mut InOrder, frame: &[u8]) -> bool {
        channel
            .take()
            .is_some_and(|packet| packet.as_bytes() == frame)
    }

    // The number with which the call was refused, or none where it was accepted. The numbers are what these tests check.
    fn refused<T: Drop>(answer: Result<T, Refusal>) -> Option<u8> {
        answer.err().map(Refusal::number)
    }

    // One replica of two registers, with the channels from and to another that the test plays. As the owner in `peers`, but
    // open: a test puts in a record that the tables do not fit.
    #[derive(Drop)]
    struct Lone {
        round: Round,
        elements: [Register; 2],
        digests: [u64; 4],
        from: InOrder,
        out: InOrder,
    }

    impl Lone {
        fn new(stamp: u64, last: u32) -> Result<Lone, Refusal> {
            let elements = [entry(stamp); 2];
            let mut digests = [0; 4];
            Ok(Lone {
                round: make(&Fnv, &elements, &mut digests, last)?,
                elements,
                digests,
                from: InOrder::new(),
                out: InOrder::new(),
            })
        }

        fn lay(&mut self, key: usize, x: Register) -> Result<(), Refusal> {
            lay(
                &Fnv,
                &self.round,
                &mut self.elements,
                &mut self.digests,
                key,
                x,
            )
        }

        fn show(&self, key: usize) -> Result<Register, Refusal> {
            show(&Fnv, &self.round, &self.elements, &self.digests, key)
        }

        fn open(&mut self) -> Result<(), Refusal> {
            open(
                &Fnv,
                &mut self.round,
                &self.elements,
                &self.digests,
                &mut self.out,
            )
        }

        fn resend(&mut self) -> Result<(), Refusal> {
            resend(
                &Fnv,
                &self.round,
                &self.elements,
                &self.digests,
                &mut self.out,
            )
        }

        fn abandon(&mut self) -> Result<(), Refusal> {
            abandon(&Fnv, &mut self.round, &self.elements, &self.digests)
        }

        // A step, after the other replica has put this frame.
        fn hears(&mut self, frame: &[u8]) -> Result<Answer, Refusal> {
            self.from.put(frame);
            step(
                &Fnv,
                &mut self.round,
                &mut self.elements,
                &mut self.digests,
                &mut self.from,
                &mut self.out,
            )
        }

        // Whether both keys hold the entry of this stamp, and the digests are those.
        fn is_still(&self, stamp: u64, digests: &[u64; 4]) -> bool {
            self.elements[0].stamp == stamp
                && self.elements[1].stamp == stamp
                && self.digests == *digests
        }
    }

    // Two replicas of these elements that have used no round number, and nothing under way.
    fn pair<E: Element>(
        heap: Global,
        left: Vec<E>,
        right: Vec<E>,
    ) -> Result<Peers<E, Fnv, InOrder, InOrder>, Fail> {
        let left = Start {
            elements: left,
            last: 0,
        };
        let right = Start {
            elements: right,
            last: 0,
        };
        Ok(Peers::make(heap, Fnv, left, right, InOrder::new(), InOrder::new())?)
    }

    #[test]
    fn a_replica_has_a_power_of_two_keys(rt: HostRuntime) {
        let mut digests = [7; 4];
        assert_eq!(rt;
            refused(make(&Fnv, &[entry(1); 3], &mut digests, 0)),
            Some(1)
        );
        assert_eq!(rt;
            refused(make(&Fnv, &[entry(1); 4], &mut digests, 0)),
            Some(1)
        );
        assert!(rt; digests == [7; 4]);
    }

    // The record is that of four keys. The frame is not taken, so it comes when the right tables are handed over.
    #[test]
    fn tables_of_other_sizes_are_declined(rt: HostRuntime) -> Result<(), Fail> {
        let mut lone = Lone::new(1, 0)?;
        let before = lone.digests;
        lone.round = make(&Fnv, &[entry(1); 4], &mut [0; 8], 0)?;
        assert_eq!(rt; refused(lone.lay(9, entry(5))), Some(1));
        assert_eq!(rt; refused(lone.show(9)), Some(1));
        assert_eq!(rt; refused(lone.open()), Some(1));
        assert_eq!(rt; refused(lone.resend()), Some(1));
        assert_eq!(rt; refused(lone.abandon()), Some(1));
        assert_eq!(rt; refused(lone.hears(&DIFFER)), Some(1));
        assert!(rt; lone.is_still(1, &before));
        assert!(rt; comes(&mut lone.from, &DIFFER) && lone.out.take().is_none());
        Ok(())
    }

    #[test]
    fn a_key_that_is_not_there_is_declined(rt: HostRuntime) -> Result<(), Fail> {
        let mut lone = Lone::new(1, 0)?;
        let before = lone.digests;
        assert_eq!(rt; refused(lone.show(2)), Some(2));
        assert_eq!(rt; refused(lone.lay(2, entry(5))), Some(2));
        assert!(rt; lone.is_still(1, &before));
        lone.lay(1, entry(5))?;
        assert!(rt; lone.elements[1].stamp == 5 && lone.digests != before);
        Ok(())
    }

    #[test]
    fn one_round_runs_at_a_time(rt: HostRuntime) -> Result<(), Fail> {
        let mut lone = Lone::new(1, 0)?;
        assert_eq!(rt; refused(lone.resend()), Some(4));
        assert_eq!(rt; refused(lone.abandon()), Some(4));
        assert!(rt; lone.out.take().is_none());
        assert_eq!(rt; refused(lone.open()), None);
        assert_eq!(rt; refused(lone.open()), Some(3));
        assert!(rt; lone.out.take().is_some() && lone.out.take().is_none());
        assert_eq!(rt; refused(lone.abandon()), None);
        assert_eq!(rt; refused(lone.abandon()), Some(4));
        Ok(())
    }

    // A running round is told before spent numbers.
    #[test]
    fn the_last_round_number_is_used_once(rt: HostRuntime) -> Result<(), Fail> {
        let mut lone = Lone::new(1, 4294967294)?;
        assert_eq!(rt; refused(lone.open()), None);
        assert_eq!(rt; refused(lone.open()), Some(3));
        assert_eq!(rt; refused(lone.abandon()), None);
        assert_eq!(rt; refused(lone.open()), Some(5));
        assert!(rt; lone.out.take().is_some() && lone.out.take().is_none());
        Ok(())
    }

    // A kind 6, a round 0, an offer with the range of both keys, and one with a set in place of a register.
    #[test]
    fn unlawful_frames_change_nothing(rt: HostRuntime) -> Result<(), Fail> {
        let mut lone = Lone::new(1, 0)?;
        let before = lone.digests;
        assert_eq!(rt; refused(lone.hears(&frame(6, 1, 2, entry(5)))), Some(6));
        assert_eq!(rt; refused(lone.hears(&frame(OFFER, 0, 2, entry(5)))), Some(6));
        assert_eq!(rt; refused(lone.hears(&frame(OFFER, 1, 1, entry(5)))), Some(6));
        let mut of_a_set = [0; 23];
        of_a_set[0] = OFFER;
        of_a_set[4] = 1;
        of_a_set[6] = 2;
        assert_eq!(rt; refused(lone.hears(&of_a_set)), Some(6));
        assert!(rt; lone.is_still(1, &before));
        assert!(rt; lone.from.take().is_none() && lone.out.take().is_none());
        Ok(())
    }

    #[test]
    fn an_offer_is_answered_with_what_the_key_then_holds(rt: HostRuntime) -> Result<(), Fail> {
        let mut lone = Lone::new(5, 0)?;
        assert_eq!(rt;
            lone.hears(&frame(OFFER, 9, 3, entry(4))),
            Ok(Answer::Answered)
        );
        assert!(rt; comes(&mut lone.out, &frame(HELD, 9, 3, entry(5))));
        assert_eq!(rt;
            lone.hears(&frame(OFFER, 9, 3, entry(6))),
            Ok(Answer::Answered)
        );
        assert!(rt; comes(&mut lone.out, &frame(HELD, 9, 3, entry(6))));
        assert!(rt; lone.elements[0].stamp == 5 && lone.elements[1].stamp == 6);
        Ok(())
    }

    // After a differ of the whole table, only a held of round 1 and range 2 is awaited.
    #[test]
    fn a_stale_held_is_not_joined(rt: HostRuntime) -> Result<(), Fail> {
        let mut lone = Lone::new(1, 0)?;
        let before = lone.digests;
        assert_eq!(rt; refused(lone.hears(&frame(HELD, 1, 2, entry(5)))), Some(7));
        lone.open()?;
        assert_eq!(rt; lone.hears(&DIFFER), Ok(Answer::Moved(2)));
        assert!(rt; lone.out.take().is_some() && lone.out.take().is_some());
        assert_eq!(rt; refused(lone.hears(&frame(HELD, 2, 2, entry(5)))), Some(7));
        assert_eq!(rt; refused(lone.hears(&frame(HELD, 1, 3, entry(5)))), Some(7));
        assert_eq!(rt; refused(lone.hears(&DIFFER)), Some(7));
        assert!(rt; lone.is_still(1, &before) && lone.out.take().is_none());
        assert_eq!(rt;
            lone.hears(&frame(HELD, 1, 2, entry(5))),
            Ok(Answer::Moved(3))
        );
        assert!(rt; lone.elements[0].stamp == 5 && lone.elements[1].stamp == 1);
        Ok(())
    }

    // The opener has the lesser entry, and receives the greater one.
    #[test]
    fn a_single_key_is_offered_at_once(rt: HostRuntime) -> Result<(), Fail> {
        let heap = rt.alloc();
        let mut pair = pair(heap, vec![in heap; entry(3)]?, vec![in heap; entry(5)]?)?;
        pair.open(End::Left)?;
        assert_eq!(rt; pair.step(End::Right), Ok(Answer::Answered));
        assert_eq!(rt; pair.step(End::Left), Ok(Answer::Complete(1)));
        assert_eq!(rt; pair.show(End::Left, 0)?.stamp, 5);
        assert_eq!(rt; pair.show(End::Right, 0)?.stamp, 5);
        Ok(())
    }

    // Each end answers the other's question, then takes the answer to its own, which has the same round and range.
    #[test]
    fn both_ends_may_open_at_once(rt: HostRuntime) -> Result<(), Fail> {
        let heap = rt.alloc();
        let left = vec![in heap; entry(5), entry(1)]?;
        let mut pair = pair(heap, left, vec![in heap; entry(1), entry(7)]?)?;
        pair.open(End::Left)?;
        pair.open(End::Right)?;
        for answer in [
            Answer::Answered,
            Answer::Moved(2),
            Answer::Answered,
            Answer::Moved(3),
            Answer::Answered,
            Answer::Complete(3),
        ] {
            assert_eq!(rt; pair.step(End::Right), Ok(answer));
            assert_eq!(rt; pair.step(End::Left), Ok(answer));
        }
        assert_eq!(rt; pair.show(End::Left, 1)?.stamp, 7);
        assert_eq!(rt; pair.show(End::Right, 0)?.stamp, 5);
        Ok(())
    }

    // Three questions of the whole table, of which one answer is taken.
    #[test]
    fn a_question_that_is_asked_again_counts_once(rt: HostRuntime) -> Result<(), Fail> {
        let heap = rt.alloc();
        let left = vec![in heap; entry(1), entry(1)]?;
        let mut pair = pair(heap, left, vec![in heap; entry(1), entry(2)]?)?;
        pair.open(End::Left)?;
        pair.resend(End::Left)?;
        pair.resend(End::Left)?;
        for _ in 0..3 {
            assert_eq!(rt; pair.step(End::Right), Ok(Answer::Answered));
        }
        assert_eq!(rt; pair.step(End::Left), Ok(Answer::Moved(2)));
        assert_eq!(rt; pair.step(End::Left), Err(Refusal::Stale));
        assert_eq!(rt; pair.step(End::Left), Err(Refusal::Stale));
        assert_eq!(rt; pair.step(End::Right), Ok(Answer::Answered));
        assert_eq!(rt; pair.step(End::Left), Ok(Answer::Moved(3)));
        assert_eq!(rt; pair.step(End::Right), Ok(Answer::Answered));
        assert_eq!(rt; pair.step(End::Left), Ok(Answer::Complete(3)));
        assert_eq!(rt; pair.show(End::Left, 1)?.stamp, 2);
        Ok(())
    }

    // What was laid after the first offer is in the second.
    #[test]
    fn a_question_is_asked_again_as_it_stands(rt: HostRuntime) -> Result<(), Fail> {
        let heap = rt.alloc();
        let mut pair = pair(heap, vec![in heap; entry(2)]?, vec![in heap; entry(1)]?)?;
        pair.open(End::Left)?;
        pair.lay(End::Left, 0, entry(5))?;
        pair.resend(End::Left)?;
        assert_eq!(rt; pair.step(End::Right), Ok(Answer::Answered));
        assert_eq!(rt; pair.show(End::Right, 0)?.stamp, 2);
        assert_eq!(rt; pair.step(End::Right), Ok(Answer::Answered));
        assert_eq!(rt; pair.show(End::Right, 0)?.stamp, 5);
        assert_eq!(rt; pair.step(End::Left), Ok(Answer::Complete(1)));
        assert_eq!(rt; pair.step(End::Left), Err(Refusal::Stale));
        Ok(())
    }

    // The answer of round 1 comes when no round runs, that of round 2 when round 3 asks about the same range.
    #[test]
    fn frames_of_an_abandoned_round_come_late(rt: HostRuntime) -> Result<(), Fail> {
        let heap = rt.alloc();
        let left = vec![in heap; entry(1), entry(1)]?;
        let mut pair = pair(heap, left, vec![in heap; entry(1), entry(2)]?)?;
        pair.open(End::Left)?;
        pair.abandon(End::Left)?;
        assert_eq!(rt; pair.step(End::Right), Ok(Answer::Answered));
        assert_eq!(rt; pair.step(End::Left), Err(Refusal::Stale));
        pair.open(End::Left)?;
        pair.abandon(End::Left)?;
        pair.open(End::Left)?;
        assert_eq!(rt; pair.step(End::Right), Ok(Answer::Answered));
        assert_eq!(rt; pair.step(End::Right), Ok(Answer::Answered));
        assert_eq!(rt; pair.step(End::Left), Err(Refusal::Stale));
        assert_eq!(rt; pair.step(End::Left), Ok(Answer::Moved(2)));
        Ok(())
    }

    // The left end starts with a position removed that was not added. That stands for the empty set, which the right
    // end has, so the digests are the same and nothing is exchanged until a set is laid.
    #[test]
    fn a_record_that_breaks_its_rule_is_an_empty_set(rt: HostRuntime) -> Result<(), Fail> {
        let heap = rt.alloc();
        let broken = SetRecord {
            added: 1,
            removed: 2,
        };
        let left = vec![in heap; broken, SetRecord::bottom()]?;
        let right = vec![in heap; SetRecord::bottom(), SetRecord::bottom()]?;
        let mut pair = pair(heap, left, right)?;
        pair.open(End::Left)?;
        assert_eq!(rt; pair.step(End::Right), Ok(Answer::Answered));
        assert_eq!(rt; pair.step(End::Left), Ok(Answer::Complete(1)));
        let laid = SetRecord {
            added: 12,
            removed: 4,
        };
        pair.lay(End::Right, 0, laid)?;
        pair.open(End::Left)?;
        for answer in [Answer::Moved(2), Answer::Moved(3), Answer::Complete(3)] {
            assert_eq!(rt; pair.step(End::Right), Ok(Answer::Answered));
            assert_eq!(rt; pair.step(End::Left), Ok(answer));
        }
        for end in [End::Left, End::Right] {
            let held = pair.show(end, 0)?;
            assert!(rt; held.added == 12 && held.removed == 4);
        }
        Ok(())
    }
}
