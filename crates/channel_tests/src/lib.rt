// Tests of the channels, with two channels of its own: a new one needs only its link and the law.
#![tactic(auto)]

mod nowhere;
mod relay;
mod stack;

pub use nowhere::Nowhere;
pub use relay::pass_on;
pub use stack::Stack;

#[cfg(test)]
mod tests {
    use super::*;
    use channel::{Channel, Courier, InOrder};

    // Takes from `channel`: whether `frame` comes. The tests of replicas have this line too: a crate for it would be no
    // plainer.
    fn comes<C: Channel>(channel: &mut C, frame: &[u8]) -> bool {
        channel
            .take()
            .is_some_and(|packet| packet.as_bytes() == frame)
    }

    #[test]
    fn frames_come_in_order(rt: HostRuntime) {
        let mut channel = InOrder::new();
        assert!(rt; channel.take().is_none());
        channel.put(&[1]);
        channel.put(&[2, 2]);
        assert!(rt; comes(&mut channel, &[1]));
        channel.put(&[3]);
        assert!(rt; comes(&mut channel, &[2, 2]));
        assert!(rt; comes(&mut channel, &[3]));
        assert!(rt; channel.take().is_none());
    }

    #[test]
    fn the_65th_frame_is_lost(rt: HostRuntime) {
        let mut channel = InOrder::new();
        for i in 0..65 {
            channel.put(&[i]);
        }
        for i in 0..64 {
            assert!(rt; comes(&mut channel, &[i]));
        }
        assert!(rt; channel.take().is_none());
    }

    #[test]
    fn a_frame_has_from_1_to_71_bytes(rt: HostRuntime) {
        let mut channel = InOrder::new();
        channel.put(&[]);
        channel.put(&[7; 72]);
        assert!(rt; channel.take().is_none());
        channel.put(&[7; 71]);
        assert!(rt; comes(&mut channel, &[7; 71]));
    }

    // Of three frames pick 4 names the one at place 1, and pick 128 the one at place 2; of two pick 255 names the one at
    // place 1. The last pick answers the first frame, which then waits for ever.
    #[test]
    fn a_courier_repeats_delays_and_removes(rt: HostRuntime) {
        let mut courier = Courier::new(&[1, 4, 128, 0, 255, 127]);
        courier.put(&[10]);
        courier.put(&[20]);
        courier.put(&[30]);
        assert!(rt; comes(&mut courier, &[20]));
        assert!(rt; comes(&mut courier, &[20]));
        assert!(rt; courier.take().is_none());
        assert!(rt; comes(&mut courier, &[10]));
        assert!(rt; courier.take().is_none());
        assert!(rt; comes(&mut courier, &[10]));
        assert!(rt; courier.take().is_none());
    }

    #[test]
    fn picks_beyond_64_are_ignored(rt: HostRuntime) {
        let mut courier = Courier::new(&[0; 65]);
        courier.put(&[10]);
        for _ in 0..64 {
            assert!(rt; comes(&mut courier, &[10]));
        }
        assert!(rt; courier.take().is_none());
    }

    #[test]
    fn an_empty_courier_uses_no_pick(rt: HostRuntime) {
        let mut courier = Courier::new(&[0]);
        assert!(rt; courier.take().is_none());
        courier.put(&[10]);
        assert!(rt; comes(&mut courier, &[10]));
        assert!(rt; courier.take().is_none());
    }

    // A pick that repeats a frame is used up, too.
    #[test]
    fn frames_and_picks_are_counted(rt: HostRuntime) {
        let mut channel = InOrder::new();
        channel.put(&[1]);
        channel.put(&[2]);
        assert_eq!(rt; channel.waiting(), 2);
        let mut courier = Courier::new(&[0, 128]);
        courier.put(&[1]);
        assert!(rt; courier.waiting() == 1 && courier.picks_left() == 2);
        assert!(rt; comes(&mut courier, &[1]));
        assert!(rt; courier.waiting() == 1 && courier.picks_left() == 1);
        assert!(rt; courier.take().is_none());
        assert!(rt; courier.waiting() == 0 && courier.picks_left() == 0);
        let mut stack = Stack::new();
        stack.put(&[1]);
        stack.put(&[2]);
        stack.put(&[3]);
        assert_eq!(rt; stack.waiting(), 3);
    }

    #[test]
    fn frames_pass_from_channel_to_channel(rt: HostRuntime) {
        let mut first = InOrder::new();
        let mut second = Stack::new();
        first.put(&[1]);
        first.put(&[2]);
        for _ in 0..3 {
            pass_on(&mut first, &mut second);
        }
        assert!(rt; first.take().is_none());
        assert!(rt; comes(&mut second, &[2]));
        assert!(rt; comes(&mut second, &[1]));
    }

    #[test]
    fn other_channels_are_channels_too(rt: HostRuntime) {
        let mut nowhere = Nowhere;
        nowhere.put(&[1]);
        assert!(rt; nowhere.take().is_none());
        let mut stack = Stack::new();
        for i in 1..6 {
            stack.put(&[i]);
        }
        assert!(rt; comes(&mut stack, &[4]));
        stack.put(&[6]);
        assert!(rt; comes(&mut stack, &[6]));
        assert!(rt; comes(&mut stack, &[3]));
        assert!(rt; comes(&mut stack, &[2]));
        assert!(rt; comes(&mut stack, &[1]));
        assert!(rt; stack.take().is_none());
    }
}
