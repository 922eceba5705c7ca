// A channel that loses every frame.
ghost use Rattle.channel_tests.specs.Losing.{losing};
ghost use Rattle.std.proofs.Common.{rules};

use channel::{Channel, Packet};

#[derive(Clone, Copy)]
pub struct Nowhere;

impl Channel for Nowhere {
    ghost link = { losing };

    ghost fair = { Prim.search rules };

    fn put(&mut self, _frame: &[u8]) {}

    fn take(&mut self) -> Option<Packet> {
        None
    }
}
