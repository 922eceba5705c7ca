// The in-order channel: 64 places, first in, first out.
ghost use Rattle.std.specs.Prelude.{◌≡◌, ◌≤◌, [], length};
ghost use Rattle.channel.specs.Queues.{after_put, queue, Shifted, WaitIn};
ghost use Rattle.channel.specs.Queueing.{fair_queue};

use crate::packet::Packet;
use crate::places::Places;
use crate::{Channel, PLACES};
use std::marker::Model;

#[derive(Drop)]
pub struct InOrder {
    places: Places<PLACES>,
}

// Clauses see the frames that wait, the oldest first.
impl Model for InOrder {
    ghost use Rattle.std.specs.Prelude.{ℕ, List};

    ghost Value = { List (List ℕ) };

    ghost view = { λ c. c.places };
}

impl InOrder {
    // Nothing waits.
    pub fn new() -> InOrder
        ensures { result ≡ [] }
    {
        InOrder {
            places: Places::new(),
        }
    }

    // How many frames wait.
    pub fn waiting(&self) -> usize
        ensures count { result ≡ length self.now }
        ensures within { result ≤ 64 }
        ensures waits { WaitIn 64 self.now }
    {
        self.places.len()
    }
}

impl Channel for InOrder {
    ghost link = { queue (λ c. c) };

    ghost fair = { fair_queue _ };

    fn put(&mut self, frame: &[u8])
        ensures puts { self.new ≡ after_put self.old frame.now }
        ensures waits { WaitIn 64 self.new }
    {
        self.places.put(frame);
    }

    fn take(&mut self) -> Option<Packet>
        ensures takes { Shifted self.old result self.new }
        ensures waits { WaitIn 64 self.new }
    {
        self.places.remove(0)
    }
}
