// A channel of 4 places that answers the newest frame first.
ghost use Rattle.std.specs.Prelude.{◌≡◌, ◌≤◌, [], length};
ghost use Rattle.channel.specs.Queues.{put_among, WaitIn};
ghost use Rattle.channel_tests.specs.Stacks.{stack, Popped};
ghost use Rattle.channel_tests.specs.Stacking.{fair_stack};

use channel::{Channel, Packet, Places};
use std::marker::Model;

#[derive(Drop)]
pub struct Stack {
    places: Places<4>,
}

// Clauses see the frames that wait, the newest last.
impl Model for Stack {
    ghost use Rattle.std.specs.Prelude.{ℕ, List};

    ghost Value = { List (List ℕ) };

    ghost view = { λ c. c.places };
}

impl Stack {
    // Nothing waits.
    pub fn new() -> Stack
        ensures { result ≡ [] }
    {
        Stack {
            places: Places::new(),
        }
    }

    // How many frames wait.
    pub fn waiting(&self) -> usize
        ensures count { result ≡ length self.now }
        ensures within { result ≤ 4 }
        ensures waits { WaitIn 4 self.now }
    {
        self.places.len()
    }
}

impl Channel for Stack {
    ghost link = { stack (λ c. c) };

    ghost fair = { fair_stack _ };

    fn put(&mut self, frame: &[u8])
        ensures puts { self.new ≡ put_among 4 self.old frame.now }
        ensures waits { WaitIn 4 self.new }
    {
        self.places.put(frame);
    }

    fn take(&mut self) -> Option<Packet>
        ensures takes { Popped self.old result self.new }
        ensures waits { WaitIn 4 self.new }
    {
        let newest = self.places.len().checked_sub(1)?;
        self.places.remove(newest)
    }
}
