// The courier: a channel that repeats, delays, reorders and loses frames, as a list of bytes says.
ghost use Rattle.std.specs.Prelude.{◌≡◌, ◌≤◌, [], length, take};
ghost use Rattle.channel.specs.Couriers.{courier, picked, stowed};
ghost use Rattle.channel.specs.Queues.{WaitIn};
ghost use Rattle.channel.specs.Picking.{fair_courier};

use crate::packet::Packet;
use crate::picks::Picks;
use crate::places::Places;
use crate::{Channel, PLACES};
use std::marker::Model;

#[derive(Drop)]
pub struct Courier {
    places: Places<PLACES>,
    picks: Picks,
}

// Clauses see the frames that wait and the picks that are left.
impl Model for Courier {
    ghost use Rattle.std.specs.Prelude.{◌≤◌, length};
    ghost use Rattle.channel.specs.Couriers.{Cargo};
    ghost use Rattle.channel.specs.Queues.{WaitIn};

    ghost Value = { Cargo };

    ghost view = { λ c. record { waiting = c.places; picks = c.picks } };

    ghost invariant = { λ c. WaitIn 64 c.places × (length c.picks ≤ 64) };
}

impl Courier {
    // Nothing waits, and the first 64 of the picks given are there.
    pub fn new(picks: &[u8]) -> Courier
        ensures { result ≡ record { waiting = []; picks = take 64 picks.now } }
    {
        Courier {
            places: Places::new(),
            picks: Picks::new(picks),
        }
    }

    // How many frames wait.
    pub fn waiting(&self) -> usize
        ensures count { result ≡ length self.now.waiting }
        ensures within { result ≤ 64 }
        ensures waits { WaitIn 64 self.now.waiting }
    {
        self.places.len()
    }

    // How many picks are left.
    pub fn picks_left(&self) -> usize
        ensures count { result ≡ length self.now.picks }
        ensures within { result ≤ 64 }
    {
        self.picks.count_left()
    }
}

impl Channel for Courier {
    ghost link = { courier (λ c. c) };

    ghost fair = { fair_courier _ };

    fn put(&mut self, frame: &[u8])
        ensures puts { self.new ≡ stowed self.old frame.now }
        ensures waits { WaitIn 64 self.new.waiting }
        ensures picks { length self.new.picks ≤ 64 }
    {
        self.places.put(frame);
    }

    // A pick names a frame among those that wait. Below 128 that frame is answered and stays, so it may come again; from
    // 128 on it is removed, so it is lost.
    fn take(&mut self) -> Option<Packet>
        ensures takes { picked self.old.waiting self.old.picks ≡ record { came = result; left = self.new } }
        ensures waits { WaitIn 64 self.new.waiting }
        ensures picks { length self.new.picks ≤ 64 }
    {
        if self.places.is_empty() {
            return None;
        }
        let pick = self.picks.next()?;
        let at = usize::from(pick) % self.places.len();
        if pick < 128 {
            return self.places.get(at);
        }
        self.places.remove(at);
        None
    }
}
