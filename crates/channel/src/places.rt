// Places in which a channel keeps the frames that wait.
ghost use Rattle.std.specs.Prelude.{◌≡◌, ◌≤◌, ◌↔◌, [], length, remove, slice_get, IsTrue};
ghost use Rattle.channel.specs.Queues.{put_among, WaitIn};

use crate::packet::Packet;
use std::marker::Model;

// The frames that wait stand in the first `waiting` of the `N` places, the oldest first.
// An array with a count beside it: a channel keeps its frames in memory of its own, without a heap.
#[derive(Drop)]
pub struct Places<const N: usize> {
    packets: [Packet; N],
    waiting: usize,
}

// Clauses see the frames that wait, the oldest first.
impl<const N: usize> Model for Places<N> {
    ghost use Rattle.std.specs.Prelude.{ℕ, ◌≤◌, List, take};
    ghost use Rattle.channel.specs.Queues.{WaitIn};

    ghost Value = { List (List ℕ) };

    ghost view = { λ p. take p.waiting p.packets };

    ghost invariant = { λ p. (p.waiting ≤ N) × WaitIn N (take p.waiting p.packets) };
}

impl<const N: usize> Places<N> {
    // Nothing waits.
    pub fn new() -> Self
        ensures { result ≡ [] }
    {
        Places {
            packets: [Packet::empty(); N],
            waiting: 0,
        }
    }

    // How many frames wait.
    pub fn len(&self) -> usize
        ensures count { result ≡ length self.now }
        ensures within { result ≤ N }
        ensures waits { WaitIn N self.now }
    {
        self.packets[..self.waiting].len()
    }

    pub fn is_empty(&self) -> bool
        ensures { IsTrue result ↔ (self.now ≡ []) }
    {
        self.len() == 0
    }

    // The frame at place `at`, or none where none waits there.
    pub fn get(&self, at: usize) -> Option<Packet>
        ensures { result ≡ slice_get self.now at }
    {
        self.packets[..self.waiting].get(at).copied()
    }

    // The frame joins at the end, or is lost where `N` wait or no packet can hold it.
    #[tactic(auto, using(crate::proofs::Waiting::put_in, crate::proofs::Waiting::put_full))]
    pub fn put(&mut self, frame: &[u8])
        ensures after { self.new ≡ put_among N self.old frame.now }
        ensures waits { WaitIn N self.new }
    {
        if self.waiting == N {
            return;
        }
        if let Some(packet) = Packet::new(frame) {
            self.packets[self.waiting] = packet;
            self.waiting += 1;
        }
    }

    // Removes the frame at place `at` and answers it, or none where none waits there. Those behind it move up by one.
    #[tactic(auto, using(crate::proofs::Waiting::waits_within, crate::proofs::Waiting::none_removed))]
    pub fn remove(&mut self, at: usize) -> Option<Packet>
        ensures removed { result ≡ slice_get self.old at }
        ensures left { self.new ≡ remove self.old at }
        ensures waits { WaitIn N self.new }
    {
        let removed = self.get(at)?;
        self.packets.copy_within(at + 1..self.waiting, at);
        self.waiting -= 1;
        Some(removed)
    }
}
