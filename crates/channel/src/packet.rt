// A frame in memory of its own.
ghost use Rattle.std.specs.Prelude.{◌≡◌, ◌≤◌, length, MatchOption};
ghost use Rattle.channel.specs.Links.{Carried};

use std::marker::Model;

// The frame is the first `len` bytes, and zeros follow, so that a frame gives back all of its packet.
// An array with a length beside it: a channel keeps its frames in memory of its own, without a heap.
#[derive(Clone, Copy)]
pub struct Packet {
    bytes: [u8; 71],
    len: usize,
}

// Clauses see the frame.
impl Model for Packet {
    ghost use Rattle.std.specs.Prelude.{ℕ, List, length, take};
    ghost use Rattle.channel.specs.Packets.{Padded, padded};
    ghost use Rattle.channel.specs.Padding.{frame_length, same_memory};

    ghost Value = { List ℕ };

    ghost view = { λ p. take p.len p.bytes };

    ghost invariant = { λ p. Padded p.bytes p.len };

    ghost inverse = { λ f. record { bytes = padded f; len = length f } };

    ghost inverse_ok = { λ p h i. record { bytes = same_memory p.bytes p.len h i; len = frame_length p.bytes p.len h i } };
}

impl Packet {
    // The packet that holds `frame`, or none where the frame has not from 1 to 71 bytes.
    // No `TryFrom`: an error would tell no more than none does.
    pub fn new(frame: &[u8]) -> Option<Packet>
        ensures { MatchOption result (Carried frame.now → ⊥) (λ p. (p ≡ frame.now) × Carried frame.now) }
    {
        let len @ 1..=71 = frame.len() else {
            return None;
        };
        let mut bytes = [0; 71];
        bytes[..len].copy_from_slice(frame);
        Some(Packet { bytes, len })
    }

    // The frame that this packet holds.
    pub fn as_bytes(&self) -> &[u8]
        ensures value { result.now ≡ self.now }
        ensures within { length self.now ≤ 71 }
    {
        &self.bytes[..self.len]
    }

    // A packet to fill a place with where no frame waits. No `Default`: a packet without a frame is for places alone.
    pub(crate) fn empty() -> Packet {
        Packet {
            bytes: [0; 71],
            len: 0,
        }
    }
}
