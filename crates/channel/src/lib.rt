// Channels: what carries frames from one replica to another.
#![tactic(auto)]

ghost use Rattle.channel.specs.Links.{Link, Fair};

mod courier;
mod in_order;
mod packet;
mod picks;
mod places;

pub use courier::Courier;
pub use in_order::InOrder;
pub use packet::Packet;
pub use places::Places;

// How many frames may wait in each of the two channels supplied.
const PLACES: usize = 64;

// A channel in one direction: one side puts frames in, the other takes them out.
// What exactly a put and a take do is the link; what every channel shows of it is the law.
pub trait Channel {
    ghost link: { Link Self };

    // Hands `frame` over. The channel may lose it.
    fn put(&mut self, frame: &[u8])
        ensures { link.puts self.old frame.now self.new };

    // A frame that came, or none.
    fn take(&mut self) -> Option<Packet>
        ensures { link.takes self.old result self.new };

    ghost fair: { Fair link };
}
