// Code over any two channels, which is proved from the law alone.
ghost use Rattle.std.specs.Prelude.{ℕ, ◌⊎◌, List};
ghost use Rattle.channel.specs.Links.{Arrives};
ghost use Rattle.channel_tests.specs.Relaying.{Relays};

use channel::Channel;

// Takes from one channel and puts what came into another. No frame is made up on the way: what may arrive at the end
// could arrive there before, or from the first channel.
pub fn pass_on<C: Channel, D: Channel>(from: &mut C, to: &mut D)
    ensures relays { Relays C.Channel.link D.Channel.link from.old from.new to.old to.new }
    ensures nothing_new { (g : List ℕ) → Arrives D.Channel.link to.new g → Arrives D.Channel.link to.old g ⊎ Arrives C.Channel.link from.old g }
{
    if let Some(packet) = from.take() {
        to.put(packet.as_bytes());
    }
}
