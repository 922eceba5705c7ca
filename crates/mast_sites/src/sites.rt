// One copy of the table, and a card as text.
ghost use Rattle.std.specs.Prelude.{◌≡◌, ◌↔◌, IsTrue, IsSomeAnd, slice_get, bit_and, sum};

use kinds::Card;
use std::fmt;

// How many sites the table has.
pub const SITES: usize = 4;

// The cards of all sites, as one end holds them.
#[derive(Clone, Copy)]
pub struct Sites {
    pub cards: [Card; SITES],
}

// What a planner asks of a copy.
impl Sites {
    // Whether site 0 has the height that the laptop corrected.
    pub fn is_corrected(&self) -> bool
        ensures { IsSomeAnd (slice_get self.now.cards 0) (λ card. IsTrue result ↔ (card.first.value ≡ 3050)) }
    {
        self.cards[0].first.value == 3050
    }

    // Whether position 1 of site 1, whose mask is 2, is removed.
    pub fn is_removed(&self) -> bool
        ensures { IsSomeAnd (slice_get self.now.cards 1) (λ card. IsTrue result ↔ (bit_and card.second.first.removed 2 ≡ 2)) }
    {
        self.cards[1].second.first.removed & 2 == 2
    }
}

// A line for each site.
impl fmt::Display for Sites {
    fn fmt<W: fmt::Write>(&self, f: &mut fmt::Formatter<W>) -> fmt::Result {
        for (site, card) in self.cards.iter().enumerate() {
            writeln!(f, "  {}", SiteCard { site, card })?;
        }
        Ok(())
    }
}

// The card of a site.
#[derive(Clone, Copy)]
pub struct SiteCard<'a> {
    pub site: usize,
    pub card: &'a Card,
}

// How many samples the field parties have counted together.
fn samples_in(seats: &[u32; 8]) -> u64
    ensures { result ≡ sum seats.now }
{
    seats.iter().map(|seat| u64::from(*seat)).sum()
}

impl fmt::Display for SiteCard<'_> {
    fn fmt<W: fmt::Write>(&self, f: &mut fmt::Formatter<W>) -> fmt::Result {
        let site = self.site;
        let height = self.card.first;
        let (added, removed) = self.card.second.first.as_set().masks();
        let samples = samples_in(&self.card.second.second.seats);
        write!(
            f,
            "site {site}: {} cm above ground (stamp {}, office {}), {samples} samples, positions",
            height.value, height.stamp, height.office
        )?;
        // the positions that stand: added, and not removed since
        let standing = added & !removed;
        for position in (0..64u32).filter(|k| standing >> *k & 1 == 1) {
            write!(f, " {position}")?;
        }
        Ok(())
    }
}
