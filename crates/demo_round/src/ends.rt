// The office and the laptop as the two ends of a pair, with a courier toward each.
use crate::picks::{TO_LAPTOP, TO_OFFICE};
use anyhow::Context;
use channel::Courier;
use digest::Fnv;
use element::Refusal;
use kinds::Card;
use mast_sites::{BEFORE, Copies, Sites};
use peers::{End, Peers, Start};
use std::alloc::{AllocError, Global};
use std::array;

pub(crate) type Pair = Peers<Card, Fnv, Courier, Courier>;

pub(crate) const OFFICE: End = End::Left;

pub(crate) const LAPTOP: End = End::Right;

// An end that holds this copy, before any round.
fn start_from(heap: Global, copy: &Sites) -> Result<Start<Card>, AllocError> {
    Ok(Start {
        elements: Vec::from_slice(heap, &copy.cards)?,
        last: 0,
    })
}

// The pair before any round.
pub(crate) fn make_pair(heap: Global) -> anyhow::Result<Pair> {
    let before = BEFORE;
    let office = start_from(heap, &before.office)?;
    let laptop = start_from(heap, &before.laptop)?;
    let to_office = Courier::new(&TO_OFFICE);
    let to_laptop = Courier::new(&TO_LAPTOP);
    Peers::make(heap, Fnv, office, laptop, to_office, to_laptop)
        .ok()
        .context("the pair was not made")
}

// What an end holds at each site.
fn sites_at(pair: &Pair, end: End) -> Result<Sites, Refusal> {
    let cards = array::try_from_fn(|site| pair.show(end, site))?;
    Ok(Sites { cards })
}

// What both ends hold.
pub(crate) fn copies_of(pair: &Pair) -> anyhow::Result<Copies> {
    let not_shown = "the cards were not shown";
    Ok(Copies {
        office: sites_at(pair, OFFICE).context(not_shown)?,
        laptop: sites_at(pair, LAPTOP).context(not_shown)?,
    })
}
