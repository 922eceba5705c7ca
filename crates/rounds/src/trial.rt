// A pair of replicas, made for a case and looked at.
use crate::cases::Case;
use crate::names::Named;
use crate::sites::{Site, start_of};
use anyhow::Context;
use channel::Channel;
use digest::Digest;
use element::{Refusal, same};
use peers::{End, Peers};
use std::alloc::Global;
use std::fmt;

#[derive(Drop)]
pub(crate) struct Trial<S, D, C> {
    pub(crate) pair: Peers<S, D, C, C>,
    pub(crate) case: Case,
}

impl<S: Site, D: Digest + Drop, C: Channel + Drop> Trial<S, D, C> {
    // The pair before any round.
    pub(crate) fn new(
        heap: Global,
        digest: D,
        case: Case,
        to_left: C,
        to_right: C,
    ) -> anyhow::Result<Trial<S, D, C>> {
        let left = start_of(heap, &case, End::Left)?;
        let right = start_of(heap, &case, End::Right)?;
        let pair = Peers::make(heap, digest, left, right, to_left, to_right)
            .ok()
            .context("the pair was not made")?;
        Ok(Trial { pair, case })
    }

    // Opens a round at each end that is to open one.
    pub(crate) fn open(&mut self) -> Result<(), Refusal> {
        for end in self.case.opens.ends() {
            self.pair.open(*end)?;
        }
        Ok(())
    }

    // Has the left end give its round up and open another.
    pub(crate) fn renew(&mut self) -> Result<(), Refusal> {
        self.pair.abandon(End::Left)?;
        self.pair.open(End::Left)
    }

    // At how many keys the ends hold different elements. Asked key by key, so that no copies are made to compare.
    // `saturating_add` is here because the proof then needs no bound.
    pub(crate) fn differing(&self) -> Result<u16, Refusal> {
        let mut number = 0u16;
        for key in 0..self.case.size() {
            let key = usize::from(key);
            let left = self.pair.show(End::Left, key)?;
            let right = self.pair.show(End::Right, key)?;
            if !same(left, right) {
                number = number.saturating_add(1);
            }
        }
        Ok(number)
    }

    // Prints the heights that both ends hold.
    pub(crate) fn print_heights(&self, rt: &HostRuntime) -> anyhow::Result<()> {
        for (name, end) in [("left", End::Left), ("right", End::Right)] {
            print!(rt; "  {name}:")?;
            for key in 0..self.case.size() {
                let x = self.pair.show(end, usize::from(key))?;
                print!(rt; " {}", x.height())?;
            }
            println!(rt; "")?;
        }
        Ok(())
    }
}

// What the trial is about.
impl<S: Site, D: Named, C: Named> fmt::Display for Trial<S, D, C> {
    fn fmt<W: fmt::Write>(&self, f: &mut fmt::Formatter<W>) -> fmt::Result {
        let depth = self.case.depth;
        let kind = S::NAME;
        let digest = D::NAME;
        let channels = C::NAME;
        let opens = self.case.opens;
        write!(f, "depth {depth}, {kind}, {digest}, {channels}, {opens}")
    }
}
