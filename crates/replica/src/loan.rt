// What a step has on loan. It stands in a file of its own, apart from the definitions that speak of it.
ghost use Rattle.std.specs.Prelude.{◌≡◌, true};
ghost use Rattle.replica.specs.Replicas.{fitting, replica_of};

use crate::round::Round;

// A replica, lent for one step under its digest: the record and two tables that fit it. The lifetimes are apart: with
// one, the borrow check refuses `step`. Methods take it by `&mut`, with `Keeps` in each, since a clause reads what a loan
// taken by value leaves by place alone, as `self.exit.1.0`.
#[derive(Drop)]
pub(crate) struct Loan<'a, 'r, 'e, 'd, E, D> {
    pub(crate) digest: &'a D,
    pub(crate) round: &'r mut Round,
    pub(crate) elements: &'e mut [E],
    pub(crate) digests: &'d mut [u64],
    ghost fits: { fitting (replica_of round.now elements.now digests.now) ≡ true },
}
