// One replica that owns its tables. It stands in a file of its own, apart from the definitions that speak of it.
use replica::Round;

#[derive(Drop)]
pub struct Owner<E> {
    pub(crate) round: Round,
    pub(crate) elements: Vec<E>,
    pub(crate) digests: Vec<u64>,
}
