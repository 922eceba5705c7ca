// Two replicas and the channel toward each, as one value. It stands in a file of its own, apart from the definitions that
// speak of it.
use crate::owner::Owner;

#[derive(Drop)]
pub struct Peers<E, D, A, B> {
    pub(crate) digest: D,
    pub(crate) left: Owner<E>,
    pub(crate) right: Owner<E>,
    pub(crate) to_left: A,
    pub(crate) to_right: B,
}
