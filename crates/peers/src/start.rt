// What a replica starts from: its elements, and the last round number that was used.
#[derive(Drop)]
pub struct Start<E> {
    pub elements: Vec<E>,
    pub last: u32,
}
