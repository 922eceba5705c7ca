// What a step says.
#[derive(Clone, Copy, PartialEq, Eq, Debug)]
pub enum Answer {
    // no frame came
    Nothing,
    // a question came and was answered
    Answered,
    // an answer was taken, and the round goes on at this range
    Moved(u16),
    // an answer was taken, and the round is complete, with so many answers
    Complete(u16),
}
