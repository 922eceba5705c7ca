// Methods that open, move and end a round.
ghost use Rattle.std.specs.Prelude.{◌≡◌, ◌+◌, ◌*◌, ◌<◌, true, false, MatchOption};
ghost use Rattle.tree.specs.Sizes.{sized};
ghost use Rattle.tree.specs.Walk.{follow};
ghost use Rattle.replica.specs.declared.answer.Answer.TheVariants.{Moved};
ghost use Rattle.replica.specs.Rounds.{idle, running, state_of, progress_of, in_state, begun, moved_to, going};

use crate::answer::Answer;
use crate::round::Round;
use tree::{is_size, next_range};

impl Round {
    // An idle record for tables of `size` elements, or none where tables cannot have that size.
    pub(crate) fn new(size: usize, last: u32) -> Option<Round>
        ensures { MatchOption result (sized size ≡ false) (λ k. (sized size ≡ true) × (k.size ≡ size) × (k.last ≡ last) × (state_of k ≡ idle)) }
    {
        if !is_size(size) {
            return None;
        }
        Some(Round {
            size: size as u16,
            last,
            running: false,
            range: 0,
            count: 0,
        })
    }

    // Takes the next round number and starts at range 1.
    #[tactic(auto, using(crate::proofs::Walks::walk_starts))]
    pub(crate) fn begin(&mut self)
        requires { self.old.last < 4294967295 }
        ensures { progress_of self.new ≡ begun (progress_of self.old) }
    {
        self.last += 1;
        self.running = true;
        self.range = 1;
        self.count = 0;
    }

    // Ends the round. Its number stays used.
    pub(crate) fn end(&mut self)
        ensures { progress_of self.new ≡ in_state (progress_of self.old) idle }
    {
        self.running = false;
    }

    // An answer settled the range: goes on to the range that follows, or ends the round.
    #[tactic(auto, using(crate::proofs::Walks::count_high, crate::proofs::Walks::walk_settles, tree::proofs::Sizing::sized_high))]
    pub(crate) fn settle(&mut self) -> Answer
        requires { self.old.running ≡ true }
        ensures answer { result ≡ going self.old.count (follow self.old.range) }
        ensures progress { progress_of self.new ≡ in_state (progress_of self.old) (moved_to self.old.count (follow self.old.range)) }
    {
        let count = self.count + 1;
        let Some(range) = next_range(self.range) else {
            self.running = false;
            return Answer::Complete(count);
        };
        self.range = range;
        self.count = count;
        Answer::Moved(range)
    }

    // An answer said that the range differs: goes on to its lower half.
    #[tactic(auto, using(crate::proofs::Walks::count_high, crate::proofs::Walks::walk_splits, tree::proofs::Sizing::sized_high))]
    pub(crate) fn split(&mut self) -> Answer
        requires { (self.old.running ≡ true) × (self.old.range < self.old.size) }
        ensures answer { result ≡ Moved (2 * self.old.range) }
        ensures progress { progress_of self.new ≡ in_state (progress_of self.old) (running (2 * self.old.range) (self.old.count + 1)) }
    {
        let count = self.count + 1;
        let range = 2 * self.range;
        self.range = range;
        self.count = count;
        Answer::Moved(range)
    }
}
