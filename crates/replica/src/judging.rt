// What a call asks of the record that it is handed, before it does anything.
ghost use Rattle.std.specs.Prelude.{◌≡◌, ◌<◌, ◌≤◌, true, false, MatchResult};
ghost use Rattle.element.specs.declared.refusal.Refusal.TheVariants.{Size, Key, Idle, Stale};
ghost use Rattle.replica.specs.Replicas.{fitting, replica_of};
ghost use Rattle.replica.specs.Rounds.{progress_of};
ghost use Rattle.replica.specs.Steps.{awaits};

use crate::round::Round;
use element::{Element, Refusal};

impl Round {
    // Declines tables of other sizes than the record's.
    pub(crate) fn check_tables<E: Element>(
        &self,
        elements: &[E],
        digests: &[u64],
    ) -> Result<(), Refusal>
        ensures { MatchResult result (λ _. fitting (replica_of self.now elements.now digests.now) ≡ true) (λ e. (fitting (replica_of self.now elements.now digests.now) ≡ false) × (e ≡ Size)) }
    {
        let size = usize::from(self.size);
        if elements.len() == size && digests.len() == 2 * size {
            Ok(())
        } else {
            Err(Refusal::Size)
        }
    }

    // Declines a key that is not there.
    pub(crate) fn check_key(&self, key: usize) -> Result<(), Refusal>
        ensures { MatchResult result (λ _. key < self.now.size) (λ e. (self.now.size ≤ key) × (e ≡ Key)) }
    {
        if key < usize::from(self.size) {
            Ok(())
        } else {
            Err(Refusal::Key)
        }
    }

    // Declines where no round runs.
    pub(crate) fn check_running(&self) -> Result<(), Refusal>
        ensures { MatchResult result (λ _. self.now.running ≡ true) (λ e. (self.now.running ≡ false) × (e ≡ Idle)) }
    {
        if self.running {
            Ok(())
        } else {
            Err(Refusal::Idle)
        }
    }

    // Declines an answer of another round or range than the running ones.
    pub(crate) fn check_awaited(&self, number: u32, range: u16) -> Result<(), Refusal>
        ensures { MatchResult result (λ _. awaits (progress_of self.now) number range ≡ true) (λ e. (awaits (progress_of self.now) number range ≡ false) × (e ≡ Stale)) }
    {
        if self.running && self.last == number && self.range == range {
            Ok(())
        } else {
            Err(Refusal::Stale)
        }
    }
}
