// Rounds over channels that keep order.
use crate::cases::{Case, Opens, Sides};
use crate::names::Named;
use crate::sites::Site;
use crate::trial::Trial;
use anyhow::Context;
use channel::InOrder;
use digest::Digest;
use peers::End;
use replica::Answer;
use std::fmt;

type Orderly<S, D> = Trial<S, D, InOrder>;

// How many steps there were, and the count with which each end's round was complete.
#[derive(Clone, Copy, Default)]
struct Tally {
    steps: u32,
    counts: Sides<Option<u16>>,
}

impl Tally {
    fn is_done(&self, opens: Opens) -> bool {
        opens
            .ends()
            .iter()
            .all(|end| self.counts.at(*end).is_some())
    }
}

impl fmt::Display for Tally {
    fn fmt<W: fmt::Write>(&self, f: &mut fmt::Formatter<W>) -> fmt::Result {
        match (self.counts.left, self.counts.right) {
            (Some(left), Some(right)) => write!(f, "left complete {left}, right complete {right}"),
            (Some(left), None) => write!(f, "left complete {left}"),
            (None, Some(right)) => write!(f, "right complete {right}"),
            (None, None) => Ok(()),
        }?;
        write!(f, " after {} steps", self.steps)
    }
}

// Opens the rounds; then the ends take turns until each is complete. A round asks at most 8,191 times.
fn complete<S: Site, D: Digest + Drop>(trial: &mut Orderly<S, D>) -> anyhow::Result<Tally> {
    trial.open().context("a round was not opened")?;
    let mut tally = Tally::default();
    for (step, end) in (1..=2 * 8192).zip([End::Right, End::Left].iter().cycle()) {
        if tally.is_done(trial.case.opens) {
            break;
        }
        tally.steps = step;
        let answer = trial.pair.step(*end).context("a step was refused")?;
        if let Answer::Complete(count) = answer {
            tally.counts.set(*end, Some(count));
        }
    }
    Ok(tally)
}

// Runs one case twice over, and prints it. The second time shows whether the digests went with the elements.
fn run_case<S: Site, D: Digest + Named + Drop>(
    rt: &HostRuntime,
    digest: D,
    case: Case,
) -> anyhow::Result<()> {
    let heap = rt.alloc();
    let mut trial: Orderly<S, D> = Trial::new(heap, digest, case, InOrder::new(), InOrder::new())?;
    let before = trial.differing()?;
    let first = complete(&mut trial)?;
    let between = trial.differing()?;
    let second = complete(&mut trial)?;
    println!(rt; "{trial}: {before} differ; {first}; {between} differ; then {second}")?;
    if case.depth <= 3 {
        trial.print_heights(rt)?;
    }
    Ok(())
}

pub(crate) fn run_cases<S: Site, D: Digest + Named + Copy>(
    rt: &HostRuntime,
    digest: D,
    cases: &[Case],
) -> anyhow::Result<()> {
    for case in cases {
        run_case::<S, D>(rt, digest, *case)?;
    }
    Ok(())
}
