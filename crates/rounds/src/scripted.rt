// Rounds over couriers, step by step.
use crate::cases::Case;
use crate::names::Named;
use crate::sites::Site;
use crate::trial::Trial;
use anyhow::Context;
use channel::Courier;
use digest::Digest;
use element::Refusal;
use peers::End;
use replica::Answer;
use std::fmt;

// For how many turns the ends step, and by which picks the couriers toward them go. Before turn `again`, if there is
// one, the left end gives its round up and opens another.
#[derive(Clone, Copy)]
pub(crate) struct Script {
    pub(crate) case: Case,
    pub(crate) again: Option<u32>,
    pub(crate) turns: u32,
    pub(crate) to_left: &'static [u8],
    pub(crate) to_right: &'static [u8],
}

type Scripted<S, D> = Trial<S, D, Courier>;

// What a step said. `demo_round` has words of its own for it: what each prints is fixed.
#[derive(Drop)]
struct Said(Result<Answer, Refusal>);

impl fmt::Display for Said {
    fn fmt<W: fmt::Write>(&self, f: &mut fmt::Formatter<W>) -> fmt::Result {
        match self.0 {
            Ok(Answer::Nothing) => write!(f, "nothing"),
            Ok(Answer::Answered) => write!(f, "answered"),
            Ok(Answer::Moved(range)) => write!(f, "moved to {range}"),
            Ok(Answer::Complete(count)) => write!(f, "complete {count}"),
            Err(refusal) => write!(f, "refused {}", refusal.number()),
        }
    }
}

// One step at one end, printed. An end that hears nothing asks again, if its round runs.
fn print_step<S: Site, D: Digest + Drop>(
    rt: &HostRuntime,
    trial: &mut Scripted<S, D>,
    end: End,
) -> anyhow::Result<()> {
    let said = trial.pair.step(end);
    print!(rt; "{}", Said(said))?;
    if let Ok(Answer::Nothing) = said {
        match trial.pair.resend(end) {
            Ok(()) => print!(rt; ", asks again")?,
            Err(Refusal::Idle) => {}
            Err(refusal) => return Err(refusal.into()),
        }
    }
    Ok(())
}

// One turn: a step at the right end and one at the left.
fn print_turn<S: Site, D: Digest + Drop>(
    rt: &HostRuntime,
    trial: &mut Scripted<S, D>,
    turn: u32,
) -> anyhow::Result<()> {
    print!(rt; "  {turn}: right ")?;
    print_step(rt, trial, End::Right)?;
    print!(rt; "; left ")?;
    print_step(rt, trial, End::Left)?;
    println!(rt; "")?;
    Ok(())
}

// Runs a case by its script and prints every step.
pub(crate) fn run_script<S: Site, D: Digest + Named + Drop>(
    rt: &HostRuntime,
    digest: D,
    script: &Script,
) -> anyhow::Result<()> {
    let heap = rt.alloc();
    let to_left = Courier::new(script.to_left);
    let to_right = Courier::new(script.to_right);
    let mut trial: Scripted<S, D> = Trial::new(heap, digest, script.case, to_left, to_right)?;
    println!(rt; "{trial}: {} differ", trial.differing()?)?;
    trial.open().context("a round was not opened")?;
    for turn in 1..=script.turns {
        if script.again == Some(turn) {
            trial.renew().context("no other round was opened")?;
            println!(rt; "  left abandons its round and opens another")?;
        }
        print_turn(rt, &mut trial, turn)?;
    }
    println!(rt; "  {} differ", trial.differing()?)?;
    trial.print_heights(rt)
}
