// One round, told call by call.
use crate::ends::{LAPTOP, OFFICE, Pair};
use anyhow::{Context, anyhow};
use element::Refusal;
use peers::End;
use replica::Answer;
use std::{fmt, io};

// No courier promises that a frame arrives, so a round has to be given up at some time.
const TURNS: u32 = 100;

// What a step said. `rounds` has words of its own for it: what each prints is fixed.
#[derive(Drop)]
struct Said(Result<Answer, Refusal>);

impl fmt::Display for Said {
    fn fmt<W: fmt::Write>(&self, f: &mut fmt::Formatter<W>) -> fmt::Result {
        match self.0 {
            Ok(Answer::Nothing) => write!(f, "nothing came"),
            Ok(Answer::Answered) => write!(f, "answered"),
            Ok(Answer::Moved(range)) => write!(f, "moved to range {range}"),
            Ok(Answer::Complete(answers)) => write!(f, "complete, {answers} answers"),
            Err(refusal @ Refusal::Stale) => {
                write!(f, "a stale answer is declined ({})", refusal.number())
            }
            Err(refusal) => write!(f, "declined ({})", refusal.number()),
        }
    }
}

// Steps at an end, and prints what it said.
fn step(rt: &HostRuntime, pair: &mut Pair, end: End) -> io::Result<Result<Answer, Refusal>> {
    let name = match end {
        End::Left => "office",
        End::Right => "laptop",
    };
    let said = pair.step(end);
    println!(rt; "  {name}: {}", Said(said))?;
    Ok(said)
}

// Has the laptop open a round, and ask again where nothing comes, until the report. Answers the count that it reports.
pub(crate) fn bring_together(rt: &HostRuntime, pair: &mut Pair) -> anyhow::Result<u16> {
    pair.open(LAPTOP).context("the round was not opened")?;
    println!(rt; "  laptop opens a round")?;
    for _ in 0..TURNS {
        let _ = step(rt, pair, OFFICE)?;
        match step(rt, pair, LAPTOP)? {
            Ok(Answer::Complete(answers)) => return Ok(answers),
            Ok(Answer::Nothing) => {
                pair.resend(LAPTOP).context("no round is running")?;
                println!(rt; "  laptop asks again")?;
            }
            _ => {}
        }
    }
    Err(anyhow!("no report came"))
}
