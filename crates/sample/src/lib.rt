// One run of a pair of replicas. It shows that the promise is about runs that exist.
#![tactic(auto)]

ghost use Rattle.std.specs.Prelude.{◌≡◌};
ghost use Rattle.sample.specs.Sample.{Sample, reported};

// There is such a run. Answers the count of its report.
pub fn sample_run() -> u8
    ensures run { Sample }
    ensures count { result ≡ reported }
{
    5
}
