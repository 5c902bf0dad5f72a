// The four verdicts, for any limits.
ghost use Rattle.std.specs.Prelude.{◌≡◌};
ghost use Rattle.powerup.specs.Reply.{judged};
ghost use Rattle.powerup.specs.Verdicts.{between, within, all_within, verdicts_of};

use crate::{Counts, Interval, Limits, Report, Verdicts};

#[tactic(auto, unfolding(crate::specs::Reply::judged))]
pub(crate) fn judge(limits: Limits, counts: Counts) -> Report
    ensures { result ≡ judged limits counts }
{
    Report {
        counts,
        verdicts: verdicts(limits, counts),
    }
}

#[tactic(auto, unfolding(crate::specs::Verdicts::verdicts_of))]
fn verdicts(limits: Limits, counts: Counts) -> Verdicts
    ensures { result ≡ verdicts_of limits counts }
{
    Verdicts {
        monobit: between(limits.ones, counts.ones),
        poker: within(limits.poker, counts.sum),
        runs: all_within(&limits.runs, &counts.runs.zeros)
            && all_within(&limits.runs, &counts.runs.ones),
        long: counts.runs.longest < limits.long,
    }
}

#[tactic(auto, unfolding(crate::specs::Verdicts::between))]
fn between(interval: Interval, n: u32) -> bool
    ensures { result ≡ between interval n }
{
    interval.low < n && n < interval.high
}

#[tactic(auto, unfolding(crate::specs::Verdicts::within))]
fn within(interval: Interval, n: u32) -> bool
    ensures { result ≡ within interval n }
{
    interval.low <= n && n <= interval.high
}

fn all_within(intervals: &[Interval; 6], counts: &[u32; 6]) -> bool
    ensures { result ≡ all_within intervals.now counts.now }
{
    intervals
        .iter()
        .zip(counts)
        .all(|(interval, n)| within(*interval, *n))
}
