// The line of a block: fields with a tab between them.

use powerup::{Counts, Refusal, Report, Verdicts};
use std::fmt;
use std::fmt::Display;

#[derive(Clone, Copy)]
pub(crate) struct Line {
    // the block's number
    pub(crate) number: u64,
    pub(crate) reply: Result<Report, Refusal>,
    // whether the line has every count
    pub(crate) counts: bool,
}

impl Display for Line {
    fn fmt<W: fmt::Write>(&self, f: &mut fmt::Formatter<W>) -> fmt::Result {
        write!(f, "{}\t{}", self.number, powerup::number(&self.reply))?;
        match self.reply {
            Ok(report) => {
                verdicts(f, report.verdicts)?;
                results(f, &report.counts)?;
                if self.counts {
                    every_count(f, &report.counts)?;
                }
            }
            Err(_) => {
                // 7 dashes for the results, and 4 times as many for every count
                f.write_repeated("\t-\t-\t-\t-\t-\t-\t-", if self.counts { 5 } else { 1 })?;
            }
        }
        f.write_str("\n")
    }
}

fn verdicts<W: fmt::Write>(f: &mut fmt::Formatter<W>, verdicts: Verdicts) -> fmt::Result {
    let Verdicts {
        monobit,
        poker,
        runs,
        long,
    } = verdicts;
    for passes in [monobit, poker, runs, long] {
        f.write_str(if passes { "\tpass" } else { "\tfail" })?;
    }
    Ok(())
}

// The numbers that the verdicts judge, but for the counts of runs.
fn results<W: fmt::Write>(f: &mut fmt::Formatter<W>, counts: &Counts) -> fmt::Result {
    numbers(f, &[counts.ones, counts.sum, counts.runs.longest])
}

// The poker counts, the runs of zeros and the runs of ones.
fn every_count<W: fmt::Write>(f: &mut fmt::Formatter<W>, counts: &Counts) -> fmt::Result {
    numbers(f, &counts.poker)?;
    numbers(f, &counts.runs.zeros)?;
    numbers(f, &counts.runs.ones)
}

fn numbers<W: fmt::Write>(f: &mut fmt::Formatter<W>, numbers: &[u32]) -> fmt::Result {
    for n in numbers {
        write!(f, "\t{n}")?;
    }
    Ok(())
}
