// The four old power-up tests on 20,000 bits: monobit, poker, runs and long run. The two editions differ only in their limits.
//
// Document 02 §9 asks for them. specs/ quotes it and defines each count and each verdict.
#![tactic(auto)]

mod count;
mod editions;
mod judge;
mod tables;

ghost use Rattle.std.specs.Prelude.{◌≡◌};
ghost use Rattle.powerup.specs.Reply.{number_of, reply_of, shown};

use editions::Edition;

// The number of runs of length 1, 2, 3, 4, 5, and 6 or more, and the length of the longest run.
#[derive(Clone, Copy, Debug, Default, PartialEq, Eq)]
pub struct RunCounts {
    pub zeros: [u32; 6],
    pub ones: [u32; 6],
    pub longest: u32,
}

#[derive(Clone, Copy, Debug, Default, PartialEq, Eq)]
pub struct Counts {
    pub ones: u32,
    // how often each half-byte occurs
    pub poker: [u32; 16],
    // the sum of the squares of the poker counts
    pub sum: u32,
    pub runs: RunCounts,
}

#[derive(Clone, Copy, Debug, PartialEq, Eq)]
pub struct Interval {
    pub low: u32,
    pub high: u32,
}

// The limits of an edition. Ones must lie strictly inside their interval. The other intervals include their ends. A run of `long` or more bits fails.
#[derive(Clone, Copy, Debug, PartialEq, Eq)]
pub struct Limits {
    pub ones: Interval,
    pub poker: Interval,
    pub runs: [Interval; 6],
    pub long: u32,
}

// `true` is a pass.
#[derive(Clone, Copy, Debug, Default, PartialEq, Eq)]
pub struct Verdicts {
    pub monobit: bool,
    pub poker: bool,
    pub runs: bool,
    pub long: bool,
}

#[derive(Clone, Copy, Debug, Default, PartialEq, Eq)]
pub struct Report {
    pub counts: Counts,
    pub verdicts: Verdicts,
}

impl Report {
    // What a reply shows. For a refusal all counts are 0 and no test passes.
    pub fn of(reply: Result<Report, Refusal>) -> Report
        ensures { result ≡ shown reply }
    {
        reply.unwrap_or_default()
    }
}

// Why a block is not judged, with the document's number of each refusal.
#[derive(Clone, Copy, Debug, PartialEq, Eq)]
pub enum Refusal {
    WrongLength = 16,
    WrongEdition = 17,
}

// The document's number of a reply: 0 for a block that is judged.
pub fn number(reply: &Result<Report, Refusal>) -> u32
    ensures { result ≡ number_of reply.now }
{
    match *reply {
        Ok(_) => 0,
        Err(refusal) => refusal as u32,
    }
}

// Counts a block of 2,500 bytes and judges it by edition 1 or 2. The edition is a number, since document 02 §9 has a refusal for every other number.
#[tactic(auto, using(crate::proofs::Laws::length_first, crate::proofs::Laws::edition_judges), unfolding(crate::specs::Reply::reply_of))]
pub fn power_up(bytes: &[u8], edition: u32) -> Result<Report, Refusal>
    ensures { result ≡ reply_of bytes.now edition }
{
    let block = bytes.as_array().ok_or(Refusal::WrongLength)?;
    let edition = Edition::try_from(edition)?;
    Ok(judge::judge(edition.limits(), count::count(block)))
}
