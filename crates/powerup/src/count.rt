// Counts a block, a half-byte at a time.
//
// A half-byte and the bit before it make one of 32 pairs. The loop counts how often each pair occurs. The ones, the poker counts and the runs inside a
// half-byte follow from these 32 numbers at the end. So the loop measures only the run that comes into a half-byte. It has one branch, which
// random bits take once in sixteen.
ghost use Rattle.std.specs.Prelude.{◌≡◌, ◌≤◌, ◌<◌, ◌^◌};
ghost use Rattle.powerup.specs.Bits.{bits};
ghost use Rattle.powerup.specs.Counts.{counts_of};
ghost use Rattle.powerup.specs.Steps.{
  Few,
  raised,
  place,
  pair,
  stepped,
  closed,
  Tallied,
  Ready,
  dot,
  poker_of,
  tables_of,
  runs_in,
  counts_in,
  Small,
};

use crate::tables::{LASTS, ONES, ONES_INSIDE, STARTS, ZEROS_INSIDE};
use crate::{Counts, RunCounts};
use std::array;

// The run that the last bit read belongs to. `longest` is the length of the longest run before it. The bit is a number: it comes from `half % 2`,
// and `16 * bit + half` and `7 * bit` are computed from it, so an enum would need a conversion at each.
#[derive(Clone, Copy)]
struct LastRun {
    bit: u32,
    length: u32,
    longest: u32,
}

#[derive(Clone, Copy)]
struct Step {
    next: LastRun,
    // the length of the run that ended, if one did
    ended: Option<u32>,
}

// Two arrays: they count different things, and have no place in common.
#[derive(Clone, Copy)]
struct Tally {
    // how often each pair occurred
    pairs: [u32; 32],
    // how many runs ended, by `place`; runs inside one half-byte are left out
    ended: [u32; 14],
    longest: u32,
}

// The counts of a block.
#[tactic(auto, using(crate::proofs::Weighing::small, crate::proofs::Weighing::counts_right))]
pub(crate) fn count(block: &[u8; 2500]) -> Counts
    ensures { result ≡ counts_of (bits block.now) }
{
    counts_in(&read_all(block))
}

// The counts that follow from a tally.
#[tactic(auto, using(crate::proofs::Weighing::light_squares))]
fn counts_in(tally: &Tally) -> Counts
    requires { Small tally.now }
    ensures { result ≡ counts_in tally.now }
{
    let poker = poker_counts(&tally.pairs);
    Counts {
        ones: weighed(&tally.pairs, &ONES),
        poker,
        sum: weighed(&poker, &poker),
        runs: RunCounts {
            zeros: runs_of(tally, 0, &ZEROS_INSIDE),
            ones: runs_of(tally, 1, &ONES_INSIDE),
            longest: tally.longest,
        },
    }
}

// The runs of one bit, by length: those that ended in the loop and those inside a half-byte. The second kind is at most 3 long: `inside` says for
// each length and each pair how many there are.
#[tactic(auto, using(crate::proofs::Weighing::light_inside), unfolding(crate::specs::Steps::runs_in))]
fn runs_of(tally: &Tally, bit: usize, inside: &[[u32; 32]; 3]) -> [u32; 6]
    requires { Small tally.now × (bit < 2) × (inside.now ≡ tables_of bit) }
    ensures { result ≡ runs_in bit tally.now }
{
    let first = 7 * bit;
    [
        tally.ended[first + 1] + weighed(&tally.pairs, &inside[0]),
        tally.ended[first + 2] + weighed(&tally.pairs, &inside[1]),
        tally.ended[first + 3] + weighed(&tally.pairs, &inside[2]),
        tally.ended[first + 4],
        tally.ended[first + 5],
        tally.ended[first + 6],
    ]
}

// Reads every half-byte, then counts the last run.
fn read_all(block: &[u8; 2500]) -> Tally
    ensures { Tallied (bits block.now) result }
{
    let mut tally = Tally {
        pairs: [0; 32],
        ended: [0; 14],
        longest: 0,
    };
    let mut run = LastRun {
        bit: 0,
        length: 0,
        longest: 0,
    };
    for byte in block {
        let byte = u32::from(*byte);
        run = tally.with_half(run, byte / 16);
        run = tally.with_half(run, byte % 16);
    }
    tally.ended[place(run.bit, run.length)] += 1;
    tally.longest = run.longest.max(run.length);
    tally
}

impl Tally {
    // Reads four more bits, and counts them. The run is not a field, since the loop would then keep it in memory: the program would take 8 percent
    // more instructions.
    #[tactic(auto, unfolding(crate::specs::Steps::raised, crate::specs::Steps::closed))]
    fn with_half(&mut self, run: LastRun, half: u32) -> LastRun
        requires { Ready run half self.old.pairs self.old.ended }
        ensures value { result ≡ (stepped run half).next }
        ensures pairs_after { self.new.pairs ≡ raised self.old.pairs (pair run.bit half) }
        ensures ended_after { self.new.ended ≡ closed self.old.ended run.bit (stepped run half).ended }
    {
        let index = (16 * run.bit + half) as usize;
        self.pairs[index] += 1;
        let step = after(run, half, index);
        if let Some(length) = step.ended {
            self.ended[place(run.bit, length)] += 1;
        }
        step.next
    }
}

// The last run after four more bits, and the run that they ended. `index` is the pair's.
#[tactic(auto, unfolding(crate::specs::Steps::stepped))]
fn after(run: LastRun, half: u32, index: usize) -> Step
    requires { (half < 16) × (run.length ≤ 100000) × (index < 32) × (index ≡ pair run.bit half) }
    ensures { result ≡ stepped run half }
{
    let lead = u32::from(STARTS[index].lead);
    if lead == 4 {
        return Step {
            next: LastRun {
                bit: half % 2,
                length: run.length + 4,
                longest: run.longest,
            },
            ended: None,
        };
    }
    let ended = run.length + lead;
    let at = half as usize;
    Step {
        next: LastRun {
            bit: half % 2,
            length: u32::from(LASTS[at]),
            // With the longest run last `max` keeps it where both are equal, and the program takes 9 percent fewer instructions.
            longest: u32::from(STARTS[index].inside).max(ended.max(run.longest)),
        },
        ended: Some(ended),
    }
}

// The place of a run in `Tally::ended`. Runs of length 6 or more share a place.
fn place(bit: u32, length: u32) -> usize
    requires { bit < 2 }
    ensures { result ≡ place bit length }
{
    (7 * bit + length.min(6)) as usize
}

// The sum of the numbers, each times its weight.
#[tactic(auto, unfolding(crate::specs::Steps::dot))]
fn weighed(numbers: &[u32], weights: &[u32]) -> u32
    requires { dot numbers.now weights.now < 2 ^ 32 }
    ensures { result ≡ dot numbers.now weights.now }
{
    numbers
        .iter()
        .zip(weights)
        .map(|(n, weight)| n * weight)
        .sum()
}

// How often each half-byte occurs: after a zero and after a one together.
fn poker_counts(pairs: &[u32; 32]) -> [u32; 16]
    requires { Few pairs.now 5000 }
    ensures { result ≡ poker_of pairs.now }
{
    array::from_fn(|v| pairs[v] + pairs[16 + v])
}
