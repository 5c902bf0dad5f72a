// A leg goes down the table from a row by one rule until it ends: at an empty link, at a row or at damage. A call is a few legs, with arithmetic
// between them. This file has the types that say where a leg is, the one function that judges a row, and two legs: `down` looks only at the links,
// and `pushed` follows a key's own bits. seek.rt has the leg that follows a word's bits.

ghost use Rattle.std.specs.Prelude.{◌≡◌, ◌+◌, ◌-◌, ◌≤◌, ◌<◌, ◌^◌, Some, None};
ghost use Rattle.ordered.specs.Word.{side, other};
ghost use Rattle.ordered.specs.Way.{down, pushing};
ghost use Rattle.pretree.specs.declared.Answer.TheVariants.{Damage};
ghost use Rattle.pretree.specs.Table.{row_at, to_side, link};
ghost use Rattle.pretree.specs.Walk.{stage_at};
ghost use Rattle.pretree.specs.Seek.{bits_left_by};
ghost use Rattle.pretree.specs.declared.leg.Leg as Legs;
ghost use Rattle.pretree.specs.Push.{hook_of};
ghost use Rattle.pretree.specs.Leg.{root_place, judges, below_place, row_end, link_end, passes_down, first_side, passes_push, own_side, leg_past, past_linked, past_pushed, stage_here, BegunLeg, Led, LegStopped};

use crate::table::{Rows, row_at};
use crate::{Answer, Header, Row};

// What a leg finds where the table breaks a rule. A leg ends at a row, at an empty link (`Ok(None)`) or at damage.
#[derive(Clone, Copy, Debug, PartialEq, Eq)]
pub struct Damaged;

impl From<Damaged> for Answer {
    ghost from_gives = { λ _ answer. answer ≡ Damage };

    fn from(_damaged: Damaged) -> Answer {
        Answer::Damage
    }
}

// A side of a row. "0 goes left, 1 goes right".
#[derive(Clone, Copy, Debug, PartialEq, Eq)]
pub enum Side {
    Left,
    Right,
}

impl Side {
    // The side to which a word goes at a row with `bits` bits left below it.
    #[tactic(auto, using(crate::proofs::Tests::goes_right), unfolding(ordered::specs::Word::side))]
    pub(crate) fn of(word: u32, bits: u32) -> Side
        requires narrow { bits < 32 }
        ensures { to_side result ≡ side bits word }
    {
        if (word >> bits) % 2 == 0 {
            Side::Left
        } else {
            Side::Right
        }
    }

    pub(crate) fn other(self) -> Side
        ensures { to_side result ≡ other (to_side self) }
    {
        match self {
            Side::Left => Side::Right,
            Side::Right => Side::Left,
        }
    }
}

impl Row {
    // The link on that side.
    pub(crate) fn link(self, side: Side) -> u32
        ensures { result ≡ link self (to_side side) }
    {
        match side {
            Side::Left => self.left,
            Side::Right => self.right,
        }
    }
}

// Where a row is: its number, a mask with a one for each bit left there, the least word with the bits of the path to it, and the least key that is
// allowed there.
// That the path has room (`below`) is no ghost field: each definition of specs/ that makes a place would have to carry its proof, and what proves it of
// `place_of` is the walk of the seek.
#[derive(Clone, Copy)]
pub struct Place {
    pub row: usize,
    pub mask: u32,
    pub path: u32,
    pub low: u64,
}

// Where a leg is, and the last row that it passed.
#[derive(Clone, Copy)]
pub struct Leg {
    pub at: Place,
    pub above: usize,
}

// Where a row is linked: the row above it, and the side of that row.
#[derive(Clone, Copy)]
pub struct Hook {
    pub above: usize,
    pub side: Side,
}

// The number of bits left: the ones of the mask.
pub(crate) fn bits_of(mask: u32) -> u32
    ensures { result ≡ bits_left_by mask }
{
    32 - u32::leading_zeros(mask)
}

// Where the row at a leg's place is linked: below the last row that the leg passed, on the side that the last bit of the path says. The root, where
// `width` bits are left, is linked nowhere.
pub(crate) fn hook_of(leg: Leg, width: u32) -> Option<Hook>
    requires narrow { width ≤ 32 }
    ensures { result ≡ hook_of leg width }
{
    let bits = bits_of(leg.at.mask);
    if width <= bits {
        return None;
    }
    Some(Hook {
        above: leg.above,
        side: Side::of(leg.at.path, bits),
    })
}

impl Place {
    // Every damage rule for a row except the rule for its number, which the caller checks. This is the one test of a row for the legs of this file,
    // `audit` and `list`.
    pub(crate) fn judges(self, row: Row) -> bool
        ensures { result ≡ judges self row }
    {
        let key = row.entry.key;
        self.low <= key as u64
            && key ^ self.path <= self.mask
            && (self.mask != 0 || !row.has_link())
    }

    // The place to which the link on one side of the row leads.
    pub(crate) fn below(self, row: Row, side: Side) -> Place
        requires inner { 0 < self.mask }
        requires room { self.path + self.mask < 2 ^ 32 }
        ensures { result ≡ below_place self row (to_side side) }
    {
        let half = self.mask / 2;
        Place {
            row: row.link(side) as usize,
            mask: half,
            path: match side {
                Side::Left => self.path,
                Side::Right => self.path + half + 1,
            },
            low: row.entry.key as u64 + 1,
        }
    }
}

impl Leg {
    // Past a row, by its link on a side.
    fn past(self, row: Row, side: Side) -> Leg
        requires inner { 0 < self.at.mask }
        requires room { self.at.path + self.at.mask < 2 ^ 32 }
        ensures { result ≡ leg_past self row (to_side side) }
    {
        Leg {
            at: self.at.below(row, side),
            above: self.at.row,
        }
    }
}

// The leg that went on from `start` by the steps of `past`, until there is none.
// It is inlined: as a call of its own it costs `last` 425 instructions on 512 words in place of 372.
#[tactic(auto, using(crate::specs::Leg::began, crate::specs::Leg::further))]
#[inline(always)]
fn followed<P: Fn(Leg) -> Option<Leg>>(start: Leg, past: P) -> Leg
    requires may { (l : Legs.Leg) → Led (P.post past) start l → P.pre past l }
    requires halves { (l m : Legs.Leg) → Led (P.post past) start l → P.post past l (Some m) → m.at.mask < l.at.mask }
    ensures { Led (P.post past) start result × P.post past result None }
{
    let mut leg = start;
    while let Some(next) = past(leg) {
        leg = next;
    }
    leg
}

// The side on which the row has a link: `side` if there is one, else the other.
pub(crate) fn first_side(row: Row, side: Side) -> Side
    ensures { to_side result ≡ first_side (to_side side) row }
{
    if row.link(side) == Header::NONE {
        side.other()
    } else {
        side
    }
}

// The side to which a key's own bits push it.
pub(crate) fn own_side(mask: u32, key: u32) -> Side
    ensures { to_side result ≡ own_side mask key }
{
    if mask / 2 < key & mask {
        Side::Right
    } else {
        Side::Left
    }
}

impl<'t> Rows<'t> {
    // The place of the root, where each bit of a word is left.
    #[tactic(auto, using(crate::proofs::Checks::right_header))]
    pub(crate) fn root(&self) -> Place
        ensures { result ≡ root_place self.now.header.width }
    {
        Place {
            row: 0,
            mask: ((1u64 << self.header.width) - 1) as u32,
            path: 0,
            low: 0,
        }
    }

    // What a leg finds at its row: the row or damage.
    #[tactic(auto, using(crate::proofs::Checks::right_header))]
    pub(crate) fn row_end(&self, at: Place) -> Result<Row, Damaged>
        ensures { result ≡ row_end (row_at self.now.table.now) self.now.header.count at }
    {
        if self.header.count as usize <= at.row {
            return Err(Damaged);
        }
        let row = row_at(self.table, at.row);
        if at.judges(row) {
            Ok(row)
        } else {
            Err(Damaged)
        }
    }

    // What a leg finds at a link. "A link of 0 means none."
    pub(crate) fn link_end(&self, at: Place) -> Result<Option<Row>, Damaged>
        ensures { result ≡ link_end (row_at self.now.table.now) self.now.header.count at }
    {
        if at.row == 0 {
            return Ok(None);
        }
        let row = self.row_end(at)?;
        Ok(Some(row))
    }

    // The leg past its row, down by the links: a row is passed if it is undamaged and has a link.
    #[tactic(auto, using(crate::proofs::Legs::down_passing))]
    fn past_linked(&self, leg: Leg, side: Side) -> Option<Leg>
        requires room { leg.at.path + leg.at.mask < 2 ^ 32 }
        ensures { result ≡ past_linked (row_at self.now.table.now) self.now.header.count (to_side side) leg }
    {
        let row = self.row_end(leg.at).ok().filter(|row| row.has_link())?;
        Some(leg.past(row, first_side(row, side)))
    }

    // "down [..] by right link, else left link, until both are none", or the left link first.
    pub(crate) fn down(&self, start: Leg, side: Side) -> Leg
        requires begun { BegunLeg self.now.header.count stage_here start }
        ensures { LegStopped (row_at self.now.table.now) (down (to_side side)) self.now.header.count stage_here (passes_down (row_at self.now.table.now) self.now.header.count) start result }
    {
        followed(start, |leg| self.past_linked(leg, side))
    }

    // The leg past its row, by a push: a row is passed if it is undamaged, a link led to it and bits are left there.
    #[tactic(auto, using(crate::proofs::Legs::push_passing))]
    fn past_pushed(&self, leg: Leg) -> Option<Leg>
        requires room { leg.at.path + leg.at.mask < 2 ^ 32 }
        ensures { result ≡ past_pushed (row_at self.now.table.now) self.now.header.count leg }
    {
        if leg.at.row == 0 || leg.at.mask == 0 {
            return None;
        }
        let row = self.row_end(leg.at).ok()?;
        Some(leg.past(row, own_side(leg.at.mask, row.entry.key)))
    }

    // "its old key is pushed down by its own bits, taking each next row's place in turn, until a link is none"
    pub(crate) fn pushed(&self, start: Leg) -> Leg
        requires begun { BegunLeg self.now.header.count stage_at start }
        ensures { LegStopped (row_at self.now.table.now) pushing self.now.header.count stage_at (passes_push (row_at self.now.table.now) self.now.header.count) start result }
    {
        followed(start, |leg| self.past_pushed(leg))
    }
}
