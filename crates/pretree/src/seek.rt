// The leg that follows a word's bits: the way of the word. Let d = word − 1 − key, the number of words between the key and the word. A row is
// passed if d is less than at the row above (the key is greater than "that of the row it was reached from") and less than the word's remaining bits
// as a number (the key has "the bits of the path"). If the key is the word or more, d wraps round to `word` or more. Then both tests fail, and the
// seek stops.
// A call that does not need all that a seek remembers pays nothing for it, as long as the compiler inlines the loop into the call. tests/speed shows
// the cost if it does not.

ghost use Rattle.std.specs.Prelude.{◌≡◌, false, suc, ◌+◌, ◌*◌, ◌≤◌, ◌<◌, Ok, MatchResult};
ghost use Rattle.pretree.specs.Table.{row_words, capacity, row_at, to_side};
ghost use Rattle.pretree.specs.Unfold.{shown};
ghost use Rattle.pretree.specs.Reply.{too_wide};
ghost use Rattle.pretree.specs.Seek.{row_of, rows_before, begun, turn, stepped, passed, goes_on, gone, end_of, end_at, place_of, leg_of, Sought, WayEnds, Refused};

use crate::leg::{Damaged, Leg, Place, Side};
use crate::table::{Rows, row_at};
use crate::{Answer, Header, Row};

// The facts that its methods require are no ghost fields: `stepped` could then not write `..self`, and `begun`, `stepped` and `passed` (specs/Seek)
// would each have to carry the proofs.
#[derive(Clone, Copy)]
pub struct Seek {
    // the word whose way it follows
    pub word: u32,
    // the table word at which the next row begins. The row's number is not held: that would cost instructions at each row.
    pub at: usize,
    // a mask with a one for each bit left there
    pub mask: u32,
    // the word's remaining bits, as a number
    pub tail: u32,
    // the number of words between the key above and the word; at the root, the word itself
    pub between: u32,
    // the table word at which the last row that it passed begins
    pub above: usize,
    // the deepest right link that it skipped on a turn to the left, as the table has it: "A link of 0 means none". And a mask with a one for each
    // bit left there
    pub aside: usize,
    pub span: u32,
}

// The number of words between the key and the word. If the key is the word or more, the number wraps round to `word` or more.
fn words_between(word: u32, key: u32) -> u32
    ensures less { key < word → result + suc key ≡ word }
    ensures notless { word ≤ key → word ≤ result }
{
    word.wrapping_sub(key).wrapping_sub(1)
}

impl Seek {
    // The side to which the word's next bit sends the seek.
    pub(crate) fn turn(self) -> Side
        ensures { to_side result ≡ turn self }
    {
        if self.mask / 2 < self.tail {
            Side::Right
        } else {
            Side::Left
        }
    }

    // One row further down, by the link on that side. On a turn to the left the right link is remembered, for `next`.
    pub(crate) fn stepped(self, link: u32, right: u32) -> Seek
        ensures { result ≡ stepped self link right }
    {
        let half = self.mask / 2;
        let skipped = if half < self.tail { 0 } else { right };
        let mut s = Seek {
            at: Header::ROW * (link as usize),
            mask: half,
            tail: self.tail & half,
            above: self.at,
            ..self
        };
        if skipped != 0 {
            s.aside = skipped as usize;
            s.span = half;
        }
        s
    }

    // Past a row with a key less than the word.
    fn passed(self, key: u32, link: u32, right: u32) -> Seek
        requires less { key < self.word }
        ensures { result ≡ passed self self.word key link right }
    {
        let mut s = self.stepped(link, right);
        s.between = self.word - 1 - key;
        s
    }

    // The place of the next row.
    pub(crate) fn place(self) -> Place
        requires tail { self.tail ≤ self.word }
        requires between { self.between ≤ self.word }
        ensures { result ≡ place_of self self.word }
    {
        Place {
            row: self.at / Header::ROW,
            mask: self.mask,
            path: self.word - self.tail,
            low: (self.word - self.between) as u64,
        }
    }

    // The leg that stops there.
    pub(crate) fn leg(self) -> Leg
        requires tail { self.tail ≤ self.word }
        requires between { self.between ≤ self.word }
        ensures { result ≡ leg_of self self.word }
    {
        Leg {
            at: self.place(),
            above: self.above / Header::ROW,
        }
    }

    // How the way ends at `row`, which it does not pass. An empty link is 0, so it leads back to row 0, the root, whose key is less than the word.
    fn end(self, row: Row) -> Result<Option<Row>, Damaged>
        requires tail { self.tail ≤ self.mask }
        ensures { result ≡ end_of self self.word row }
    {
        let key = row.entry.key;
        if key < self.word {
            if self.at / Header::ROW != 0 || self.between == self.word {
                return Err(Damaged);
            }
            return Ok(None);
        }
        if self.word < key {
            if self.mask - self.tail < key - self.word {
                return Err(Damaged);
            }
            return Ok(Some(row));
        }
        if self.mask == 0 && (row.left != 0 || row.right != 0) {
            return Err(Damaged);
        }
        Ok(Some(row))
    }
}

// Whether the next row is in use and is passed. It and `gone` take the table and not `Rows`: `sought` loads the slice once, before its loop.
// `past` is the table word three before the end of the rows in use: the rows in use begin before it, and no other row does.
#[tactic(auto, unfolding(crate::specs::Table::capacity, crate::specs::Table::row_at))]
fn goes_on(table: &[u32], past: usize, s: Seek) -> bool
    requires room { rows_before past ≤ capacity table.now }
    requires past { past + 3 ≡ row_words * rows_before past }
    requires between { s.between ≤ s.word }
    requires at { s.at ≡ row_words * row_of s }
    ensures { result ≡ goes_on (row_at table.now) (rows_before past) s.word s }
{
    if past <= s.at {
        return false;
    }
    let words = words_between(s.word, table[s.at]);
    words < s.between && words < s.tail
}

// The seek past its next row.
#[tactic(auto, using(crate::proofs::Writing::cast_side, crate::proofs::Writing::bit_small), unfolding(crate::specs::Table::capacity, crate::specs::Table::row_at))]
fn gone(table: &[u32], s: Seek) -> Seek
    requires used { row_of s < capacity table.now }
    requires at { s.at ≡ row_words * row_of s }
    requires less { (row_at table.now (row_of s)).entry.key < s.word }
    ensures { result ≡ gone (row_at table.now) s.word s }
{
    let at = s.at;
    let key = table[at];
    let link = table[at + 1 + (s.turn() as usize)];
    let right = table[at + 2];
    s.passed(key, link, right)
}

impl<'t> Rows<'t> {
    // The seek at the root.
    fn start(&self, word: u32) -> Seek
        ensures { result ≡ begun self.now.header.width word }
    {
        Seek {
            word,
            at: 0,
            mask: self.root().mask,
            tail: word,
            between: word,
            above: 0,
            aside: 0,
            span: 0,
        }
    }

    // The way of the word, as far as it passes rows.
    pub(crate) fn sought(&self, word: u32) -> Seek
        requires width { too_wide self.now.header word ≡ false }
        requires some { 0 < self.now.header.count }
        ensures { Sought (row_at self.now.table.now) self.now.header (shown self.now.header self.now.table.now) word result }
    {
        let table = self.table;
        let mut s = self.start(word);
        let past = Header::ROW * (self.header.count as usize) - 3;
        while goes_on(table, past, s) {
            s = gone(table, s);
        }
        s
    }

    // How the way ends, once it passes no more rows.
    #[tactic(auto, using(crate::proofs::Checks::right_header))]
    pub(crate) fn seek_end(&self, s: Seek) -> Result<Option<Row>, Damaged>
        requires tail { s.tail ≤ s.mask }
        ensures { result ≡ end_at (row_at self.now.table.now) self.now.header.count s.word s }
    {
        let i = s.at / Header::ROW;
        if self.header.count as usize <= i {
            return Err(Damaged);
        }
        s.end(row_at(self.table, i))
    }
}

impl Header {
    // The way of the word: the view of the table, the seek that followed the way, and the row at its end, if it ends at one. The error is the answer
    // of a call that is refused.
    // It is inlined: as a call of its own it costs `has` 26 instructions a row in place of 16.
    #[inline(always)]
    pub(crate) fn way(
        self,
        table: &[u32],
        word: u32,
    ) -> Result<(Rows<'_>, Seek, Option<Row>), Answer>
        ensures { MatchResult result (λ found. (WayEnds self table.now word found.1 (Ok found.2)) × (found.0.header ≡ self) × (found.0.table.now ≡ table.now)) (λ answer. Refused self table.now word answer) }
    {
        let rows = self.rows(table)?;
        if rows.is_too_wide(word) {
            return Err(Answer::WordTooWide);
        }
        // "with a count of 0 every way is empty"
        if self.count == 0 {
            return Ok((rows, rows.start(word), None));
        }
        let s = rows.sought(word);
        let row = rows.seek_end(s)?;
        Ok((rows, s, row))
    }
}
