// `prev`: the greatest word less than k.

ghost use Rattle.std.specs.Prelude.{◌≡◌, ◌<◌, ◌^◌, Ok};
ghost use Rattle.pretree.specs.Find.{prev_reply};
ghost use Rattle.pretree.specs.Seek.{WayEnds};
ghost use Rattle.pretree.specs.Prev.{left_if_right, left_place};

use crate::leg::{Place, Side, bits_of};
use crate::seek::Seek;
use crate::table::{Rows, row_at};
use crate::{Answer, Header, Reply, Row};

impl Header {
    // "greatest word less than k"
    pub fn prev(self, table: &[u32], word: u32) -> Reply
        ensures { result ≡ prev_reply self table.now word }
    {
        match self.way(table, word) {
            Ok((rows, s, row)) => rows.prev_at(s, row),
            Err(answer) => self.refused(answer),
        }
    }
}

impl<'t> Rows<'t> {
    // "Let p be its last row with key below k. No such row: none. If the way turned right at p and p has a left child, go down from that child"
    fn prev_at(&self, s: Seek, row: Option<Row>) -> Reply
        requires way { WayEnds self.now.header self.now.table.now s.word s (Ok row) }
        ensures { result ≡ prev_reply self.now.header self.now.table.now s.word }
    {
        let bits = bits_of(s.mask);
        let passed = self.header.width - bits;
        // the rows that the way passed, and the row at its end
        let rows = passed + u32::from(row.is_some());
        if passed == 0 {
            return self.header.answered(Answer::NoSuchWord, rows);
        }
        let last = row_at(self.table, s.above / Header::ROW);
        if left_if_right(s.word, bits, last) == Header::NONE {
            return self.header.answered(Answer::Word(last.entry.key), rows);
        }
        self.greatest(Place::left_of(last, s.mask), rows)
    }
}

// The left link of `last`, the last row that the way passed, if the way turned right there; else none. A link as the table has it:
// "A link of 0 means none."
#[tactic(auto, unfolding(ordered::specs::Word::side))]
fn left_if_right(word: u32, bits: u32, last: Row) -> u32
    requires few { bits < 32 }
    ensures { result ≡ left_if_right word bits last }
{
    match Side::of(word, bits) {
        Side::Left => Header::NONE,
        Side::Right => last.left,
    }
}

impl Place {
    // The place of the left part of a row. Its path is the path of the row, which the key has, followed by a 0.
    fn left_of(row: Row, mask: u32) -> Place
        requires few { mask < 2 ^ 31 }
        ensures { result ≡ left_place row mask }
    {
        let key = row.entry.key;
        Place {
            row: row.left as usize,
            mask,
            path: key - (key & (2 * mask + 1)),
            low: key as u64 + 1,
        }
    }
}
