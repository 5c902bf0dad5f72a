// `gap`: the distance to the nearest word.

ghost use Rattle.std.specs.Prelude.{◌≡◌, false};
ghost use Rattle.pretree.specs.Reply.{too_wide};
ghost use Rattle.pretree.specs.Find.{gap_reply, prev_reply, next_reply};
ghost use Rattle.pretree.specs.Gap.{neighbour, smaller, distance, between};

use crate::leg::{Damaged, bits_of};
use crate::table::Rows;
use crate::{Answer, Header, Reply};

// What the answer of `prev` or `next` says: its word, or that there is none.
fn neighbour_in(answer: Answer) -> Result<Option<u32>, Damaged>
    ensures { result ≡ neighbour answer }
{
    match answer {
        Answer::Word(word) => Ok(Some(word)),
        Answer::NoSuchWord => Ok(None),
        _ => Err(Damaged),
    }
}

// "the smaller of the distances to `prev` and `next`, or the only one there is"
fn smaller(lower: Option<u32>, upper: Option<u32>) -> Option<u32>
    ensures { result ≡ smaller lower upper }
{
    match (lower, upper) {
        (Some(a), Some(b)) => Some(a.min(b)),
        (None, one) => one,
        (one, None) => one,
    }
}

// The distance from the word to the nearer neighbour, by the answers of `prev` and `next`.
fn distance(word: u32, below: Answer, above: Answer) -> Result<Option<u32>, Damaged>
    ensures { result ≡ distance word (neighbour below) (neighbour above) }
{
    let lower = neighbour_in(below)?.map(|p| word.saturating_sub(p));
    let upper = neighbour_in(above)?.map(|n| n.saturating_sub(word));
    Ok(smaller(lower, upper))
}

impl Header {
    // "distance 0 if k is present (count: the way of k). Else the smaller of the distances to `prev` and `next`, or the only one there is"
    pub fn gap(self, table: &[u32], word: u32) -> Reply
        ensures { result ≡ gap_reply self table.now word }
    {
        match self.way(table, word) {
            Ok((rows, s, row)) => match row {
                Some(row) if row.entry.key == word => self.answered(
                    Answer::Distance(0),
                    self.width - bits_of(s.mask) + 1,
                ),
                // an empty set has no nearest word, so `prev` and `next` are not asked
                None if self.count == 0 => self.answered(Answer::NoSuchWord, 0),
                _ => rows.nearest(word),
            },
            Err(answer) => self.refused(answer),
        }
    }
}

impl<'t> Rows<'t> {
    // "its count is the two counts added". That the word is below 2^W is asked here and by four others, of different words.
    fn nearest(&self, word: u32) -> Reply
        requires width { too_wide self.now.header word ≡ false }
        ensures { result ≡ between self.now.header word (prev_reply self.now.header self.now.table.now word) (next_reply self.now.header self.now.table.now word) }
    {
        let h = self.header;
        let below = h.prev(self.table, word);
        let above = h.next(self.table, word);
        let rows = below.rows + above.rows;
        match distance(word, below.answer, above.answer) {
            Ok(Some(nearest)) => h.answered(Answer::Distance(nearest), rows),
            Ok(None) => h.answered(Answer::NoSuchWord, rows),
            Err(Damaged) => h.refused(Answer::Damage),
        }
    }
}
