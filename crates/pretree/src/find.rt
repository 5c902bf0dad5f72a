// `has`, `first` and `last`, and the replies of every call that looks for a word.

ghost use Rattle.std.specs.Prelude.{◌≡◌, ◌≤◌};
ghost use Rattle.pretree.specs.Table.{row_at};
ghost use Rattle.pretree.specs.Reply.{refused, answered};
ghost use Rattle.pretree.specs.Find.{has_reply, first_reply, last_reply};
ghost use Rattle.pretree.specs.Found.{found_by, word_by, GreatestFrom, greatest_by};

use crate::leg::{Damaged, Leg, Place, Side, bits_of};
use crate::table::Rows;
use crate::{Answer, Header, Reply, Row};

impl Header {
    // "1 to 6 and 9 are refusals: counts 0, header, table and buffer untouched."
    pub(crate) fn refused(self, answer: Answer) -> Reply
        ensures { result ≡ refused self answer }
    {
        self.answered(answer, 0)
    }

    // An answer with the rows that were read for it.
    pub(crate) fn answered(self, answer: Answer, rows: u32) -> Reply
        ensures { result ≡ answered self answer rows }
    {
        Reply {
            header: self,
            answer,
            rows,
            moved: 0,
        }
    }

    // "found if the way of k ends at k"
    pub fn has(self, table: &[u32], word: u32) -> Reply
        ensures { result ≡ has_reply self table.now word }
    {
        match self.way(table, word) {
            Ok((_, s, row)) => self.found_by(word, row, self.width - bits_of(s.mask)),
            Err(answer) => self.refused(answer),
        }
    }

    // The answer of `has`, by the row at the end of the way. `passed` rows were passed; a row at the end counts as one more.
    fn found_by(self, word: u32, row: Option<Row>, passed: u32) -> Reply
        requires few { passed ≤ 32 }
        ensures { result ≡ found_by self word passed row }
    {
        match row {
            Some(row) if row.entry.key == word => self.answered(
                Answer::Serial(row.entry.serial),
                passed + 1,
            ),
            Some(_) => self.answered(Answer::NoSuchWord, passed + 1),
            None => self.answered(Answer::NoSuchWord, passed),
        }
    }

    // The word at which a leg ended. `rows` rows were read before that one.
    pub(crate) fn word_by(self, end: Result<Option<Row>, Damaged>, rows: u32) -> Reply
        requires few { rows ≤ 65 }
        ensures { result ≡ word_by self rows end }
    {
        match end {
            Err(Damaged) => self.refused(Answer::Damage),
            Ok(None) => self.answered(Answer::NoSuchWord, rows),
            Ok(Some(row)) => self.answered(Answer::Word(row.entry.key), rows + 1),
        }
    }

    // "`first` reads the root."
    pub fn first(self, table: &[u32]) -> Reply
        ensures { result ≡ first_reply self table.now }
    {
        let rows = match self.rows(table) {
            Ok(rows) => rows,
            Err(answer) => return self.refused(answer),
        };
        if self.count == 0 {
            return self.answered(Answer::NoSuchWord, 0);
        }
        let end = rows.row_end(rows.root()).map(Some);
        self.word_by(end, 0)
    }

    // "`last` goes down from the root by right link, else left link, until both are none."
    pub fn last(self, table: &[u32]) -> Reply
        ensures { result ≡ last_reply self table.now }
    {
        let rows = match self.rows(table) {
            Ok(rows) => rows,
            Err(answer) => return self.refused(answer),
        };
        if self.count == 0 {
            return self.answered(Answer::NoSuchWord, 0);
        }
        rows.greatest(rows.root(), 0)
    }
}

impl<'t> Rows<'t> {
    // The greatest word from a place down: "by right link, else left link, until both are none". `rows` rows were read before.
    pub(crate) fn greatest(&self, at: Place, rows: u32) -> Reply
        requires stands { GreatestFrom self.now.header at }
        requires few { rows ≤ 33 }
        ensures { (g : GreatestFrom self.now.header at) → result ≡ greatest_by self.now.header (row_at self.now.table.now) rows g.walk }
    {
        let leg = self.down(Leg { at, above: 0 }, Side::Right);
        let end = self.row_end(leg.at).map(Some);
        self.header
            .word_by(end, rows + bits_of(at.mask) - bits_of(leg.at.mask))
    }
}
