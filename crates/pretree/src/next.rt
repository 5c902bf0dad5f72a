// `next`: the least word greater than k.

ghost use Rattle.std.specs.Prelude.{◌≡◌, ◌≤◌, ◌<◌, ◌^◌, Ok};
ghost use Rattle.pretree.specs.Find.{next_reply};
ghost use Rattle.pretree.specs.Seek.{WayEnds};
ghost use Rattle.pretree.specs.Next.{next_place};

use crate::leg::{Place, bits_of};
use crate::seek::Seek;
use crate::table::Rows;
use crate::{Answer, Header, Reply, Row};

impl Header {
    // "least word greater than k; k need not be present"
    pub fn next(self, table: &[u32], word: u32) -> Reply
        ensures { result ≡ next_reply self table.now word }
    {
        match self.way(table, word) {
            Ok((rows, s, row)) => rows.next_at(s, row),
            Err(answer) => self.refused(answer),
        }
    }
}

impl<'t> Rows<'t> {
    // "If it meets a key greater than k, that is the answer." Rows equal to k are passed through: there the seek goes one row further down.
    // Else "take the deepest row where the way went left and a right link exists; its right child is read and is the answer".
    fn next_at(&self, s: Seek, row: Option<Row>) -> Reply
        requires way { WayEnds self.now.header self.now.table.now s.word s (Ok row) }
        ensures { result ≡ next_reply self.now.header self.now.table.now s.word }
    {
        let passed = self.header.width - bits_of(s.mask);
        match row {
            None => self.header.word_by(self.link_end(s.next_place()), passed),
            Some(row) => {
                let key = row.entry.key;
                if s.word < key {
                    return self.header.answered(Answer::Word(key), passed + 1);
                }
                let link = row.link(s.turn());
                let further = s.stepped(link, row.right);
                self.header
                    .word_by(self.link_end(further.next_place()), passed + 1)
            }
        }
    }
}

impl Seek {
    // The place of the next greater word: the seek's next row, if a link led there; else the right link that the seek remembers. The keys below that
    // right link have the word's bits down to one bit that is 0 in the word and 1 in them. `|` sets that bit. A sum would overflow if there is no such
    // link and the word is the greatest of all.
    fn next_place(self) -> Place
        requires tail { self.tail ≤ self.word }
        requires span { self.span < 2 ^ 31 }
        ensures { result ≡ next_place self self.word }
    {
        if self.at / Header::ROW != 0 {
            return Place {
                row: self.at / Header::ROW,
                mask: self.mask,
                path: self.word - self.tail,
                low: self.word as u64 + 1,
            };
        }
        Place {
            row: self.aside,
            mask: self.span,
            path: (self.word - (self.word & self.span)) | (self.span + 1),
            low: self.word as u64 + 1,
        }
    }
}
