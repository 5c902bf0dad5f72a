// Reading a row of a lent table, and the checks of header and word. They come first in every call but `new`, which checks only its width.

ghost use Rattle.std.specs.Prelude.{◌≡◌, false, true, ◌<◌, not, ◌&&◌, eqb, MatchResult};
ghost use Rattle.pretree.specs.declared.Answer.TheVariants.{WrongHeader};
ghost use Rattle.pretree.specs.Table.{capacity, row_at};
ghost use Rattle.pretree.specs.Reply.{wrong_width, wrong_header, too_wide};

use crate::{Answer, Entry, Header, Row};

// A lent table with its header, which is not refused: so the rows in use are in the table.
#[derive(Clone, Copy)]
pub struct Rows<'t> {
    pub table: &'t [u32],
    pub header: Header,
    ghost right: { wrong_header header table.now ≡ false },
}

// "Row i begins at table word" 4i. Why `i < capacity` is asked here and by each write: src/write.rt.
#[tactic(auto, unfolding(crate::specs::Table::capacity, crate::specs::Table::row_at))]
pub(crate) fn row_at(table: &[u32], i: usize) -> Row
    requires { i < capacity table.now }
    ensures { result ≡ row_at table.now i }
{
    let at = Header::ROW * i;
    Row {
        entry: Entry {
            key: table[at],
            serial: table[at + 3],
        },
        left: table[at + 1],
        right: table[at + 2],
    }
}

// "capacity the length divided by 4, at most 65,535"
#[tactic(auto, unfolding(crate::specs::Table::capacity))]
pub(crate) fn capacity(table: &[u32]) -> u32
    ensures { result ≡ capacity table.now }
{
    (table.len() / Header::ROW).min(Header::MOST) as u32
}

impl Row {
    pub(crate) fn has_link(self) -> bool
        ensures { result ≡ not (eqb self.left 0 && eqb self.right 0) }
    {
        self.left != 0 || self.right != 0
    }
}

pub(crate) fn is_wrong_width(width: u32) -> bool
    ensures { result ≡ wrong_width width }
{
    width == 0 || 32 < width
}

impl Header {
    // Answer 2.
    #[tactic(auto, unfolding(crate::specs::Reply::wrong_header))]
    pub(crate) fn is_wrong(self, table: &[u32]) -> bool
        ensures { result ≡ wrong_header self table.now }
    {
        is_wrong_width(self.width) || capacity(table) < self.count
    }

    // The table with this header, or answer 2.
    pub(crate) fn rows(self, table: &[u32]) -> Result<Rows<'_>, Answer>
        ensures { MatchResult result (λ rows. (rows.header ≡ self) × (rows.table.now ≡ table.now)) (λ answer. (answer ≡ WrongHeader) × (wrong_header self table.now ≡ true)) }
    {
        if self.is_wrong(table) {
            return Err(Answer::WrongHeader);
        }
        Ok(Rows {
            table,
            header: self,
        })
    }
}

impl<'t> Rows<'t> {
    // Answer 3.
    #[tactic(auto, using(crate::proofs::Checks::right_header))]
    pub(crate) fn is_too_wide(&self, word: u32) -> bool
        ensures { result ≡ too_wide self.now.header word }
    {
        1u64 << self.header.width <= word as u64
    }
}
