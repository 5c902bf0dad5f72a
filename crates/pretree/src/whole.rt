// The calls on the whole table: `new`, `audit` and `list`.
// "The listing of a row's part is its key, then its left part, then its right part": `audit` and `list` read the rows in this order. They recurse on
// the left part and loop on to the right part: document 01 asks for recursion with a depth that falls. At each row further down one bit fewer is left,
// so they end.

ghost use Rattle.std.specs.Prelude.{◌≡◌, false, not, ◌&&◌, ◌++◌, ◌+◌, ◌*◌, ◌≤◌, eqb, drop, replicate};
ghost use Rattle.std.proofs.lemmas.List.Edits.{sets};
ghost use Rattle.ordered.specs.Tree.{listing, size};
ghost use Rattle.pretree.specs.Table.{row_words, capacity, row_at};
ghost use Rattle.pretree.specs.Unfold.{shown};
ghost use Rattle.pretree.specs.Sound.{is_sound};
ghost use Rattle.pretree.specs.Reply.{wrong_header};
ghost use Rattle.pretree.specs.Whole.{new_reply, new_table, audit_reply, list_reply, list_buffer};
ghost use Rattle.pretree.specs.Seek.{bits_left_by};
ghost use Rattle.pretree.specs.Part.{row_tree, part_at, rows_in, SomeWalkStands, Standing, Listable};

use crate::leg::{Damaged, Place, Side};
use crate::table::{Rows, capacity, is_wrong_width, row_at};
use crate::{Answer, Header, Reply, Row};

// The number of rows in the part of a row, which is at `start`. The keys strictly increase along the rows that are met before the first damage. So no
// row is met twice, even if the table has loops or shared rows.
// The header is handed on by value: a method of `Rows` would load the fields again at each recursion, and `audit` took 39.4 instructions a row with it
// in place of 39.0.
fn rows_from(table: &[u32], header: Header, start: Place) -> Result<u64, Damaged>
    requires header { wrong_header header table.now ≡ false }
    requires place { SomeWalkStands start }
    ensures { result ≡ rows_in (part_at (row_at table.now) header.count start) }
{
    let used = Rows { table, header };
    let mut at = start;
    // counts the row at hand too: to count it when it is met takes three instructions a call more
    let mut rows: u64 = 1;
    loop {
        let row = used.row_end(at)?;
        if row.left != Header::NONE {
            rows += rows_from(table, header, at.below(row, Side::Left))?;
        }
        if row.right == Header::NONE {
            return Ok(rows);
        }
        at = at.below(row, Side::Right);
        rows += 1;
    }
}

impl<'t> Rows<'t> {
    // The number of rows in the whole tree.
    fn rows_met(&self) -> Result<u64, Damaged>
        ensures { result ≡ rows_in (shown self.now.header self.now.table.now) }
    {
        if self.header.count == 0 {
            return Ok(0);
        }
        // Damage at the root is found here: `rows_from` finds it too, but as a call of its own that costs `audit` 116 instructions in place of 62.
        let root = self.root();
        self.row_end(root)?;
        rows_from(self.table, self.header, root)
    }

    // The whole tree has no damage and as many rows as are in use. So a link leads to every row in use except the root.
    #[tactic(auto, unfolding(crate::specs::Part::rows_in, crate::specs::Sound::is_sound))]
    fn is_sound(&self) -> bool
        ensures { result ≡ is_sound self.now.header self.now.table.now }
    {
        self.rows_met() == Ok(self.header.count as u64)
    }
}

// Writes the listing of a row's part to the buffer from `start` on. The result is the place after it: a rest of the buffer, handed back, would say the
// same with a borrow more.
fn row_listed(table: &[u32], from: usize, bits: u32, buffer: &mut [u32], start: usize) -> usize
    requires row { Standing (row_at table.now) (capacity table.now) bits from }
    requires part { Listable (row_tree (row_at table.now) (capacity table.now) (bits_left_by bits) from) buffer.old start }
    ensures end { result ≡ start + size (row_tree (row_at table.now) (capacity table.now) (bits_left_by bits) from) }
    ensures words { buffer.new ≡ sets buffer.old start (listing (row_tree (row_at table.now) (capacity table.now) (bits_left_by bits) from)) }
{
    let mut row = row_at(table, from);
    let mut mask = bits;
    let mut next = start;
    loop {
        buffer[next] = row.entry.key;
        next += 1;
        if row.left != Header::NONE {
            next = row_listed(table, row.left as usize, mask / 2, buffer, next);
        }
        if row.right == Header::NONE {
            return next;
        }
        row = row_at(table, row.right as usize);
        mask /= 2;
    }
}

// Writes zeros to every row up to capacity. "Words past the last whole row, or past that limit, are never changed."
#[tactic(auto, unfolding(crate::specs::Table::capacity))]
fn clear(table: &mut [u32])
    ensures { table.new ≡ replicate (row_words * capacity table.old) 0 ++ drop (row_words * capacity table.old) table.old }
{
    let words = Header::ROW * (capacity(table) as usize);
    table[..words].fill(0);
}

impl Header {
    // "`new` makes no check but 1; it clears every row and hands back its W with a count of 0."
    #[tactic(auto, unfolding(crate::specs::Whole::new_reply, crate::specs::Whole::new_table))]
    pub fn new(self, table: &mut [u32], width: u32) -> Reply
        ensures { (result ≡ new_reply self width) × (table.new ≡ new_table table.old width) }
    {
        if is_wrong_width(width) {
            return self.refused(Answer::WrongWidth);
        }
        clear(table);
        Header::fresh(width).answered(Answer::Done, 0)
    }

    // "`audit` says whether the table is sound."
    #[tactic(auto, unfolding(crate::specs::Whole::audit_reply))]
    pub fn audit(self, table: &[u32]) -> Reply
        ensures { result ≡ audit_reply self table.now }
    {
        let rows = match self.rows(table) {
            Ok(rows) => rows,
            Err(answer) => return self.refused(answer),
        };
        if !rows.is_sound() {
            return self.refused(Answer::Damage);
        }
        self.answered(Answer::Done, self.count)
    }

    // "`list` writes it to a lent buffer of 32-bit words and leaves the rest of the buffer." All is judged before anything is written.
    #[tactic(auto, unfolding(crate::specs::Whole::list_reply, crate::specs::Whole::list_buffer))]
    pub fn list(self, table: &[u32], buffer: &mut [u32]) -> Reply
        ensures { (result ≡ list_reply self table.now buffer.old) × (buffer.new ≡ list_buffer self table.now buffer.old) }
    {
        let count = self.count;
        let rows = match self.rows(table) {
            Ok(rows) => rows,
            Err(answer) => return self.refused(answer),
        };
        if !rows.is_sound() {
            return self.refused(Answer::Damage);
        }
        if buffer.len() < count as usize {
            return self.refused(Answer::ShortBuffer);
        }
        if count == 0 {
            return self.answered(Answer::Done, count);
        }
        row_listed(table, 0, rows.root().mask, buffer, 0);
        self.answered(Answer::Done, count)
    }
}
