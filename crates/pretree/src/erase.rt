// `del`: removes a word, and moves the last row into the row that becomes free.
// Document 01: "All of it is judged before anything is written." and "The order is: keys up, unlink, move, set the link."

ghost use Rattle.std.specs.Prelude.{◌≡◌, false, ◌<◌, IfOk};
ghost use Rattle.ordered.specs.Change.{erasing};
ghost use Rattle.pretree.specs.Table.{capacity, row_at};
ghost use Rattle.pretree.specs.Unfold.{shown};
ghost use Rattle.pretree.specs.Reply.{wrong_header, too_wide};
ghost use Rattle.pretree.specs.Add.{taking};
ghost use Rattle.pretree.specs.Del.{del_outcome};
ghost use Rattle.pretree.specs.Erased.{key_in, RowOfKey, JudgedStretch, JudgedMove, MoveInTable, moved_rows, raising, Rises, Within, filled, emptied};

use crate::leg::{Damaged, Hook, Leg, Side, bits_of, first_side, hook_of};
use crate::table::{Rows, row_at};
use crate::write::{hook, put_entry, put_row};
use crate::{Answer, Entry, Header, Reply, Row};

// The stretch of an erase, which was judged: from row `from`, the row of k, `steps` rows down to the hole `row`. `hook` is where the hole is
// linked. `rows` counts all rows read, with those of the way of k.
#[derive(Clone, Copy)]
pub struct Hole {
    pub from: usize,
    pub steps: u32,
    pub row: usize,
    pub hook: Option<Hook>,
    pub rows: u32,
}

// The move of the last row, which was judged: where the last row is linked, and the number of rows of the second way.
#[derive(Clone, Copy)]
pub struct Move {
    pub hook: Option<Hook>,
    pub rows: u32,
}

impl Header {
    // "`del` k: the way of k, then from k's row down by left link, else right link, each row taking the key below".
    pub fn del(self, table: &mut [u32], word: u32) -> Reply
        ensures reply { result ≡ (del_outcome self table.old word).reply }
        ensures table { table.new ≡ (del_outcome self table.old word).table }
    {
        match self.way(table, word) {
            Ok((_, s, row)) => {
                let passed = self.width - bits_of(s.mask);
                match row {
                    Some(row) if row.entry.key == word => self.erased(table, s.leg()),
                    Some(_) => self.answered(Answer::NoSuchWord, passed + 1),
                    None => self.answered(Answer::NoSuchWord, passed),
                }
            }
            Err(answer) => self.refused(answer),
        }
    }

    // The way of k ended at k's row: `start` is there. This judges the stretch that begins there.
    #[tactic(auto, using(crate::proofs::Checks::right_header))]
    fn erased(self, table: &mut [u32], start: Leg) -> Reply
        requires header { wrong_header self table.old ≡ false }
        requires width { too_wide self (key_in table.old start.at.row) ≡ false }
        requires found { RowOfKey self table.old (key_in table.old start.at.row) start.at start.above }
        ensures reply { result ≡ (del_outcome self table.old (key_in table.old start.at.row)).reply }
        ensures table { table.new ≡ (del_outcome self table.old (key_in table.old start.at.row)).table }
    {
        let rows = Rows {
            table,
            header: self,
        };
        let leg = rows.down(start, Side::Left);
        let end = rows.row_end(leg.at);
        if end.is_err() {
            return self.refused(Answer::Damage);
        }
        let bits = bits_of(leg.at.mask);
        let hole = Hole {
            from: start.at.row,
            steps: bits_of(start.at.mask) - bits,
            row: leg.at.row,
            hook: hook_of(leg, self.width),
            rows: self.width - bits + 1,
        };
        self.filled(table, hole)
    }

    // "If the hole is not row count−1, that last row is moved into it."
    #[tactic(auto, using(crate::proofs::Checks::right_header, crate::proofs::Erasing::some_rows))]
    fn filled(self, table: &mut [u32], hole: Hole) -> Reply
        requires header { wrong_header self table.old ≡ false }
        requires width { too_wide self (key_in table.old hole.from) ≡ false }
        requires judged { JudgedStretch (erasing self.width (key_in table.old hole.from) (shown self table.old)) table.old hole }
        requires within { Within table.old hole }
        ensures reply { result ≡ (del_outcome self table.old (key_in table.old hole.from)).reply }
        ensures table { table.new ≡ (del_outcome self table.old (key_in table.old hole.from)).table }
    {
        let rows = Rows {
            table,
            header: self,
        };
        let Ok(last_move) = rows.move_of(hole.row) else {
            return self.refused(Answer::Damage);
        };
        let last = self.count - 1;
        shrink(table, last as usize, hole, last_move);
        Reply {
            header: Header {
                width: self.width,
                count: last,
            },
            answer: Answer::Done,
            rows: hole.rows,
            moved: moved_rows(last_move),
        }
    }
}

impl<'t> Rows<'t> {
    // "a second way, the way of the last row's key on the table as it was before the call, gives the link to be set". None if the hole is the last
    // row: then nothing moves. The way is damaged if it meets damage, or does not end at the last row.
    // The way of a key of 2^W or more does not, since no undamaged row has such a key. It is tested first because `sought` requires a word.
    #[tactic(auto, using(crate::proofs::Checks::right_header, crate::proofs::Sought::tail_few, crate::proofs::Sought::tail_less, crate::proofs::Sought::between_few))]
    fn move_of(&self, hole: usize) -> Result<Option<Move>, Damaged>
        requires some { 0 < self.now.header.count }
        ensures judged { JudgedMove self.now.header self.now.table.now hole result }
        ensures hook { IfOk result (MoveInTable (capacity self.now.table.now)) }
    {
        let h = self.header;
        let last = (h.count - 1) as usize;
        if hole == last {
            return Ok(None);
        }
        let key = row_at(self.table, last).entry.key;
        if self.is_too_wide(key) {
            return Err(Damaged);
        }
        let s = self.sought(key);
        let Some(_) = self.seek_end(s)? else {
            return Err(Damaged);
        };
        if s.at / Header::ROW != last {
            return Err(Damaged);
        }
        Ok(Some(Move {
            hook: hook_of(s.leg(), h.width),
            rows: h.width - bits_of(s.mask) + 1,
        }))
    }
}

// "The rows of the second way are the moving count; it is 0 where nothing moves".
fn moved_rows(last_move: Option<Move>) -> u32
    ensures { result ≡ moved_rows last_move }
{
    last_move.map_or(0, |m| m.rows)
}

// "keys up, unlink, move, set the link"; "cleared rows hold four zeros"
#[tactic(auto, using(crate::proofs::Writing::same_capacity), unfolding(crate::specs::Erased::emptied))]
fn shrink(table: &mut [u32], last: usize, hole: Hole, last_move: Option<Move>)
    requires last { last < capacity table.old }
    requires hole { Within table.old hole }
    requires hook { MoveInTable (capacity table.old) last_move }
    ensures { table.new ≡ emptied last hole last_move table.old }
{
    raise(table, hole.from, hole.steps);
    hook(table, hole.hook, Header::NONE);
    fill(table, hole.row, last, last_move);
    put_row(table, last, Row::default());
}

// "that last row is moved into it", and the link to it is set.
#[tactic(auto, unfolding(crate::specs::Table::capacity, crate::specs::Erased::filled))]
fn fill(table: &mut [u32], hole: usize, last: usize, last_move: Option<Move>)
    requires rows { (hole < capacity table.old) × (last < capacity table.old) }
    requires hook { MoveInTable (capacity table.old) last_move }
    ensures { table.new ≡ filled hole last last_move table.old }
{
    if let Some(m) = last_move {
        let row = row_at(table, last);
        put_row(table, hole, row);
        hook(table, m.hook, hole as u32);
    }
}

// "each row taking the key below"
fn raise(table: &mut [u32], from: usize, steps: u32)
    requires { Rises (row_at table.old) (capacity table.old) steps from }
    ensures { table.new ≡ taking (raising (row_at table.old) steps from) table.old }
{
    let mut at = from;
    for _ in 0..steps {
        let row = row_at(table, at);
        let below = row.link(first_side(row, Side::Left)) as usize;
        put_entry(table, at, row_at(table, below).entry);
        at = below;
    }
}
