// `add`: puts a word in its row, and pushes the entries that it displaces further down.
// Document 01: "All of it is judged before anything is written." The way of the word and the push are read first. If nothing refuses the call, a
// second pass over the push writes.

ghost use Rattle.std.specs.Prelude.{◌≡◌, false, ◌-◌, ◌≤◌, ◌<◌};
ghost use Rattle.pretree.specs.Table.{capacity, row_at, from_code};
ghost use Rattle.pretree.specs.Reply.{wrong_header, too_wide};
ghost use Rattle.pretree.specs.Add.{entry_for, add_outcome, taking};
ghost use Rattle.pretree.specs.Push.{takes_from, left_from, Rising, end_bits, hook_of, Growable, grown_outcome, Displaces};

use crate::leg::{Leg, Place, Side, bits_of, hook_of, own_side};
use crate::table::{Rows, capacity, row_at};
use crate::write::{hook, put_entry, put_row, put_serial};
use crate::{Answer, Entry, Header, Reply, Row};

impl Header {
    // "`add` k: the way of k. If it ends at a key greater than k, that row takes k and its old key is pushed down". A word that is there already
    // "still answers 7, but now stores the new serial".
    pub fn add(self, table: &mut [u32], word: u32, serial: u32) -> Reply
        ensures value { result ≡ (add_outcome self table.old (entry_for word serial)).reply }
        ensures table_after { table.new ≡ (add_outcome self table.old (entry_for word serial)).table }
    {
        let entry = Entry { key: word, serial };
        match self.way(table, word) {
            Ok((_, s, row)) => match row {
                None => self.grown(table, entry, s.at / Header::ROW, bits_of(s.mask), s.leg()),
                Some(row) if row.entry.key == word => {
                    put_serial(table, s.at / Header::ROW, serial);
                    self.answered(Answer::AlreadyThere, self.width - bits_of(s.mask) + 1)
                }
                Some(row) => self.displaced(table, entry, s.place(), row),
            },
            Err(answer) => self.refused(answer),
        }
    }

    // The way of the word ended at `row`, whose key is greater: "its old key is pushed down by its own bits".
    // Clause `header` is in all four that write: methods of a struct with the `&mut` table would each have to ensure that they keep the reference.
    #[tactic(auto, using(crate::proofs::Displacing::inner_place))]
    fn displaced(self, table: &mut [u32], entry: Entry, at: Place, row: Row) -> Reply
        requires header { wrong_header self table.old ≡ false }
        requires width { too_wide self entry.key ≡ false }
        requires ends { Displaces self table.old entry.key at row }
        ensures value { result ≡ (add_outcome self table.old (from_code entry)).reply }
        ensures table_after { table.new ≡ (add_outcome self table.old (from_code entry)).table }
    {
        let start = Leg {
            at: at.below(row, own_side(at.mask, row.entry.key)),
            above: at.row,
        };
        let rows = Rows {
            table,
            header: self,
        };
        let leg = rows.pushed(start);
        let end = rows.link_end(leg.at);
        if end.is_err() {
            return self.refused(Answer::Damage);
        }
        self.grown(table, entry, at.row, bits_of(at.mask), leg)
    }

    // "The new row is row `count`, with both links 0, linked where the way or the push ended": `leg` is there. The push began at row `from`, where
    // `bits` bits are left.
    #[tactic(auto, using(crate::proofs::Checks::right_header, crate::proofs::Writing::same_capacity, crate::proofs::Adding::on_full, crate::proofs::Adding::on_done, crate::proofs::Adding::writes_grow))]
    fn grown(self, table: &mut [u32], entry: Entry, from: usize, bits: u32, leg: Leg) -> Reply
        requires header { wrong_header self table.old ≡ false }
        requires growable { Growable self table.old from bits (end_bits leg) (hook_of leg self.width) }
        ensures value { result ≡ (grown_outcome self table.old entry from bits (end_bits leg) (hook_of leg self.width)).reply }
        ensures table_after { table.new ≡ (grown_outcome self table.old entry from bits (end_bits leg) (hook_of leg self.width)).table }
    {
        if self.count == capacity(table) {
            return self.refused(Answer::Full);
        }
        let end = bits_of(leg.at.mask);
        let left = push(table, from, bits, end, entry);
        hook(table, hook_of(leg, self.width), self.count);
        put_row(
            table,
            self.count as usize,
            Row {
                entry: left,
                left: Header::NONE,
                right: Header::NONE,
            },
        );
        let more = Header {
            width: self.width,
            count: self.count + 1,
        };
        more.answered(Answer::Done, self.width - end)
    }
}

// Writes the push: "taking each next row's place in turn", from row `from` with `bits` bits left down to where `end` bits are left. The result is
// the entry that is left over for the new row.
fn push(table: &mut [u32], from: usize, bits: u32, end: u32, entry: Entry) -> Entry
    requires bits { (end ≤ bits) × (bits ≤ 32) }
    requires rows { Rising (row_at table.old) (capacity table.old) end (bits - end) from 0 }
    ensures value { result ≡ left_from (row_at table.old) end (bits - end) from entry }
    ensures table_after { table.new ≡ taking (takes_from (row_at table.old) end (bits - end) from entry) table.old }
{
    let mut at = from;
    let mut carried = entry;
    for left in (end..bits).rev() {
        let row = row_at(table, at);
        put_entry(table, at, carried);
        carried = row.entry;
        at = row.link(Side::of(carried.key, left)) as usize;
    }
    carried
}
