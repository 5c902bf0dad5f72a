// The writes to a lent table: an entry, a serial, a link or a whole row.
// They take the table and a row's number, and not a view of its four words: a view is no plainer, since it needs the same clause where it is made, and
// another that says what a write to it leaves in the table.

ghost use Rattle.std.specs.Prelude.{◌≡◌, ◌<◌};
ghost use Rattle.pretree.specs.Table.{capacity, from_code, to_side, with_entry, with_serial, with_link, with_row, hooked};
ghost use Rattle.pretree.specs.Push.{HookInTable};

use crate::leg::{Hook, Side};
use crate::{Entry, Header, Row};

// Row i takes the key and the serial of an entry.
#[tactic(auto, unfolding(crate::specs::Table::capacity, crate::specs::Table::with_entry, crate::specs::Table::with_serial))]
pub(crate) fn put_entry(table: &mut [u32], i: usize, entry: Entry)
    requires { i < capacity table.old }
    ensures { table.new ≡ with_entry i (from_code entry) table.old }
{
    let at = Header::ROW * i;
    table[at] = entry.key;
    table[at + 3] = entry.serial;
}

// Row i keeps its key and takes another serial.
#[tactic(auto, unfolding(crate::specs::Table::capacity, crate::specs::Table::with_serial))]
pub(crate) fn put_serial(table: &mut [u32], i: usize, serial: u32)
    requires { i < capacity table.old }
    ensures { table.new ≡ with_serial i serial table.old }
{
    let at = Header::ROW * i + 3;
    table[at] = serial;
}

// Sets the link of row i on one side.
#[tactic(auto, using(crate::proofs::Writing::cast_side, crate::proofs::Writing::bit_small), unfolding(crate::specs::Table::capacity, crate::specs::Table::with_link))]
pub(crate) fn put_link(table: &mut [u32], i: usize, side: Side, link: u32)
    requires { i < capacity table.old }
    ensures { table.new ≡ with_link i (to_side side) link table.old }
{
    let at = Header::ROW * i + 1 + (side as usize);
    table[at] = link;
}

// Sets the link to a row, if it is linked anywhere.
pub(crate) fn hook(table: &mut [u32], at: Option<Hook>, link: u32)
    requires { HookInTable (capacity table.old) at }
    ensures { table.new ≡ hooked at link table.old }
{
    if let Some(at) = at {
        put_link(table, at.above, at.side, link);
    }
}

#[tactic(auto, unfolding(crate::specs::Table::capacity, crate::specs::Table::with_row))]
pub(crate) fn put_row(table: &mut [u32], i: usize, row: Row)
    requires { i < capacity table.old }
    ensures { table.new ≡ with_row i row table.old }
{
    let at = Header::ROW * i;
    let words = [row.entry.key, row.left, row.right, row.entry.serial];
    table[at..at + Header::ROW].copy_from_slice(&words);
}
