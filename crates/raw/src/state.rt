// What the lines have set.

ghost use Rattle.std.specs.Prelude.{◌≤◌};

use pretree::Header;

// One row more than the largest capacity.
pub const TABLE_WORDS: usize = 262144;

// One word more than the largest capacity.
pub const BUFFER_WORDS: usize = 65536;

#[derive(Clone, Copy)]
pub struct State {
    pub header: Header,
    // how many words the table has, and how many the buffer
    pub size: usize,
    pub room: usize,
    // whether the next call starts from what a call left
    pub keep: bool,
    // how many lines have ended
    pub lines: u64,
    ghost table_fits: { size ≤ 262144 },
    ghost buffer_fits: { room ≤ 65536 },
}

impl State {
    // It starts as the line program does: "Table of 4,096 rows, all zeros, and a `list` buffer of 4,096 words. Header at the start: W 0, count 0."
    // Document 02 §1: "A row is then four words".
    pub(crate) fn start() -> State {
        State {
            header: Header::fresh(0),
            size: 16384,
            room: 4096,
            keep: true,
            lines: 0,
        }
    }
}
