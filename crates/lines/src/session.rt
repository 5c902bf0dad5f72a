// A session takes its input in pieces. Whole lines are answered. The bytes of a line that has not ended are held until the next piece.

ghost use Rattle.std.specs.Prelude.{◌≡◌, ◌+◌, ◌<◌, ◌≤◌, ◌^◌, [], length};
ghost use Rattle.arrayvec.specs.ArrayVec.{array_vec_len};
ghost use Rattle.lines.specs.Line.{parse};
ghost use Rattle.lines.specs.Output.{start_session, answer};
ghost use Rattle.lines.specs.Answering.{state_of, Answers, Keeps, Advances};

use crate::answer::run;
use crate::parse::parse;
use crate::put::{LineText, Output, put_answer, put_reply};
use crate::reply::{not_read, reply_fields};
use arrayvec::ArrayVec;
use console::{hold, place_of};
use pretree::Header;

// The most bytes that a reply has: 76, and 15 more for each listed word.
const LONGEST_REPLY: usize = 76 + 15 * 4096;

// One byte more than the longest line has: it shows a line to be too long.
type Held = ArrayVec<u8, 65>;

// The header, the table and the `list` buffer; how many lines were answered; what is held of a line that has not ended; the replies that are not
// written yet; and the text in which a reply is made. Each reply begins it anew.
#[derive(Drop)]
pub struct Session {
    pub header: Header,
    pub table: [u32; 16384],
    pub words: [u32; 4096],
    pub lines: u64,
    pub held: Held,
    pub out: Output,
    pub text: LineText,
}

impl Session {
    // "Table of 4,096 rows, all zeros, and a `list` buffer of 4,096 words. Header at the start: W 0, count 0."
    pub(crate) fn start() -> Session
        ensures { Keeps start_session result }
    {
        Session {
            header: Header::fresh(0),
            table: [0; 16384],
            words: [0; 4096],
            lines: 0,
            held: Held::new(),
            out: Output::new(),
            text: LineText::new(),
        }
    }

    // Answers a line, at the end of `out`. The bounds on `lines` and `out` here and below are no ghost fields: each asks for another number.
    fn answer(&mut self, line: &[u8])
        requires lines_bound { self.old.lines + 1 < 2 ^ 64 }
        requires room { array_vec_len self.old.out + 61516 ≤ 131072 }
        ensures { Answers (answer (state_of self.old) (parse line.now)) self.old self.new }
    {
        self.lines += 1;
        match parse(line) {
            Some(call) => {
                let done = run(call, self.header, &mut self.table, &mut self.words);
                self.header = done.reply.header;
                let listed = &self.words[..done.listed as usize];
                put_answer(
                    &mut self.out,
                    &mut self.text,
                    self.lines,
                    reply_fields(done.reply),
                    listed,
                );
            }
            None => put_reply(&mut self.out, &mut self.text, self.lines, not_read()),
        }
    }

    // Answers the line that ends first in a piece. If none ends, holds the piece. Returns the rest of the piece.
    fn step<'a>(&mut self, piece: &'a [u8]) -> &'a [u8]
        requires lines_bound { self.old.lines + 1 < 2 ^ 64 }
        requires room { array_vec_len self.old.out + 61516 ≤ 131072 }
        requires some { 0 < length piece.now }
        ensures { Advances piece.now result.now self.old.out.items self.old self.new }
    {
        let Some(end) = place_of(b'\n', piece) else {
            hold(&mut self.held, piece);
            return &[];
        };
        // A line that lies in the piece whole is not copied.
        if self.held.is_empty() {
            self.answer(&piece[..end]);
            return &piece[end + 1..];
        }
        hold(&mut self.held, &piece[..end]);
        let line = self.held.take();
        self.answer(&line);
        &piece[end + 1..]
    }

    // Answers the lines of a piece, in a new output. Stops at the end of the piece, or when `out` may have no room for one more reply. Returns
    // the rest of the piece.
    pub(crate) fn feed<'a>(&mut self, piece: &'a [u8]) -> &'a [u8]
        requires piece_bound { self.old.lines + length piece.now < 2 ^ 64 }
        requires some { 0 < length piece.now }
        ensures { Advances piece.now result.now [] self.old self.new }
    {
        self.out.clear();
        let mut rest = piece;
        while !rest.is_empty() && LONGEST_REPLY <= self.out.remaining_capacity() {
            rest = self.step(rest);
        }
        rest
    }
}
