// The reports on standard output: a reply line, the header, and a line for each word that changed.

ghost use Rattle.std.specs.Prelude.{◌≡◌, length};

use crate::calls::BLANK;
use lines::ReplyFields;
use lines::reply::{not_read, reply_fields};
use pretree::Reply;
use std::fmt::{Display, Formatter};
use std::io::{Stdout, Write};
use std::{fmt, io};

// Standard output, and whether all of it could be written so far. After a write that failed nothing more is written: the calls go on, and `flush`
// returns the error.
#[derive(Drop)]
pub struct Output {
    out: Stdout,
    written: io::Result<()>,
}

impl Output {
    pub(crate) fn new(out: Stdout) -> Output {
        Output {
            out,
            written: Ok(()),
        }
    }

    fn put_line<D: Display + Drop>(&mut self, line: D) {
        if self.written.is_ok() {
            self.written = writeln!(self.out, "{line}");
        }
    }

    // A changed word of the table; `put_key` writes one of the buffer. Both take their numbers by value, because a loop that lends its count to the
    // text would store the count at each turn.
    fn put_word(&mut self, place: usize, word: u32) {
        self.put_line(format_args!("word\t{place}\t{word}"));
    }

    fn put_key(&mut self, place: usize, word: u32) {
        self.put_line(format_args!("key\t{place}\t{word}"));
    }

    // Returns the first failure.
    pub(crate) fn flush(&mut self) -> io::Result<()> {
        self.written?;
        self.out.flush()
    }
}

// Answer 9, "program only: line not read". Nothing is changed.
pub(crate) fn unread(out: &mut Output, line: u64) {
    reply_line(out, line, not_read());
}

// What a call answered, and the words of the table and the buffer that it changed.
pub(crate) fn outcome(
    out: &mut Output,
    line: u64,
    reply: Reply,
    before: &[u32],
    after: &[u32],
    buffer: &[u32],
) {
    reply_line(out, line, reply_fields(reply));
    let header = reply.header;
    out.put_line(format_args!("header\t{}\t{}", header.width, header.count));
    for (place, (old, new)) in before.iter().zip(after).enumerate() {
        if old != new {
            out.put_word(place, *new);
        }
    }
    for (place, word) in buffer.iter().enumerate() {
        if *word != BLANK {
            out.put_key(place, *word);
        }
    }
}

// "line number from 1, answer number, key or `-`, rows read, moving count, parted by tabs". Crate lines writes the same text into its own output, with
// a proof of each byte; here `Display` is plainer.
// Document 02 §1: "every reply line ends with one more field: the serial for a `has` that found its word, `-` elsewhere"
fn reply_line(out: &mut Output, line: u64, fields: ReplyFields) {
    let ReplyFields {
        answer,
        key,
        rows,
        moved,
        serial,
    } = fields;
    let (key, serial) = (OrDash(key), OrDash(serial));
    out.put_line(format_args!("{line}\t{answer}\t{key}\t{rows}\t{moved}\t{serial}"));
}

// A number, or `-` where there is none.
#[derive(Clone, Copy)]
struct OrDash(Option<u32>);

impl Display for OrDash {
    fn fmt<W: fmt::Write>(&self, f: &mut Formatter<W>) -> fmt::Result {
        match self.0 {
            Some(n) => write!(f, "{n}"),
            None => write!(f, "-"),
        }
    }
}
