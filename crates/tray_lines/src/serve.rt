// Answering all lines: "A line ends with byte 10, or at the end of input if bytes are left."

ghost use Rattle.std.specs.Prelude.{◌≡◌, ◌+◌, ◌≤◌, []};
ghost use Rattle.arrayvec.specs.ArrayVec.{array_vec_len};

use crate::answer::answer_line;
use crate::parse::read_line;
use crate::put::{Replies, put_reply};
use arrayvec::ArrayVec;
use console::hold;
use std::io;
use std::io::{Read, Write};
use tray::{Sample, Seat};

// What is kept from one read to the next. There is always room for one more reply.
#[derive(Drop)]
struct Session {
    settings: Sample,
    tray: [Seat; 64],

    // A line above 64 bytes is answer 9 whatever it says, so its first 65 bytes are enough.
    line: ArrayVec<u8, 65>,

    lines: u64,
    replies: Replies,
    ghost room: { array_vec_len replies + 32 ≤ 4096 },
}

impl Session {
    fn new(settings: Sample) -> Self {
        Self {
            settings,
            tray: [Seat::fresh(); 64],
            line: ArrayVec::new(),
            lines: 0,
            replies: Replies::new(),
        }
    }

    // Answers the lines that end in this piece of the input.
    fn feed<W: Write>(&mut self, piece: &[u8], writer: &mut W) -> io::Result<()> {
        for part in piece.split_inclusive(|byte| *byte == b'\n') {
            match part {
                [end @ .., b'\n'] => {
                    hold(&mut self.line, end);
                    self.answer(writer)?;
                }
                _ => hold(&mut self.line, part),
            }
        }
        Ok(())
    }

    // Answers the line. The replies are written once there might be no room for the next.
    fn answer<W: Write>(&mut self, writer: &mut W) -> io::Result<()> {
        self.lines = self.lines.saturating_add(1);
        let line = read_line(&self.line);
        self.line.clear();
        let fields = answer_line(&mut self.tray, line, self.settings);
        put_reply(&mut self.replies, self.lines, fields);
        if self.replies.remaining_capacity() < 32 {
            write_replies(&mut self.replies, writer)?;
        }
        Ok(())
    }
}

// No reply is left, even if the write fails: the program then ends.
fn write_replies<W: Write>(replies: &mut Replies, writer: &mut W) -> io::Result<()>
    ensures { replies.new.items ≡ [] }
{
    let written = writer.write_all(replies);
    replies.clear();
    written
}

// Answers every line. If a read fails, the replies to the lines before it are written all the same.
pub(crate) fn serve<R: Read, W: Write>(
    settings: Sample,
    reader: &mut R,
    writer: &mut W,
) -> io::Result<()> {
    // A buffer and a count, since that is what `read` fills and gives.
    let mut input = [0u8; 65536];
    let mut session = Session::new(settings);
    // A proved loop has to end, and nothing says that the input does. No run uses up this many reads.
    for _ in 0..u64::MAX {
        match reader.read(&mut input) {
            Ok(0) if session.line.is_empty() => break,
            // A terminal can give more after an end of input, so the program reads on.
            Ok(0) => session.answer(writer)?,
            Ok(n) => session.feed(&input[..n], writer)?,
            Err(e) => {
                write_replies(&mut session.replies, writer)?;
                return Err(e);
            }
        }
    }
    write_replies(&mut session.replies, writer)
}
