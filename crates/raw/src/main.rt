// A runner for raw tables. Lines on standard input set any header, table and buffer length, and make calls on them. For each call it writes
// the reply line, the header that was handed back, and every word that the call changed. README.md, "A raw table", lists the lines.
#![tactic(auto)]

mod calls;
mod report;
mod settings;
mod state;

use arrayvec::ArrayVec;
use console::hold;
use report::Output;
use settings::{read_numbers, setting_of};
use state::{BUFFER_WORDS, State, TABLE_WORDS};
use std::io;
use std::io::Read;

// The longest line, 256 bytes, and one byte that shows a line to be too long.
type Line = ArrayVec<u8, 257>;

// What was set, and the arrays that the calls run on. `State` has the set lengths: `SetAfter` speaks of the table and of the set lengths.
#[derive(Drop)]
pub struct Runner {
    pub state: State,
    pub table: [u32; TABLE_WORDS],
    pub copy: [u32; TABLE_WORDS],
    pub buffer: [u32; BUFFER_WORDS],
    pub out: Output,
}

// A proved loop must end, but the input may not. So the loop has more turns than any run uses. "or at the end of input if bytes are left":
// a byte 10 stands for that end.
fn main(rt: HostRuntime) -> io::Result<()> {
    let mut reader = rt.stdin();
    // A buffer and a count, since that is what `read` fills and gives.
    let mut input = [0u8; 65536];
    let mut line = Line::new();
    let mut runner = Runner {
        state: State::start(),
        table: [0; TABLE_WORDS],
        copy: [0; TABLE_WORDS],
        buffer: [0; BUFFER_WORDS],
        out: Output::new(rt.stdout()),
    };
    for _ in 0..140737488355328u64 {
        let n = reader.read(&mut input)?;
        if n == 0 && line.is_empty() {
            return Ok(());
        }
        let piece = if n == 0 { b"\n" } else { &input[..n] };
        runner.take_piece(&mut line, piece);
        runner.out.flush()?;
    }
    Ok(())
}

impl Runner {
    // Each byte 10 ends a line. What comes after the last one is held. The tray program has a loop like this: one function for both would take the
    // held line and a closure over all else, and be no shorter.
    fn take_piece(&mut self, line: &mut Line, piece: &[u8]) {
        for part in piece.split_inclusive(|byte| *byte == b'\n') {
            match part {
                [end @ .., b'\n'] => {
                    hold(line, end);
                    self.state.lines = self.state.lines.wrapping_add(1);
                    self.run_line(line.as_slice());
                    line.clear();
                }
                _ => hold(line, part),
            }
        }
    }

    // Empty lines and lines that begin with `#` do nothing.
    fn run_line(&mut self, line: &[u8]) {
        if matches!(line, [] | [b'#', ..]) {
            return;
        }
        if self.read_line(line).is_none() {
            report::unread(&mut self.out, self.state.lines);
        }
    }

    // Sets what the line sets or runs its call; `None` where it is not read.
    fn read_line(&mut self, line: &[u8]) -> Option<()> {
        if 256 < line.len() {
            return None;
        }
        match setting_of(line) {
            Some(setting) => {
                let mut values = ArrayVec::new();
                read_numbers(line, &mut values)?;
                self.set(setting, values.as_slice())
            }
            None => {
                let call = lines::parse::parse(line)?;
                self.run(call);
                Some(())
            }
        }
    }
}
