// The program of the four power-up tests. Its arguments are EDITION, 1 or 2, and optionally --counts. It reads bytes from standard input and writes a
// line for each block of 2,500 bytes to standard output.
#![tactic(auto)]

mod arguments;
mod line;

ghost use Rattle.std.specs.Prelude.{◌≡◌, ◌⊎◌};

use arguments::Arguments;
use arrayvec::ArrayVec;
use console::failure;
use line::Line;
use std::io;
use std::io::{Eprint, Input, Print, Read, Write};
use std::process::ExitCode;
use std::rt::Env;

// The bytes of a whole block.
const BLOCK: usize = 2500;

// The status is a success if the edition is 1 or 2, no read failed and every line was written.
pub fn run<R: Env + Input + Print + Eprint>(rt: &R) -> ExitCode
    ensures { (result ≡ ExitCode.SUCCESS) ⊎ (result ≡ ExitCode.FAILURE) }
{
    let arguments = Arguments::read(rt);
    let status = match arguments.edition {
        Some(_) => ExitCode::SUCCESS,
        None => failure(rt, "powerup: the edition is neither 1 nor 2"),
    };
    match blocks(&mut rt.reader(), &mut io::writer(rt), arguments) {
        Ok(()) => status,
        Err(e) => failure(rt, format_args!("powerup: {e}")),
    }
}

// Answers every block. A proved loop has to end, so this one stops at a number of blocks that no input reaches.
fn blocks<R: Read, W: Write>(
    reader: &mut R,
    writer: &mut W,
    arguments: Arguments,
) -> io::Result<()> {
    for number in 1..u64::MAX {
        if block(reader, writer, number, arguments)? < BLOCK {
            break;
        }
    }
    Ok(())
}

// Answers a block, and returns its length. If a read fails, the bytes before it are answered all the same, as the last block.
fn block<R: Read, W: Write>(
    reader: &mut R,
    writer: &mut W,
    number: u64,
    arguments: Arguments,
) -> io::Result<usize> {
    let mut space = [0u8; BLOCK];
    let (got, read) = console::fill(reader, &mut space);
    if got != 0 {
        // 0 is no edition, so without one each whole block is refused
        let reply = powerup::power_up(&space[..got], arguments.edition.unwrap_or(0));
        let line = Line {
            number,
            reply,
            counts: arguments.counts,
        };
        // the longest line has 384 bytes
        let mut text = ArrayVec::<u8, 512>::new();
        write!(text, "{line}")?;
        writer.write_all(&text)?;
    }
    read?;
    Ok(got)
}
