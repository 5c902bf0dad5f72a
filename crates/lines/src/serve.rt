// The line program over standard input and standard output: large reads, and one write for each, or more if `out` is full.
// No contract says what standard input gives, or what a write does. Everything between them has a contract: the start, the piece after a read,
// the session after a piece and at the end, and the bytes that are handed to a write. How the input is cut into pieces does not matter:
// proofs/Pieces.antt.

ghost use Rattle.std.specs.Prelude.{◌≡◌, ◌+◌, ◌<◌, ◌≤◌, ◌^◌, ◌⊎◌, length, IfOk, IsOk, OnOk};
ghost use Rattle.std.specs.Io.KnownBytes.{ReadConsumes};
ghost use Rattle.arrayvec.specs.ArrayVec.{array_vec_len};
ghost use Rattle.lines.specs.Output.{start_session};
ghost use Rattle.lines.specs.Answering.{Keeps};
ghost use Rattle.lines.specs.Serving.{Reached, IsOutput, piece_of, Takes, TakesInAll};

use crate::session::Session;
use console::failure;
use std::io::{Eprint, Input, Print, Read, Write};
use std::process::ExitCode;
use std::{fmt, io};

// Why the program stopped before the end of its input.
#[derive(Debug, Drop)]
pub enum ServeError {
    Read(io::Error),
    Write,
}

impl fmt::Display for ServeError {
    fn fmt<W: fmt::Write>(&self, f: &mut fmt::Formatter<W>) -> fmt::Result {
        match self {
            ServeError::Read(e) => write!(f, "a read failed: {e}"),
            ServeError::Write => write!(f, "a write failed: replies are missing"),
        }
    }
}

// The status is a success once the input was read to its end and every reply was written.
pub fn run<R: Input + Print + Eprint>(rt: &R) -> ExitCode
    ensures { (result ≡ ExitCode.SUCCESS) ⊎ (result ≡ ExitCode.FAILURE) }
{
    let mut session = Session::start();
    // A buffer and a count, since that is what `read` fills and gives.
    let mut input = [0u8; 65536];
    let served = serve(
        &mut rt.reader(),
        &mut io::writer(rt),
        &mut session,
        &mut input,
    );
    match served {
        Ok(()) => ExitCode::SUCCESS,
        Err(e) => failure(rt, e),
    }
}

// Without an error, the whole input was taken in: the loop stopped at the end of input, and no error of `take_in` was forgotten.
// A proved loop has to end, and nothing says that the input does. So there is a last turn, which no run comes to: at 65,536 bytes a turn it is
// after 2^63 bytes.
fn serve<R: Read, W: Write>(
    reader: &mut R,
    writer: &mut W,
    session: &mut Session,
    input: &mut [u8; 65536],
) -> Result<(), ServeError>
    requires { Keeps start_session session.old }
    ensures { OnOk result (TakesInAll (R.remaining reader.old) (R.remaining reader.new) session.new) }
{
    for _turn in 0..140737488355328u64 {
        let count = read(reader, input)?;
        take_in(writer, session, count, input)?;
        if count == 0 {
            break;
        }
    }
    Ok(())
}

// The only place where the program reads. Returns the number of bytes at the front of `input`, which is 0 at the end of input. The only error is
// that of a read that failed; `input` may then hold any bytes.
fn read<R: Read>(reader: &mut R, input: &mut [u8]) -> Result<usize, ServeError>
    ensures count { IfOk result (λ n. n ≤ length input.new) }
    ensures size { length input.new ≡ length input.old }
    ensures bytes { ReadConsumes (R.remaining reader.old) (R.remaining reader.new) result input.new }
{
    reader.read(input).map_err(ServeError::Read)
}

// Takes in the `count` bytes that a read left in `input`, and writes the replies to them. Stops at a write that fails. The count stays beside
// `input`: `Read` gives a count, and at the end of input the piece is a byte that is not in the buffer.
fn take_in<W: Write>(
    writer: &mut W,
    session: &mut Session,
    count: usize,
    input: &[u8],
) -> Result<(), ServeError>
    requires reached { Reached session.old }
    requires count_in_bounds { (count ≤ length input.now) × (0 < length input.now) }
    requires input_bound { session.old.lines + length input.now < 2 ^ 64 }
    ensures { Takes (piece_of count (array_vec_len session.old.held) input.now) session.old session.new (IsOk result) }
{
    let mut rest = put_piece(count, session.held.len(), input);
    while !rest.is_empty() {
        rest = session.feed(rest);
        write(writer, &session.out)?;
    }
    Ok(())
}

// "or at the end of input if bytes are left": there the last piece is a byte 10, which ends their line.
fn put_piece(count: usize, held: usize, input: &[u8]) -> &[u8]
    requires { count ≤ length input.now }
    ensures { result.now ≡ piece_of count held input.now }
{
    match (count, held) {
        (0, 0) => b"",
        (0, _) => b"\n",
        _ => &input[..count],
    }
}

// The only place where replies are written.
fn write<W: Write>(writer: &mut W, text: &[u8]) -> Result<(), ServeError>
    requires { IsOutput text.now }
{
    writer.write_all(text).map_err(|_| ServeError::Write)
}
