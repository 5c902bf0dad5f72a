// What several of the programs do with their standard streams: fill a buffer from a reader, find a byte in a line, hold a line that has not
// ended, and say on standard error what went wrong.
#![tactic(auto)]

ghost use Rattle.std.specs.Prelude.{◌≡◌, ◌<◌, ◌≤◌, ◌++◌, eqb, length, take, position, OnOk};
ghost use Rattle.std.specs.Io.KnownBytes.{Consumes, IsAtEnd};

use arrayvec::ArrayVec;
use memchr::memchr;
use std::fmt::Display;
use std::io;
use std::io::{Eprint, Read};
use std::process::ExitCode;

// Reads until the buffer is full, the input ends or a read fails. Returns the number of bytes at the start of the buffer, and the failure.
// No byte that the reader gave is lost, on a failure too; without one, the buffer is full or the input is at its end. A pair and no `Result`, since
// the callers answer the bytes before a failure too. The loop counts: how far a turn goes is what the read gives.
pub fn fill<R: Read>(reader: &mut R, space: &mut [u8]) -> (usize, io::Result<()>)
    ensures within { result.0 ≤ length space.new }
    ensures size { length space.new ≡ length space.old }
    ensures bytes { Consumes (R.remaining reader.old) (R.remaining reader.new)
        (take result.0 space.new) }
    ensures end { OnOk result.1
        (result.0 < length space.new → IsAtEnd (R.remaining reader.new)) }
{
    let mut done = 0;
    while done < space.len() {
        match reader.read(&mut space[done..]) {
            Ok(0) => break,
            Ok(n) => done += n,
            Err(e) => return (done, Err(e)),
        }
    }
    (done, Ok(()))
}

// The place of the first such byte, if there is one.
#[tactic(auto, using(crate::proofs::Placing::is_position))]
pub fn place_of(byte: u8, text: &[u8]) -> Option<usize>
    ensures { result ≡ position (λ b. eqb b byte) text.now }
{
    memchr(byte, text)
}

// Holds a part of a line after what is already held. Bytes past the first N are dropped.
pub fn hold<const N: usize>(held: &mut ArrayVec<u8, N>, part: &[u8])
    ensures { held.new.items ≡ take N (held.old.items ++ part.now) }
{
    let fits = part.len().min(held.remaining_capacity());
    held.try_extend_from_slice(&part[..fits]).unwrap();
}

// The status of a program that could not do all, once it has said why on standard error. The status shows the failure too, so it does not matter
// if the message is not written.
pub fn failure<R: Eprint, D: Display + Drop>(rt: &R, message: D) -> ExitCode
    ensures { result ≡ ExitCode.FAILURE }
{
    let _ = rt.eprintln(message);
    ExitCode::FAILURE
}
