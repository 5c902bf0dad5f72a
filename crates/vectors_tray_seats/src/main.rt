// Runs the calls by value of crate `tray` on seat records given as data. Some are damaged: no sequence of samples leaves such a record.
//
// A line has eleven numbers, separated by tabs: the length of a tray whose records are all alike; a seat; a sample (width, word, repetition cutoff,
// proportion cutoff); the record (last word, run, window's word, place, count). The reply has the answer number, both alarms and the seat's record
// after the sample. tests/model/vectors.py makes input and output. There is no other input, so lines of another form are not handled.
#![tactic(auto)]

use console::fill;
use std::io;
use std::io::{Input, Write};
use tray::{Sample, Seat};

fn main(rt: HostRuntime) -> io::Result<()> {
    // A buffer and a count, since that is what `fill` fills and gives.
    let mut input = [0u8; 131072];
    let (n, read) = fill(&mut rt.reader(), &mut input);
    reply_to_lines(&mut io::writer(&rt), &input[..n])?;
    read
}

fn reply_to_lines<W: Write>(out: &mut W, input: &[u8]) -> io::Result<()> {
    let mut numbers = [0; 11];
    for line in input.split_inclusive(|byte| *byte == b'\n') {
        if let Some(line) = line.strip_suffix(b"\n") {
            for (i, digits) in line.split(|byte| *byte == b'\t').enumerate() {
                numbers[i % 11] = digits
                    .iter()
                    .fold(0, |number, digit| with_digit(number, *digit));
            }
            reply(out, numbers)?;
        }
    }
    Ok(())
}

// The code of a digit is 48 more than the digit, and 48 is a multiple of 16.
fn with_digit(number: u32, digit: u8) -> u32 {
    number.wrapping_mul(10).wrapping_add(u32::from(digit % 16))
}

// The number and the alarms are written as tray_lines writes them, but with the record behind them: that line is no shorter from two parts.
fn reply<W: Write>(out: &mut W, numbers: [u32; 11]) -> io::Result<()> {
    let [
        length,
        seat,
        width,
        word,
        repetition,
        proportion,
        last,
        run,
        first,
        place,
        count,
    ] = numbers;
    let sample = Sample {
        width,
        word,
        repetition,
        proportion,
    };
    let record = Seat {
        last,
        run,
        word: first,
        place,
        count,
    };
    // As in `tray::take_sample`, a seat that is not in the tray has no record. The line's record is then written unchanged.
    let (verdict, left) = if seat < length {
        let seat = seat as usize;
        (record.verdict(seat, sample), record.after(seat, sample))
    } else {
        (tray::absent(sample), record)
    };
    let alarms = verdict.unwrap_or_default();
    writeln!(
        out,
        "{}\t{}\t{}\t{}\t{}\t{}\t{}\t{}",
        tray::number(verdict),
        u8::from(alarms.repetition),
        u8::from(alarms.proportion),
        left.last,
        left.run,
        left.word,
        left.place,
        left.count
    )
}
