// The tray program, with the arguments W, C1 and C2: a tray of 64 seats, all zeros at the start. It reads lines of seat, tab, word. For each it
// writes the line number, answer number, repetition alarm and proportion alarm, separated by tabs. C1 is the repetition cutoff, C2 the proportion
// cutoff.
#![tactic(auto)]

mod answer;
mod parse;
mod put;
mod serve;

ghost use Rattle.std.specs.Prelude.{◌≡◌, ◌⊎◌};

use console::failure;
use numbers::read_number;
use serve::serve;
use std::env::FillError;
use std::io;
use std::io::{Eprint, Input, Print};
use std::process::ExitCode;
use std::rt::Env;
use tray::Sample;

// The status is a success once every line was answered and every reply was written.
pub fn run<R: Env + Input + Print + Eprint>(rt: &R) -> ExitCode
    ensures { (result ≡ ExitCode.SUCCESS) ⊎ (result ≡ ExitCode.FAILURE) }
{
    let Some(settings) = settings_of(rt) else {
        return failure(
            rt,
            "usage: tray W C1 C2 (word width, repetition cutoff, proportion cutoff), lines of seat, tab, word on standard input",
        );
    };
    match serve(settings, &mut rt.reader(), &mut io::writer(rt)) {
        Ok(()) => ExitCode::SUCCESS,
        Err(e) => failure(rt, format_args!("tray: {e}")),
    }
}

// The three arguments, if there are three and each is a number.
fn settings_of<R: Env>(rt: &R) -> Option<Sample> {
    if has_argument(rt, 4) {
        return None;
    }
    Some(Sample {
        width: argument(rt, 1)?,
        word: 0,
        repetition: argument(rt, 2)?,
        proportion: argument(rt, 3)?,
    })
}

// A buffer and a count, here and below, since that is what `arg` fills and gives.
fn has_argument<R: Env>(rt: &R, i: usize) -> bool {
    let mut text = [0u8; 11];
    !matches!(rt.arg(i, &mut text), Err(FillError::NotPresent))
}

// An argument that is missing, or longer than a number can be, is no number.
fn argument<R: Env>(rt: &R, i: usize) -> Option<u32> {
    let mut text = [0u8; 11];
    let n = rt.arg(i, &mut text).ok()?;
    read_number(&text[..n])
}
