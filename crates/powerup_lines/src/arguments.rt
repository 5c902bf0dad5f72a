// The program's arguments, in any order.

use std::rt::Env;

#[derive(Clone, Copy)]
pub(crate) struct Arguments {
    // 1 or 2, if an argument names an edition
    pub(crate) edition: Option<u32>,
    // whether --counts is among the arguments
    pub(crate) counts: bool,
}

#[derive(Clone, Copy)]
enum Argument {
    Edition(u32),
    Counts,
}

impl Arguments {
    // Reads two arguments. If both name an edition, the first one holds.
    pub(crate) fn read<R: Env>(rt: &R) -> Arguments {
        let mut arguments = Arguments {
            edition: None,
            counts: false,
        };
        for i in 1..=2 {
            match Argument::read(rt, i) {
                Some(Argument::Edition(number)) => {
                    arguments.edition = arguments.edition.or(Some(number));
                }
                Some(Argument::Counts) => arguments.counts = true,
                None => {}
            }
        }
        arguments
    }
}

impl Argument {
    fn read<R: Env>(rt: &R, i: usize) -> Option<Argument> {
        // A buffer and a count, since that is what `arg` fills and gives.
        let mut space = [0u8; 16];
        let length = rt.arg(i, &mut space).ok()?;
        match &space[..length] {
            b"1" => Some(Argument::Edition(1)),
            b"2" => Some(Argument::Edition(2)),
            b"--counts" => Some(Argument::Counts),
            _ => None,
        }
    }
}
