// Compares captures at the edges of the rules. A line has the new capture, the earlier one, the part returned, and whether the new
// capture is stale.
#![tactic(auto)]

use std::io;
use std::io::Write;

const ENDS: [(&str, &str); 9] = [
    ("chip", "chip"),
    ("chip", "chips"),
    ("chips", "chip"),
    ("chip", "ship"),
    ("chip", "chop"),
    ("chip", "chin"),
    ("", "chip"),
    ("chip", ""),
    ("", ""),
];

// Captures are compared in blocks of 64 bytes, then of 8. These captures have 63 to 129 bytes: one has a byte more than the other, or they differ at
// the first byte of a block, at the last, or in the bytes after the last long block.
const BLOCKS: [(&str, &str); 9] = [
    (
        "0123456789abcdef0123456789abcdef0123456789abcdef0123456789abcde",
        "0123456789abcdef0123456789abcdef0123456789abcdef0123456789abcde",
    ),
    (
        "0123456789abcdef0123456789abcdef0123456789abcdef0123456789abcdef",
        "0123456789abcdef0123456789abcdef0123456789abcdef0123456789abcdef",
    ),
    (
        "0123456789abcdef0123456789abcdef0123456789abcdef0123456789abcdef",
        "0123456789abcdef0123456789abcdef0123456789abcdef0123456789abcdef!",
    ),
    (
        "0123456789abcdef0123456789abcdef0123456789abcdef0123456789abcdef!",
        "0123456789abcdef0123456789abcdef0123456789abcdef0123456789abcdef",
    ),
    (
        "0123456789abcdef0123456789abcdef0123456789abcdef0123456789abcdef",
        "?123456789abcdef0123456789abcdef0123456789abcdef0123456789abcdef",
    ),
    (
        "0123456789abcdef0123456789abcdef0123456789abcdef0123456789abcdef!",
        "0123456789abcdef0123456789abcdef0123456789abcdef0123456789abcde?!",
    ),
    (
        "0123456789abcdef0123456789abcdef0123456789abcdef0123456789abcdef0123456789abcdef0123456789abcdef0123456789abcdef0123456789abcdef!",
        "0123456789abcdef0123456789abcdef0123456789abcdef0123456789abcdef?123456789abcdef0123456789abcdef0123456789abcdef0123456789abcdef!",
    ),
    (
        "0123456789abcdef0123456789abcdef0123456789abcdef0123456789abcdef0123456789abcdef0123456789abcdef0123456789abcdef0123456789abcdef!",
        "0123456789abcdef0123456789abcdef0123456789abcdef0123456789abcdef0123456789abcdef0123456789abcdef0123456789abcdef0123456789abcde?!",
    ),
    (
        "0123456789abcdef0123456789abcdef0123456789abcdef0123456789abcdef0123456789abcdef0123456789abcdef0123456789abcdef0123456789abcdef!",
        "0123456789abcdef0123456789abcdef0123456789abcdef0123456789abcdef0123456789abcdef0123456789abcdef0123456789abcdef0123456789abcdef?",
    ),
];

fn main(rt: HostRuntime) -> io::Result<()> {
    let mut out = io::writer(&rt);
    compare_all(&mut out, ENDS)?;
    compare_all(&mut out, BLOCKS)
}

fn compare_all<W: Write>(out: &mut W, pairs: [(&str, &str); 9]) -> io::Result<()> {
    for (new, earlier) in pairs {
        compare(out, new, earlier)?;
    }
    Ok(())
}

// The brackets show an empty capture too.
fn compare<W: Write>(out: &mut W, new: &str, earlier: &str) -> io::Result<()> {
    let (new_bytes, earlier_bytes) = (new.as_bytes(), earlier.as_bytes());
    let word = if capture::stale(new_bytes, earlier_bytes) {
        "stale"
    } else {
        "fresh"
    };
    write!(out, "[{new}] [{earlier}] [")?;
    out.write_all(capture::leading(new_bytes, earlier_bytes))?;
    writeln!(out, "] {word}")
}
