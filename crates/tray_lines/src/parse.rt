// Reading a line: specs/Line.antt says what each line means.

ghost use Rattle.std.specs.Prelude.{◌≡◌};
ghost use Rattle.tray_lines.specs.Line.{line_of};

use console::place_of;
use numbers::read_number;

// A word for a seat.
#[derive(Clone, Copy, Debug, PartialEq, Eq)]
pub struct Line {
    pub seat: u32,
    pub word: u32,
}

// A line above 64 bytes, or one that is not two numbers and a tab between them, is not read.
#[tactic(auto, using(crate::proofs::Lines::no_tab), unfolding(crate::specs::Line::line_of))]
pub(crate) fn read_line(line: &[u8]) -> Option<Line>
    ensures { result ≡ line_of line.now }
{
    if line.len() > 64 {
        return None;
    }
    let tab = place_of(b'\t', line)?;
    Some(Line {
        seat: read_number(&line[..tab])?,
        word: read_number(&line[tab + 1..])?,
    })
}
