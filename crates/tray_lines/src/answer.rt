// Answering a line.

ghost use Rattle.std.specs.Prelude.{◌≡◌};
ghost use Rattle.tray_lines.specs.Reply.{fields_of, fields_on, tray_on};

use crate::parse::Line;
use tray::{Alarms, Sample, Seat, Verdict};

// The fields of a reply line after its line number. `answer` is the number that the line shows: 9, for a line that is not read, is of no `Verdict`.
// It is a byte, so the length of a reply is bounded.
#[derive(Clone, Copy, Debug, PartialEq, Eq)]
pub struct ReplyFields {
    pub answer: u8,
    pub alarms: Alarms,
}

impl From<Verdict> for ReplyFields {
    ghost from_gives = { λ verdict fields. fields ≡ fields_of verdict };

    #[tactic(auto, using(crate::proofs::Numbers::at_most_14))]
    fn from(verdict: Verdict) -> Self {
        Self {
            answer: tray::number(verdict) as u8,
            alarms: verdict.unwrap_or_default(),
        }
    }
}

// A line that is not read is answer 9.
pub(crate) fn answer_line(tray: &mut [Seat], line: Option<Line>, settings: Sample) -> ReplyFields
    ensures leaves { tray.new ≡ tray_on tray.old line settings }
    ensures answers { result ≡ fields_on tray.old line settings }
{
    match line {
        Some(Line { seat, word }) => {
            tray::take_sample(tray, seat as usize, Sample { word, ..settings }).into()
        }
        None => ReplyFields {
            answer: 9,
            alarms: Alarms::default(),
        },
    }
}
