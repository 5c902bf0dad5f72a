// Health tests for a tray of up to 64 chips: the repetition count test and the adaptive proportion test of NIST SP 800-90B, 4.4.1 and
// 4.4.2, sample by sample. Document 02, §6; specs/Seat.antt quotes it and defines the answer to each sample and the record after it.
//
// A caller lends its tray and calls `take_sample`. Two functions touch what is lent, `take_sample` the tray and `take` one record of it. The
// work is done by value.
#![tactic(auto)]

ghost use Rattle.std.specs.Prelude.{◌≡◌, ◌<◌, ◌≤◌, false, ltb, IfOk, IfErr};
ghost use Rattle.tray.specs.Seat.{fresh, window, wrong_width, too_wide, low_cutoff, damaged};
ghost use Rattle.tray.specs.Seat.{repeats, run_with, repetition_alarm, is_window_word, window_word, count_with, proportion_alarm};
ghost use Rattle.tray.specs.Seat.{counted, alarms, verdict, after};
ghost use Rattle.tray.specs.Tray.{Sampled};
ghost use Rattle.tray.specs.Verdict.{number_of};

// "a lent table of seat records, one for each chip, with the last word, its run, the proportion window's word, its place and its count".
// "A fresh record is all zeros", so it is the default.
#[derive(Clone, Copy, Debug, Default, PartialEq, Eq)]
pub struct Seat {
    pub last: u32,
    pub run: u32,
    pub word: u32,
    pub place: u32,
    pub count: u32,
}

// "The word width and the cutoffs are handed in with each sample". `repetition` and `proportion` are the cutoffs of the two tests.
#[derive(Clone, Copy, Debug, PartialEq, Eq)]
pub struct Sample {
    pub width: u32,
    pub word: u32,
    pub repetition: u32,
    pub proportion: u32,
}

// The alarms of the two tests. By default none is raised.
#[derive(Clone, Copy, Debug, Default, PartialEq, Eq)]
pub struct Alarms {
    pub repetition: bool,
    pub proportion: bool,
}

// Why a sample is not counted, with the document's number of each refusal.
#[derive(Clone, Copy, Debug, PartialEq, Eq)]
pub enum Refusal {
    WrongWidth = 1,
    WordTooWide = 3,
    Damage = 4,
    NoSuchSeat = 13,
    LowCutoff = 14,
}

// The answer to a sample that is counted, or to one that is refused.
pub type Verdict = Result<Alarms, Refusal>;

// The document's answer number: 0 for a sample that is counted.
pub fn number(verdict: Verdict) -> u32
    ensures { result ≡ number_of verdict }
{
    match verdict {
        Ok(_) => 0,
        Err(refusal) => refusal as u32,
    }
}

// Takes a sample for one seat of the tray. Every other record stays as it was, and a refusal changes nothing.
pub fn take_sample(tray: &mut [Seat], seat: usize, sample: Sample) -> Verdict
    ensures { Sampled tray.old seat sample tray.new result }
{
    // By index: the library says nothing of what the slice ends as after a `get_mut`.
    if seat < tray.len() {
        tray[seat].take(seat, sample)
    } else {
        absent(sample)
    }
}

// The answer for a seat that has no record. No tray has a seat 64, so the fresh record plays no part.
pub fn absent(sample: Sample) -> Verdict
    ensures { result ≡ verdict false fresh sample }
{
    Seat::fresh().verdict(64, sample)
}

impl Seat {
    // "a run stays at 4,294,967,295 once it is there"
    pub const TOP: u32 = 4294967295;

    pub fn fresh() -> Self
        ensures { result ≡ fresh }
    {
        Self::default()
    }

    // The answer to a sample; `seat` is the number of this record's seat.
    pub fn verdict(self, seat: usize, sample: Sample) -> Verdict
        ensures { result ≡ verdict (ltb seat 64) self sample }
    {
        Ok(self.checked(seat, sample)?.alarms(sample))
    }

    // The record after the sample.
    #[tactic(auto, unfolding(crate::specs::Seat::after))]
    pub fn after(self, seat: usize, sample: Sample) -> Self
        ensures { result ≡ after (ltb seat 64) self sample }
    {
        match self.checked(seat, sample) {
            Ok(checked) => checked.counted(sample.word),
            Err(_) => self,
        }
    }

    // Takes a sample: the answer, and in place of the record the one after the sample.
    #[tactic(auto, unfolding(crate::specs::Seat::after))]
    fn take(&mut self, seat: usize, sample: Sample) -> Verdict
        ensures answers { result ≡ verdict (ltb seat 64) self.old sample }
        ensures leaves { self.new ≡ after (ltb seat 64) self.old sample }
    {
        let checked = self.checked(seat, sample)?;
        *self = checked.counted(sample.word);
        Ok(checked.alarms(sample))
    }

    // The refusals, in the document's order.
    #[tactic(auto, using(crate::proofs::Checks::at_most_32, crate::proofs::Checks::window_bounds, crate::proofs::Checks::undamaged), unfolding(crate::specs::Seat::verdict))]
    fn checked(self, seat: usize, sample: Sample) -> Result<Checked, Refusal>
        ensures this_record { IfOk result (λ c. (c.record ≡ self) × (c.size ≡ window sample.width)) }
        ensures counted { IfOk result (λ c. verdict (ltb seat 64) self sample ≡ Ok (alarms self sample)) }
        ensures refused { IfErr result (λ e. verdict (ltb seat 64) self sample ≡ Err e) }
    {
        if sample.has_wrong_width() {
            return Err(Refusal::WrongWidth);
        }
        if sample.is_too_wide() {
            return Err(Refusal::WordTooWide);
        }
        if seat >= 64 {
            return Err(Refusal::NoSuchSeat);
        }
        if sample.has_low_cutoff() {
            return Err(Refusal::LowCutoff);
        }
        let size = sample.window();
        if self.is_damaged(size) {
            return Err(Refusal::Damage);
        }
        Ok(Checked { record: self, size })
    }

    // Refusal 4.
    #[tactic(auto, unfolding(crate::specs::Seat::damaged))]
    fn is_damaged(self, size: u32) -> bool
        ensures { result ≡ damaged size self }
    {
        self.place >= size || self.count > self.place
    }

    // Whether the word repeats the last one; "a run of 0 means no sample yet".
    #[tactic(auto, unfolding(crate::specs::Seat::repeats))]
    fn repeats(self, word: u32) -> bool
        ensures { result ≡ repeats self word }
    {
        self.run != 0 && self.last == word
    }

    // The run with this word counted. "a run stays at 4,294,967,295 once it is there"
    #[tactic(auto, unfolding(crate::specs::Seat::run_with))]
    fn run_with(self, word: u32) -> u32
        ensures { result ≡ run_with self word }
    {
        if self.repeats(word) {
            self.run.saturating_add(1)
        } else {
            1
        }
    }

    // A cutoff is at most the top of a run, so at the top every repeat alarms.
    #[tactic(auto, using(crate::proofs::Checks::run_decides))]
    fn repetition_alarm(self, cutoff: u32, word: u32) -> bool
        ensures { result ≡ repetition_alarm self cutoff word }
    {
        self.run_with(word) >= cutoff
    }

    // Whether the word is the window's word. A window's first word is.
    #[tactic(auto, unfolding(crate::specs::Seat::is_window_word))]
    fn is_window_word(self, word: u32) -> bool
        ensures { result ≡ is_window_word self word }
    {
        self.place == 0 || self.word == word
    }

    // The window's word after this word. A window's first word becomes it.
    #[tactic(auto, unfolding(crate::specs::Seat::window_word))]
    fn window_word(self, word: u32) -> u32
        ensures { result ≡ window_word self word }
    {
        if self.place == 0 { word } else { self.word }
    }
}

// A record that is not damaged, with the size of its window: a sample can be counted.
#[derive(Clone, Copy)]
struct Checked {
    record: Seat,
    size: u32,
    ghost short: { size ≤ 1024 },
    ghost place: { record.place < size },
    ghost count: { record.count ≤ record.place },
}

impl Checked {
    fn alarms(self, sample: Sample) -> Alarms
        ensures { result ≡ alarms self.record sample }
    {
        Alarms {
            repetition: self.record.repetition_alarm(sample.repetition, sample.word),
            proportion: self.proportion_alarm(sample.proportion, sample.word),
        }
    }

    // The count of the window's word, with this word counted.
    #[tactic(auto, unfolding(crate::specs::Seat::count_with))]
    fn count_with(self, word: u32) -> u32
        ensures { result ≡ count_with self.record word }
    {
        self.record.count + u32::from(self.record.is_window_word(word))
    }

    #[tactic(auto, unfolding(crate::specs::Seat::proportion_alarm))]
    fn proportion_alarm(self, cutoff: u32, word: u32) -> bool
        ensures { result ≡ proportion_alarm self.record cutoff word }
    {
        self.record.is_window_word(word) && self.count_with(word) >= cutoff
    }

    // The record with one more word counted.
    #[tactic(auto, unfolding(crate::specs::Seat::counted))]
    fn counted(self, word: u32) -> Seat
        ensures { result ≡ counted self.size self.record word }
    {
        let last = Seat {
            last: word,
            run: self.record.run_with(word),
            ..Seat::fresh()
        };
        let place = self.record.place + 1;
        if place == self.size {
            return last;
        }
        Seat {
            word: self.record.window_word(word),
            place,
            count: self.count_with(word),
            ..last
        }
    }
}

// A width and a word are judged here as crate `pretree` judges its own. These are two short tests; sharing them would make the tray depend on the
// set's crate.
impl Sample {
    // "the proportion window is 1,024 samples for one-bit words and 512 for wider ones"
    #[tactic(auto, unfolding(crate::specs::Seat::window))]
    fn window(self) -> u32
        ensures { result ≡ window self.width }
    {
        if self.width == 1 { 1024 } else { 512 }
    }

    // Refusal 1.
    #[tactic(auto, unfolding(crate::specs::Seat::wrong_width))]
    fn has_wrong_width(self) -> bool
        ensures { result ≡ wrong_width self.width }
    {
        self.width == 0 || self.width > 32
    }

    // Refusal 3.
    #[tactic(auto, unfolding(crate::specs::Seat::too_wide))]
    fn is_too_wide(self) -> bool
        requires right_width { self.width ≤ 32 }
        ensures { result ≡ too_wide self.width self.word }
    {
        u64::from(self.word) >= 1 << self.width
    }

    // Refusal 14.
    #[tactic(auto, unfolding(crate::specs::Seat::low_cutoff))]
    fn has_low_cutoff(self) -> bool
        ensures { result ≡ low_cutoff self.repetition self.proportion }
    {
        self.repetition < 2 || self.proportion < 2
    }
}
