// The ordered set of words of 1 to 32 bits, as a PreTree in a lent table of rows.
// This file has the types of document 01, "Header and table" and "Answer numbers". The calls are in the modules.
// docs/FORMAT.md describes the table, the ways, the calls and the answers, and says what documents 01 and 02 are.
#![tactic(auto)]

mod add;
mod erase;
mod find;
mod gap;
mod leg;
mod next;
mod prev;
mod seek;
mod table;
mod whole;
mod write;

ghost use Rattle.std.specs.Prelude.{◌≡◌};
ghost use Rattle.pretree.specs.Answer.{number_of, key_of, serial_of};
ghost use Rattle.pretree.specs.Reply.{fresh};

// "The header is two numbers, W and the count of words."
#[derive(Clone, Copy, Debug, PartialEq, Eq)]
pub struct Header {
    pub width: u32,
    pub count: u32,
}

impl Header {
    // "A row is then four words": key, left link, right link and, document 02 §1, the serial.
    pub const ROW: usize = 4;
    // "A link of 0 means none."
    pub const NONE: u32 = 0;
    // "capacity the length divided by 4, at most 65,535"
    pub const MOST: usize = 65535;

    // The header of an empty set of words of `width` bits.
    pub fn fresh(width: u32) -> Self
        ensures { result ≡ fresh width }
    {
        Self { width, count: 0 }
    }
}

// "Every reply is a struct: the kind of answer with its key, and the two row counts beside it." A refusal is an answer like the others, with its
// number. So this is one enum and no `Result`: the demands of document 01 are theorems over it.
#[derive(Clone, Copy, Debug, PartialEq, Eq)]
pub enum Answer {
    Done,
    // `has` found its word, which has this serial.
    Serial(u32),
    Word(u32),
    Distance(u32),
    WrongWidth,
    WrongHeader,
    WordTooWide,
    Damage,
    Full,
    ShortBuffer,
    AlreadyThere,
    NoSuchWord,
}

impl Answer {
    // The documents' number for the answer. A match, since an enum whose variants hold values can't be cast to a number.
    #[tactic(auto, unfolding(crate::specs::Answer::number_of))]
    pub fn number(self) -> u32
        ensures { result ≡ number_of self }
    {
        match self {
            Answer::Done | Answer::Serial(_) | Answer::Word(_) | Answer::Distance(_) => 0,
            Answer::WrongWidth => 1,
            Answer::WrongHeader => 2,
            Answer::WordTooWide => 3,
            Answer::Damage => 4,
            Answer::Full => 5,
            Answer::ShortBuffer => 6,
            Answer::AlreadyThere => 7,
            Answer::NoSuchWord => 8,
        }
    }

    // "the word for `next`, `prev`, `first`, `last`; the distance for `gap`; else none"
    #[tactic(auto, unfolding(crate::specs::Answer::key_of))]
    pub fn key(self) -> Option<u32>
        ensures { result ≡ key_of self }
    {
        match self {
            Answer::Word(k) | Answer::Distance(k) => Some(k),
            _ => None,
        }
    }

    // Document 02 §1: "the serial for a `has` that found its word, `-` elsewhere"
    #[tactic(auto, unfolding(crate::specs::Answer::serial_of))]
    pub fn serial(self) -> Option<u32>
        ensures { result ≡ serial_of self }
    {
        match self {
            Answer::Serial(s) => Some(s),
            _ => None,
        }
    }
}

// "Every reply is a struct: the kind of answer with its key, and the two row counts beside it."
#[derive(Clone, Copy, Debug, PartialEq, Eq)]
pub struct Reply {
    pub header: Header,
    pub answer: Answer,
    pub rows: u32,
    pub moved: u32,
}

// A call, with its numbers: `Add` has the word and its serial. `after`, in specs/Call.antt, says what each answers and leaves.
#[derive(Clone, Copy, Debug, PartialEq, Eq)]
pub enum Call {
    New(u32),
    Add(u32, u32),
    Del(u32),
    Has(u32),
    Next(u32),
    Prev(u32),
    Gap(u32),
    First,
    Last,
    List,
    Audit,
}

// What a push or an erase moves from row to row.
#[derive(Clone, Copy, Debug, Default, PartialEq, Eq)]
pub struct Entry {
    pub key: u32,
    pub serial: u32,
}

#[derive(Clone, Copy, Debug, Default, PartialEq, Eq)]
pub struct Row {
    pub entry: Entry,
    pub left: u32,
    pub right: u32,
}
