// The line language of the bench: reading a line, and writing the reply to it.
// Document 01, "The line program"; docs/FORMAT.md, "The line language".
#![tactic(auto)]

// `answer`, `parse` and `reply` are public because crate `raw` uses them too.
pub mod answer;
pub mod parse;
mod put;
pub mod reply;
mod serve;
mod session;

pub use serve::run;

// The fields of a reply line after its line number. `answer` is the number that the line shows: 9, for a line that is not read, is no `Answer`.
#[derive(Clone, Copy, Debug, PartialEq, Eq)]
pub struct ReplyFields {
    pub answer: u32,
    pub key: Option<u32>,
    pub rows: u32,
    pub moved: u32,
    pub serial: Option<u32>,
}
