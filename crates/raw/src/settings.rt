// The lines that set something: a word, then numbers, each after one tab. A line with too few or too many numbers, or with a number that is out
// of range, is not read.

use crate::Runner;
use crate::state::BUFFER_WORDS;
use arrayvec::ArrayVec;
use numbers::read_number;
use pretree::Header;

// It is chosen by the word and matched with the numbers: a match on both at once would read the numbers of a line that is a call.
#[derive(Clone, Copy)]
pub enum Setting {
    Header,
    Table,
    Word,
    Buffer,
    Keep,
    Fresh,
}

// What a line sets, by its first word; `None` where it sets nothing.
pub(crate) fn setting_of(line: &[u8]) -> Option<Setting> {
    let word = line.split(|byte| *byte == b'\t').next()?;
    match word {
        b"header" => Some(Setting::Header),
        b"table" => Some(Setting::Table),
        b"word" => Some(Setting::Word),
        b"buffer" => Some(Setting::Buffer),
        b"keep" => Some(Setting::Keep),
        b"fresh" => Some(Setting::Fresh),
        _ => None,
    }
}

// Reads the numbers after a line's first word into an empty vector; `None` where one of them is not read. A line of 256 bytes has no more than 126.
// The vector is lent, because it would be copied twice if it was returned.
pub(crate) fn read_numbers(line: &[u8], values: &mut ArrayVec<u32, 128>) -> Option<()> {
    for field in line.split(|byte| *byte == b'\t').skip(1) {
        values.try_push(read_number(field)?).ok()?;
    }
    Some(())
}

impl Runner {
    // `None` where these values cannot be set; then nothing has changed.
    pub(crate) fn set(&mut self, setting: Setting, values: &[u32]) -> Option<()> {
        match (setting, values) {
            (Setting::Header, [width, count]) => {
                self.state.header = Header {
                    width: *width,
                    count: *count,
                };
                Some(())
            }
            (Setting::Table, [n]) => self.set_table(*n as usize),
            (Setting::Word, [from, words @ ..]) => self.set_words(*from as usize, words),
            (Setting::Buffer, [n]) => self.set_buffer(*n as usize),
            (Setting::Keep, []) => {
                self.state.keep = true;
                Some(())
            }
            (Setting::Fresh, []) => {
                self.state.keep = false;
                Some(())
            }
            _ => None,
        }
    }

    // `table` n: n words, all 0
    fn set_table(&mut self, n: usize) -> Option<()> {
        self.table.get_mut(..n)?.fill(0);
        self.state.size = n;
        Some(())
    }

    // `word` i v v ..: the table's words from word i on
    fn set_words(&mut self, from: usize, words: &[u32]) -> Option<()> {
        let end = from.checked_add(words.len())?;
        if words.is_empty() || self.state.size < end {
            return None;
        }
        self.table[from..end].copy_from_slice(words);
        Some(())
    }

    // `buffer` n: a buffer of n words
    fn set_buffer(&mut self, n: usize) -> Option<()> {
        if BUFFER_WORDS < n {
            return None;
        }
        self.state.room = n;
        Some(())
    }
}
