// Writing a reply at the end of `out`; specs/Render.antt says what it looks like. A reply line has at most 76 bytes, the line of a listed word
// at most 15.

ghost use Rattle.std.specs.Prelude.{◌≡◌, ◌+◌, ◌*◌, ◌<◌, ◌≤◌, [], ◌∷◌, ◌++◌, length};
ghost use Rattle.arrayvec.specs.ArrayVec.{array_vec_len};
ghost use Rattle.lines.specs.Render.{digits, field, field_or_dash, reply_line, key_line, key_lines};

use crate::ReplyFields;
use arrayvec::ArrayVec;
use itoa::write_digits;
use std::marker::Model;

// The replies that are not written yet.
pub(crate) type Output = ArrayVec<u8, 131072>;

// A text that is written from its end to its front: the last digit of a number is known first. With this form the program takes 808 instructions
// for a line of input; `write!` takes 973 for the text of a reply line alone. The functions are inlined: so the compiler knows the reply to a line
// that is not read, but for the line number.
#[derive(Drop)]
pub struct Text<const N: usize> {
    bytes: [u8; N],
    from: usize,
}

impl<const N: usize> Model for Text<N> {
    ghost use Rattle.std.specs.Prelude.{ℕ, ◌≤◌, List, drop};

    ghost Value = { List ℕ };

    ghost view = { λ t. drop t.from t.bytes };

    ghost invariant = { λ t. t.from ≤ N };
}

impl<const N: usize> Text<N> {
    pub(crate) fn new() -> Text<N>
        ensures { result ≡ [] }
    {
        Text {
            bytes: [0; N],
            from: N,
        }
    }

    #[inline(always)]
    fn clear(&mut self)
        ensures value { self.new ≡ [] }
        ensures len { length self.new ≡ 0 }
    {
        self.from = N;
    }

    // `from` is written last: read again after the write to `bytes`, it would be loaded anew.
    #[inline(always)]
    fn byte(&mut self, b: u8)
        requires { length self.old < N }
        ensures put { self.new ≡ b ∷ self.old }
        ensures len { length self.new ≡ length self.old + 1 }
    {
        let from = self.from - 1;
        self.bytes[from] = b;
        self.from = from;
    }

    #[inline(always)]
    fn number(&mut self, n: u64)
        requires { length self.old + length (digits n) ≤ N }
        ensures put { self.new ≡ digits n ++ self.old }
        ensures len { length self.new ≡ length (digits n) + length self.old }
    {
        self.from = write_digits(n, &mut self.bytes, self.from);
    }

    #[inline(always)]
    #[tactic(auto, using(crate::proofs::Digits::word_places))]
    fn field(&mut self, n: u32)
        requires { length self.old + 11 ≤ N }
        ensures put { self.new ≡ field n ++ self.old }
        ensures upper_bound { length self.new ≤ length self.old + 11 }
    {
        self.number(n as u64);
        self.byte(b'\t');
    }

    #[inline(always)]
    fn field_or_dash(&mut self, n: Option<u32>)
        requires { length self.old + 11 ≤ N }
        ensures put { self.new ≡ field_or_dash n ++ self.old }
        ensures upper_bound { length self.new ≤ length self.old + 11 }
    {
        match n {
            Some(k) => self.field(k),
            None => {
                self.byte(b'-');
                self.byte(b'\t');
            }
        }
    }

    #[inline(always)]
    fn key_line(&mut self, word: u32)
        requires { length self.old + 15 ≤ N }
        ensures put { self.new ≡ key_line word ++ self.old }
        ensures upper_bound { length self.new ≤ length self.old + 15 }
    {
        self.byte(b'\n');
        self.field(word);
        self.byte(b'y');
        self.byte(b'e');
        self.byte(b'k');
    }

    // "line number from 1, answer number, key or `-`, rows read, moving count, parted by tabs"; and the serial or `-`
    #[inline(always)]
    #[tactic(auto, using(crate::proofs::Digits::line_places))]
    fn reply_line(&mut self, line: u64, fields: ReplyFields)
        requires { length self.old + 76 ≤ N }
        ensures put { self.new ≡ reply_line line fields ++ self.old }
        ensures upper_bound { length self.new ≤ length self.old + 76 }
    {
        self.byte(b'\n');
        self.field_or_dash(fields.serial);
        self.field(fields.moved);
        self.field(fields.rows);
        self.field_or_dash(fields.key);
        self.field(fields.answer);
        self.number(line);
    }

    // The lines of these words; the last one is written first.
    fn key_lines(&mut self, words: &[u32])
        requires { length self.old + 15 * length words.now ≤ N }
        ensures put { self.new ≡ key_lines words.now ++ self.old }
        ensures upper_bound { length self.new ≤ length self.old + 15 * length words.now }
    {
        for word in words.iter().rev() {
            self.key_line(*word);
        }
    }

    // Puts the text at the end of `out`.
    #[inline(always)]
    fn put(&self, out: &mut Output)
        requires { array_vec_len out.old + length self.now ≤ 131072 }
        ensures put { out.new.items ≡ out.old.items ++ self.now }
        ensures len { array_vec_len out.new ≡ array_vec_len out.old + length self.now }
    {
        let bytes = &self.bytes[..];
        out.try_extend_from_slice(&bytes[self.from..]).unwrap();
    }
}

// Room for a reply line and sixteen lines of listed words. A session keeps its text from line to line, so that its bytes are set to zero once and
// not for each line.
pub(crate) type LineText = Text<316>;

// A reply line. The room that `out` must have is no ghost field: each line asks for another.
#[inline(always)]
pub(crate) fn put_reply(out: &mut Output, text: &mut LineText, line: u64, fields: ReplyFields)
    requires { array_vec_len out.old + 76 ≤ 131072 }
    ensures put { out.new.items ≡ out.old.items ++ reply_line line fields }
    ensures upper_bound { array_vec_len out.new ≤ array_vec_len out.old + 76 }
{
    text.clear();
    text.reply_line(line, fields);
    text.put(out);
}

// "After a `list` with answer 0 come lines `key`, tab, word." Up to sixteen lines make one text.
pub(crate) fn put_keys(out: &mut Output, text: &mut LineText, words: &[u32])
    requires { array_vec_len out.old + 15 * length words.now ≤ 131072 }
    ensures { out.new.items ≡ out.old.items ++ key_lines words.now }
{
    for few in words.chunks(16) {
        text.clear();
        text.key_lines(few);
        text.put(out);
    }
}

// A reply line, and the lines of the words that are listed after it. The reply line makes one text with up to sixteen of these.
#[inline(always)]
pub(crate) fn put_answer(
    out: &mut Output,
    text: &mut LineText,
    line: u64,
    fields: ReplyFields,
    words: &[u32],
)
    requires { array_vec_len out.old + 76 + 15 * length words.now ≤ 131072 }
    ensures { out.new.items ≡ out.old.items ++ reply_line line fields ++ key_lines words.now }
{
    let (first, rest) = words.split_at(words.len().min(16));
    text.clear();
    text.key_lines(first);
    text.reply_line(line, fields);
    text.put(out);
    put_keys(out, text, rest);
}
