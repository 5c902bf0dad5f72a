// Reading a line: specs/Line.antt says what each line means.

ghost use Rattle.std.specs.Prelude.{◌≡◌, [], ◌∷◌, option_copied};
ghost use Rattle.pretree.specs.declared.Call.TheVariants.{Add};
ghost use Rattle.lines.specs.Line.{after_word, if_nothing, parse, read_two};
ghost use Rattle.lines.specs.Head.{by_head};

use console::place_of;
use numbers::read_number;
use pretree::Call;

// The call that a line spells. "Anything else [..] is answer 9." Every word has at least four bytes, with its tab where it has one.
#[tactic(auto, using(crate::proofs::Heads::short_unread, crate::proofs::Heads::long_unread))]
pub fn parse(line: &[u8]) -> Option<Call>
    ensures { result ≡ parse line.now }
{
    if 64 < line.len() {
        return None;
    }
    let (head, rest) = line.split_first_chunk::<4>()?;
    by_head(u32::from_be_bytes(*head), rest)
}

// The head is the first four bytes as one number: byte strings in its place take 18 instructions a line more. Slice patterns on the whole line
// take 20 more, and leave 66 goals that can't name a byte.
#[tactic(auto, unfolding(crate::specs::Head::by_head, crate::specs::Line::after_word))]
fn by_head(head: u32, rest: &[u8]) -> Option<Call>
    ensures { result ≡ by_head head rest.now }
{
    match head {
        // `new`, `add`, `del`, `has` and `gap`, each with its tab
        0x6e657709 => read_number(rest).map(Call::New),
        0x61646409 => add(rest),
        0x64656c09 => read_number(rest).map(Call::Del),
        0x68617309 => read_number(rest).map(Call::Has),
        0x67617009 => read_number(rest).map(Call::Gap),
        // `next` and `prev`, whose tab is in the rest
        0x6e657874 => read_number(after(b'\t', rest)?).map(Call::Next),
        0x70726576 => read_number(after(b'\t', rest)?).map(Call::Prev),
        // `last` and `list`
        0x6c617374 => alone(Call::Last, rest),
        0x6c697374 => alone(Call::List, rest),
        // `first` and `audit`, whose last byte is in the rest
        0x66697273 => alone(Call::First, after(b't', rest)?),
        0x61756469 => alone(Call::Audit, after(b't', rest)?),
        _ => None,
    }
}

// What comes after a byte at the beginning of a text.
#[tactic(auto, unfolding(crate::specs::Line::after_word))]
fn after(byte: u8, text: &[u8]) -> Option<&[u8]>
    ensures { option_copied result ≡ after_word (byte ∷ []) text.now }
{
    match text {
        [first, rest @ ..] if *first == byte => Some(rest),
        _ => None,
    }
}

fn alone(call: Call, rest: &[u8]) -> Option<Call>
    ensures { result ≡ if_nothing call rest.now }
{
    rest.is_empty().then_some(call)
}

// The word and its serial, parted by one tab.
#[tactic(auto, using(crate::proofs::TwoNumbers::no_second))]
fn add(rest: &[u8]) -> Option<Call>
    ensures { result ≡ read_two Add rest.now }
{
    let tab = place_of(b'\t', rest)?;
    let word = read_number(&rest[..tab])?;
    let serial = read_number(&rest[tab + 1..])?;
    Some(Call::Add(word, serial))
}
