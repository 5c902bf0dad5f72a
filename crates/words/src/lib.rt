// The calls of `pretree` for a program in C, as tests/speed calls them: plain numbers and a table of 32-bit words go in, and the reply comes
// back as seven numbers. Each function is its call and adds nothing, so a caller may give any numbers: a refusal is an answer. C needs a symbol for
// each call, so the eleven stand one by one.
// A slice is a pointer and a number of words, in C's order of arguments; `reply` is a pointer to seven words.
#![tactic(auto)]

ghost use Rattle.std.specs.Prelude.{◌≡◌};
ghost use Rattle.pretree.specs.Find.{has_reply, next_reply, prev_reply, first_reply, last_reply, gap_reply};
ghost use Rattle.pretree.specs.Add.{entry_for, add_outcome};
ghost use Rattle.pretree.specs.Del.{del_outcome};
ghost use Rattle.pretree.specs.Whole.{new_reply, new_table, audit_reply, list_reply, list_buffer};
ghost use Rattle.words.specs.Packed.{header_of, packed};

use pretree::{Header, Reply};

// It is no `From`, since both types are of other crates.
#[tactic(auto, unfolding(crate::specs::Packed::packed))]
fn packed(reply: Reply) -> [u32; 7]
    ensures { result ≡ packed reply }
{
    let answer = reply.answer;
    [
        answer.number(),
        answer.key().unwrap_or(0),
        reply.rows,
        reply.moved,
        answer.serial().unwrap_or(0),
        reply.header.width,
        reply.header.count,
    ]
}

#[unsafe(no_mangle)]
pub extern "C" fn words_has(width: u32, count: u32, table: &[u32], word: u32, reply: &mut [u32; 7])
    ensures reply { reply.new ≡ packed (has_reply (header_of width count) table.now word) }
{
    let header = Header { width, count };
    *reply = packed(header.has(table, word));
}

#[unsafe(no_mangle)]
pub extern "C" fn words_next(width: u32, count: u32, table: &[u32], word: u32, reply: &mut [u32; 7])
    ensures reply { reply.new ≡ packed (next_reply (header_of width count) table.now word) }
{
    let header = Header { width, count };
    *reply = packed(header.next(table, word));
}

#[unsafe(no_mangle)]
pub extern "C" fn words_prev(width: u32, count: u32, table: &[u32], word: u32, reply: &mut [u32; 7])
    ensures reply { reply.new ≡ packed (prev_reply (header_of width count) table.now word) }
{
    let header = Header { width, count };
    *reply = packed(header.prev(table, word));
}

#[unsafe(no_mangle)]
pub extern "C" fn words_gap(width: u32, count: u32, table: &[u32], word: u32, reply: &mut [u32; 7])
    ensures reply { reply.new ≡ packed (gap_reply (header_of width count) table.now word) }
{
    let header = Header { width, count };
    *reply = packed(header.gap(table, word));
}

#[unsafe(no_mangle)]
pub extern "C" fn words_first(width: u32, count: u32, table: &[u32], reply: &mut [u32; 7])
    ensures reply { reply.new ≡ packed (first_reply (header_of width count) table.now) }
{
    let header = Header { width, count };
    *reply = packed(header.first(table));
}

#[unsafe(no_mangle)]
pub extern "C" fn words_last(width: u32, count: u32, table: &[u32], reply: &mut [u32; 7])
    ensures reply { reply.new ≡ packed (last_reply (header_of width count) table.now) }
{
    let header = Header { width, count };
    *reply = packed(header.last(table));
}

#[unsafe(no_mangle)]
pub extern "C" fn words_audit(width: u32, count: u32, table: &[u32], reply: &mut [u32; 7])
    ensures reply { reply.new ≡ packed (audit_reply (header_of width count) table.now) }
{
    let header = Header { width, count };
    *reply = packed(header.audit(table));
}

#[unsafe(no_mangle)]
pub extern "C" fn words_add(
    width: u32,
    count: u32,
    table: &mut [u32],
    word: u32,
    serial: u32,
    reply: &mut [u32; 7],
)
    ensures reply { reply.new ≡ packed (add_outcome (header_of width count) table.old (record { key = word; serial = serial })).reply }
    ensures table { table.new ≡ (add_outcome (header_of width count) table.old (record { key = word; serial = serial })).table }
{
    let header = Header { width, count };
    *reply = packed(header.add(table, word, serial));
}

#[unsafe(no_mangle)]
pub extern "C" fn words_del(
    width: u32,
    count: u32,
    table: &mut [u32],
    word: u32,
    reply: &mut [u32; 7],
)
    ensures reply { reply.new ≡ packed (del_outcome (header_of width count) table.old word).reply }
    ensures table { table.new ≡ (del_outcome (header_of width count) table.old word).table }
{
    let header = Header { width, count };
    *reply = packed(header.del(table, word));
}

#[unsafe(no_mangle)]
pub extern "C" fn words_new(
    width: u32,
    count: u32,
    table: &mut [u32],
    bits: u32,
    reply: &mut [u32; 7],
)
    ensures reply { reply.new ≡ packed (new_reply (header_of width count) bits) }
    ensures table { table.new ≡ new_table table.old bits }
{
    let header = Header { width, count };
    *reply = packed(header.new(table, bits));
}

#[unsafe(no_mangle)]
pub extern "C" fn words_list(
    width: u32,
    count: u32,
    table: &[u32],
    buffer: &mut [u32],
    reply: &mut [u32; 7],
)
    ensures reply { reply.new ≡ packed (list_reply (header_of width count) table.now buffer.old) }
    ensures buffer { buffer.new ≡ list_buffer (header_of width count) table.now buffer.old }
{
    let header = Header { width, count };
    *reply = packed(header.list(table, buffer));
}
