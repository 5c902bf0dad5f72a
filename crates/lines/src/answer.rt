// Running a call that was read from a line.

ghost use Rattle.std.specs.Prelude.{◌≡◌};
ghost use Rattle.pretree.specs.Call.{after};
ghost use Rattle.lines.specs.Answering.{Runs};

use pretree::{Answer, Call, Header, Reply};

// The reply to a call, and how many words of the buffer are listed after it.
#[derive(Clone, Copy, Debug, PartialEq, Eq)]
pub struct CallResult {
    pub reply: Reply,
    pub listed: u32,
}

fn unlisted(reply: Reply) -> CallResult
    ensures { (result.reply ≡ reply) × (result.listed ≡ 0) }
{
    CallResult { reply, listed: 0 }
}

#[tactic(auto, unfolding(pretree::specs::Call::after, crate::specs::Output::listed_by))]
pub fn run(call: Call, header: Header, table: &mut [u32], words: &mut [u32]) -> CallResult
    ensures { Runs call (after call header table.old words.old) result table.new words.new }
{
    match call {
        Call::New(width) => unlisted(header.new(table, width)),
        Call::Add(k, serial) => unlisted(header.add(table, k, serial)),
        Call::Del(k) => unlisted(header.del(table, k)),
        Call::Has(k) => unlisted(header.has(table, k)),
        Call::Next(k) => unlisted(header.next(table, k)),
        Call::Prev(k) => unlisted(header.prev(table, k)),
        Call::Gap(k) => unlisted(header.gap(table, k)),
        Call::First => unlisted(header.first(table)),
        Call::Last => unlisted(header.last(table)),
        Call::Audit => unlisted(header.audit(table)),
        // "After a `list` with answer 0"
        Call::List => {
            let reply = header.list(table, words);
            match reply.answer {
                Answer::Done => CallResult {
                    reply,
                    listed: reply.header.count,
                },
                _ => unlisted(reply),
            }
        }
    }
}
