// Writing a reply line: line number, answer number, repetition alarm and proportion alarm (0 or 1), separated by tabs.

ghost use Rattle.std.specs.Prelude.{◌≡◌, ◌+◌, ◌≤◌, ◌++◌, length};
ghost use Rattle.arrayvec.specs.ArrayVec.{array_vec_len};
ghost use Rattle.tray_lines.specs.Reply.{reply_line};

use crate::answer::ReplyFields;
use arrayvec::ArrayVec;

// The replies that are not written yet.
pub(crate) type Replies = ArrayVec<u8, 4096>;

// Puts a reply line at the end of `replies`. It has at most 29 bytes, so it finds room.
#[tactic(auto, unfolding(crate::specs::Reply::reply_line))]
pub(crate) fn put_reply(replies: &mut Replies, line: u64, fields: ReplyFields)
    requires { array_vec_len replies.old + 32 ≤ 4096 }
    ensures put { replies.new.items ≡ replies.old.items ++ reply_line line fields }
    ensures upper_bound { array_vec_len replies.new ≤ array_vec_len replies.old + 32 }
{
    let mut digits = itoa::Buffer::new();
    put(replies, digits.format(line).as_bytes());
    replies.push(b'\t');
    put(replies, digits.format(fields.answer).as_bytes());
    let repetition = b'0' + u8::from(fields.alarms.repetition);
    let proportion = b'0' + u8::from(fields.alarms.proportion);
    put(replies, &[b'\t', repetition, b'\t', proportion, b'\n']);
}

fn put(replies: &mut Replies, text: &[u8])
    requires { array_vec_len replies.old + length text.now ≤ 4096 }
    ensures put { replies.new.items ≡ replies.old.items ++ text.now }
    ensures len { array_vec_len replies.new ≡ array_vec_len replies.old + length text.now }
{
    replies.try_extend_from_slice(text).unwrap();
}
