// The fields of a reply line. It is no `From<Reply>`: crate raw calls `reply_fields`, and docs/PROMISES.md names it.

ghost use Rattle.std.specs.Prelude.{◌≡◌};
ghost use Rattle.lines.specs.Render.{fields_of, not_read};

use crate::ReplyFields;
use pretree::Reply;

pub fn reply_fields(reply: Reply) -> ReplyFields
    ensures { result ≡ fields_of reply }
{
    let answer = reply.answer;
    ReplyFields {
        answer: answer.number(),
        key: answer.key(),
        rows: reply.rows,
        moved: reply.moved,
        serial: answer.serial(),
    }
}

// Answer 9, "program only: line not read", is a refusal: "counts 0".
pub fn not_read() -> ReplyFields
    ensures { result ≡ not_read }
{
    ReplyFields {
        answer: 9,
        key: None,
        rows: 0,
        moved: 0,
        serial: None,
    }
}
