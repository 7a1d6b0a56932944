// How the sender of a message is answered, in words.
ghost use Rattle.desk_text.specs.Put.{Put};
ghost use Rattle.desk_text.specs.Replies.{reason_text, reply_text};

use super::pieces::put_code;
use super::put::put;
use paper::Reply;

// A02 alone has a reason code beside it.
fn put_reason_code(line: &mut [u8], at: usize, reply: Reply) -> usize
    ensures { Put at (reason_text reply) result line.old line.new }
{
    if reply.status == 1 {
        return put(line, at, b"");
    }
    let behind = put(line, at, b" with");
    put_code(line, behind, reply.code)
}

// By an acknowledgement with its codes, by the mail, or by the desk's own notice.
pub fn put_reply(line: &mut [u8], at: usize, reply: Reply) -> usize
    ensures { Put at (reply_text reply) result line.old line.new }
{
    if reply.kind == 1 {
        return put(line, at, b"; answered by the uninterpretable-message mail");
    }
    if reply.kind != 0 {
        return put(line, at, b"; answered by a desk notice");
    }
    let a = put(line, at, b"; answered by");
    let b = put_code(line, a, reply.status);
    put_reason_code(line, b, reply)
}
