//! Replies as text.
ghost use Rattle.std.specs.Prelude.{◌≡◌, ◌+◌, ◌≤◌, ◌++◌, length, take, drop};
ghost use Rattle.sb_calls.specs.ReplyText.{reply_text};

use crate::reply::Reply;
use arrayvec::ArrayString;
use sb_amount::{print_total, write_total};

/// The text of a reply, such as `shown 150.00` or `no customer`.
pub fn print_reply(reply: Reply) -> ArrayString<32>
    ensures { result.bytes ≡ reply_text reply }
{
    let mut text = ArrayString::new();
    match reply {
        Reply::Shown(total) => {
            text.push_str("shown ");
            text.push_str(print_total(total).as_str());
        }
        Reply::Done => text.push_str("done"),
        Reply::Penalised => text.push_str("penalised"),
        Reply::NoCustomer => text.push_str("no customer"),
        Reply::SameCustomer => text.push_str("same customer"),
        Reply::Negative => text.push_str("negative"),
        Reply::WouldOverdraw => text.push_str("would overdraw"),
        Reply::OverLimit => text.push_str("over limit"),
    }
    text
}

/// Writes the text of a reply, such as `shown 150.00`, so that it ends at `end`, and answers where
/// it starts. All other bytes stay.
#[inline]
pub fn write_reply(reply: Reply, text: &mut [u8], end: usize) -> usize
    requires { (length (reply_text reply) ≤ end) × (end ≤ length text.old) }
    ensures start { result + length (reply_text reply) ≡ end }
    ensures written { drop result text.new ≡ reply_text reply ++ drop end text.old }
    ensures before { take result text.new ≡ take result text.old }
{
    match reply {
        Reply::Shown(total) => {
            let start = write_total(total, text, end);
            write_word(b"shown ", text, start)
        }
        Reply::Done => write_word(b"done", text, end),
        Reply::Penalised => write_word(b"penalised", text, end),
        Reply::NoCustomer => write_word(b"no customer", text, end),
        Reply::SameCustomer => write_word(b"same customer", text, end),
        Reply::Negative => write_word(b"negative", text, end),
        Reply::WouldOverdraw => write_word(b"would overdraw", text, end),
        Reply::OverLimit => write_word(b"over limit", text, end),
    }
}

// Writes a word so that it ends at `end`, and answers where it starts. It is inlined always, so
// that the copy knows the length of the word.
#[inline(always)]
fn write_word(word: &[u8], text: &mut [u8], end: usize) -> usize
    requires { (length word.now ≤ end) × (end ≤ length text.old) }
    ensures start { result + length word.now ≡ end }
    ensures written { drop result text.new ≡ word.now ++ drop end text.old }
    ensures before { take result text.new ≡ take result text.old }
{
    let start = end - word.len();
    text[start..end].copy_from_slice(word);
    start
}
