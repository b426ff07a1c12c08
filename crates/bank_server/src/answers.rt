//! The answers to the asking lines, and the rows after them.
ghost use Rattle.std.specs.Prelude.{◌≡◌, ◌≤◌, ◌-◌, List, Some, [], ◌∷◌, ◌++◌, drop, length, map, slice_get, decimal, codes, OnOk};
ghost use Rattle.std.specs.List.{All};
ghost use Rattle.sb_rows.specs.Text.{unlines};
ghost use Rattle.sb_calls.specs.Replies.{IsReply};
ghost use Rattle.sb_calls.specs.declared.call.Call.{Call as AnyCall};
ghost use Rattle.sb_calls.specs.declared.reply.Reply.{Reply as AnyReply};
ghost use Rattle.cown_board.specs.Board.{unfinished_of};
ghost use Rattle.bank_server.specs.Execution.{IsOneByOne, HasReplies};
ghost use Rattle.bank_server.specs.PreparedInput.{output_after};
ghost use Rattle.bank_server.specs.Standing.{IsStandingWithin, standing_line, reply_line};

use crate::input::{LogNumber, Standing};
use cown_board::Runs;
use itoa::{Buffer, write_digits};
use sb_calls::{Reply, replies_are_short, write_reply};
use sb_checkpoint::CheckpointStore;
use sb_replica::Replica;
use sb_text::list_rows;
use std::alloc::AllocError;

// The length of the array in which a line is written: more than a number, a space, a reply and a
// line feed take.
const LINE_BYTES: usize = 64;

/// Writes a line for each ask, by its standing in the log that a replica executed, and then the
/// rows and their total.
pub fn push_output<S: CheckpointStore>(
    standings: &[Standing],
    replica: &Replica<S>,
    out: &mut Vec<u8>,
) -> Result<(), AllocError>
    requires ran { (calls : List AnyCall)
        × IsOneByOne replica.now.names calls replica.now.board.opening replica.now.board }
    requires numbers { All (IsStandingWithin (length replica.now.board.log)) standings.now }
    ensures { (calls : List AnyCall)
        → IsOneByOne replica.now.names calls replica.now.board.opening replica.now.board
        → OnOk result (out.new.items ≡ out.old.items
        ++ output_after replica.now.names replica.now.board.opening calls standings.now) }
{
    push_answers(standings, replica, out)?;
    // Nothing is unfinished.
    let columns = replica.final_columns().unwrap();
    list_rows(replica.directory(), columns, out)?;
    Ok(())
}

/// Writes a line for each ask, by its standing in the log, with the replies of the replica that
/// executed the log.
pub fn push_answers<S: CheckpointStore>(
    standings: &[Standing],
    replica: &Replica<S>,
    out: &mut Vec<u8>,
) -> Result<(), AllocError>
    requires idle { unfinished_of replica.now.board ≡ 0 }
    requires earlier { replica.now.board.base_replies ≡ [] }
    requires numbers { All (IsStandingWithin (length replica.now.board.log)) standings.now }
    ensures { (replies : List AnyReply) → HasReplies replica.now.board replies
        → OnOk result (out.new.items
        ≡ out.old.items ++ unlines (map (standing_line replies) standings.now)) }
{
    for standing in standings {
        push_answer(*standing, replica, out)?;
    }
    Ok(())
}

// Writes the line of an ask with this standing in the log.
fn push_answer<S: CheckpointStore>(
    standing: Standing,
    replica: &Replica<S>,
    out: &mut Vec<u8>,
) -> Result<(), AllocError>
    requires idle { unfinished_of replica.now.board ≡ 0 }
    requires earlier { replica.now.board.base_replies ≡ [] }
    requires number { IsStandingWithin (length replica.now.board.log) standing }
    ensures { (replies : List AnyReply) → HasReplies replica.now.board replies
        → OnOk result (out.new.items ≡ out.old.items ++ standing_line replies standing ++ 10 ∷ []) }
{
    match standing {
        Standing::Number(number) => push_reply(number, reply_to(replica, number), out),
        Standing::Mismatch(number) => push_mismatch(number, out),
        Standing::LogFull => out.extend_from_slice(b"log full\n"),
    }
}

/// The reply of a replica to a number of its log.
pub(crate) fn reply_to<S: CheckpointStore>(replica: &Replica<S>, number: LogNumber) -> Reply
    requires idle { unfinished_of replica.now.board ≡ 0 }
    requires earlier { replica.now.board.base_replies ≡ [] }
    requires number { number ≤ length replica.now.board.log }
    ensures value { (replies : List AnyReply) → HasReplies replica.now.board replies
        → slice_get replies (number - 1) ≡ Some result }
    ensures valid { IsReply result }
{
    // Its contract says that each op of the log has a state.
    prove!(replica.idle());
    replica.reply(u64::from(number.value())).unwrap()
}

// Writes the line of a number and its reply.
fn push_reply(number: LogNumber, reply: Reply, out: &mut Vec<u8>) -> Result<(), AllocError>
    ensures { OnOk result (out.new.items ≡ out.old.items ++ reply_line number (Some reply) ++ 10 ∷ []) }
{
    let mut line = [b'\n'; LINE_BYTES];
    let start = write_reply_line(number, reply, &mut line);
    out.extend_from_slice(&line[start..])
}

// Writes the line of a number and its reply from its end, which has the line feed already, and
// answers where it starts.
#[inline]
fn write_reply_line(number: LogNumber, reply: Reply, line: &mut [u8; LINE_BYTES]) -> usize
    requires { drop (LINE_BYTES - 1) line.old ≡ 10 ∷ [] }
    ensures written { drop result line.new ≡ reply_line number (Some reply) ++ 10 ∷ [] }
    ensures within { result ≤ LINE_BYTES }
{
    replies_are_short(reply);
    let space = write_reply(reply, line, LINE_BYTES - 1) - 1;
    line[space] = b' ';
    write_digits(u64::from(number.value()), line, space)
}

// Writes the line of a number that has another call under the same key.
fn push_mismatch(number: LogNumber, out: &mut Vec<u8>) -> Result<(), AllocError>
    ensures { OnOk result (out.new.items ≡ out.old.items ++ (codes "mismatch " ++ decimal number) ++ 10 ∷ []) }
{
    let mut buffer = Buffer::new();
    out.extend_from_slice(b"mismatch ")?;
    out.extend_from_slice(buffer.format(number.value()).as_bytes())?;
    out.push(b'\n')?;
    Ok(())
}
