//! Checkpoints, written and read many times.
ghost use Rattle.std.specs.Prelude.{◌≡◌, ◌≤◌, length, IfOk};
ghost use Rattle.std.specs.List.{All};
ghost use Rattle.sb_calls.specs.Replies.{IsReply};
ghost use Rattle.store_timing.specs.inner.FullCheckpoints.{SpellsFull};
ghost use Rattle.store_timing.specs.Checkpoints.{size_of};

use crate::bench_result::BenchResult;
use crate::fault::Fault;
use crate::opening::open_bank;
use lane_audit::bank_total;
use sb_calls::{LOG_CALLS, Reply};
use sb_checkpoint::{read_checkpoint, write_checkpoint};
use sb_rows::{CUSTOMERS, Columns};
use std::alloc::Global;
use std::time::{Clock, Duration, Instant};

/// Each customer's savings and checking balance.
pub(crate) const BALANCES: &str = "1000.25 -200.75";

/// Writes a checkpoint of the greatest size this often. The result is its size and a sum over its
/// bytes.
pub fn write(clock: &impl Clock, alloc: Global, count: u32) -> Result<BenchResult, Fault>
    ensures { IfOk result (λ measured. measured.length ≡ size_of CUSTOMERS LOG_CALLS) }
{
    let opening = open_bank(alloc, CUSTOMERS as u32, BALANCES)?;
    let replies = all_replies(alloc)?;
    write_often(clock, alloc, &opening.columns, &replies, count)
}

#[tactic(auto, using(crate::proofs::Sizes::size_is))]
fn write_often(
    clock: &impl Clock,
    alloc: Global,
    columns: &Columns,
    replies: &[Reply],
    count: u32,
) -> Result<BenchResult, Fault>
    requires limit { length replies.now ≤ LOG_CALLS }
    requires valid { All IsReply replies.now }
    ensures { IfOk result (λ measured.
        measured.length ≡ size_of (length columns.now.savings) (length replies.now)) }
{
    let opening_total = bank_total(columns);
    let mut sum = 0;
    let start = Instant::now(clock)?;
    for _ in 0..count {
        let bytes = write_checkpoint(alloc, columns, opening_total, replies)?;
        sum = with_last(sum, &bytes);
    }
    let time = start.elapsed(clock)?;
    // Written once more, outside the measured time, for the result.
    let bytes = write_checkpoint(alloc, columns, opening_total, replies)?;
    Ok(BenchResult {
        length: bytes.len() as u64,
        sum: with_all(sum, &bytes),
        time,
    })
}

/// Reads a checkpoint of the greatest size this often. The result is its number of replies, and a
/// sum over what was read.
pub fn read(clock: &impl Clock, alloc: Global, count: u32) -> Result<BenchResult, Fault>
    ensures { IfOk result (λ measured. measured.length ≡ LOG_CALLS) }
{
    let (bytes, opening_total) = written(alloc)?;
    read_often(clock, alloc, &bytes, opening_total, count)
}

/// The checkpoint that is read, and the opening total of its bank.
pub(crate) fn written(alloc: Global) -> Result<(Vec<u8>, i64), Fault>
    ensures { IfOk result (λ made. SpellsFull made.1 made.0.items) }
{
    let opening = open_bank(alloc, CUSTOMERS as u32, BALANCES)?;
    let replies = all_replies(alloc)?;
    write_once(alloc, &opening.columns, &replies)
}

#[tactic(auto, using(crate::proofs::Sizes::is_full))]
fn write_once(alloc: Global, columns: &Columns, replies: &[Reply]) -> Result<(Vec<u8>, i64), Fault>
    requires full { length replies.now ≡ LOG_CALLS }
    requires valid { All IsReply replies.now }
    ensures { IfOk result (λ made. SpellsFull made.1 made.0.items) }
{
    let opening_total = bank_total(columns);
    let bytes = write_checkpoint(alloc, columns, opening_total, replies)?;
    Ok((bytes, opening_total))
}

fn read_often(
    clock: &impl Clock,
    alloc: Global,
    bytes: &[u8],
    opening_total: i64,
    count: u32,
) -> Result<BenchResult, Fault>
    requires { SpellsFull opening_total bytes.now }
    ensures { IfOk result (λ measured. measured.length ≡ LOG_CALLS) }
{
    let mut sum = 0;
    let start = Instant::now(clock)?;
    for _ in 0..count {
        let checkpoint = read_checkpoint(alloc, bytes, CUSTOMERS, opening_total)?;
        sum = with_last_reply(sum, checkpoint.replies());
    }
    let time = start.elapsed(clock)?;
    read_once(alloc, bytes, opening_total, sum, time)
}

// Reads it once more, outside the measured time, for the result.
fn read_once(
    alloc: Global,
    bytes: &[u8],
    opening_total: i64,
    sum: i64,
    time: Duration,
) -> Result<BenchResult, Fault>
    requires { SpellsFull opening_total bytes.now }
    ensures { IfOk result (λ measured. measured.length ≡ LOG_CALLS) }
{
    let checkpoint = read_checkpoint(alloc, bytes, CUSTOMERS, opening_total)?;
    let sum = with_shown(sum, checkpoint.replies());
    Ok(BenchResult {
        length: checkpoint.replies().len() as u64,
        sum: bank_total(checkpoint.columns()).wrapping_add(sum),
        time,
    })
}

// As many replies as a log has; every third one shows a total.
fn all_replies(alloc: Global) -> Result<Vec<Reply>, Fault>
    ensures count { IfOk result (λ replies. length replies.items ≡ LOG_CALLS) }
    ensures valid { IfOk result (λ replies. All IsReply replies.items) }
{
    let mut replies = Vec::with_capacity(alloc, LOG_CALLS)?;
    for index in 0..LOG_CALLS as u32 {
        replies.push(reply_at(index))?;
    }
    Ok(replies)
}

fn reply_at(index: u32) -> Reply
    ensures { IsReply result }
{
    match index % 3 {
        0 => Reply::Shown(i64::from(index)),
        1 => Reply::Done,
        _ => Reply::WouldOverdraw,
    }
}

// A sum with the last byte added.
fn with_last(sum: i64, bytes: &[u8]) -> i64 {
    match bytes {
        [.., last] => sum.wrapping_add(i64::from(*last)),
        [] => sum,
    }
}

// A sum with all bytes added.
fn with_all(sum: i64, bytes: &[u8]) -> i64 {
    let mut sum = sum;
    for byte in bytes {
        sum = sum.wrapping_add(i64::from(*byte));
    }
    sum
}

// The total that a reply shows, or 1.
fn shown(reply: Reply) -> i64 {
    match reply {
        Reply::Shown(total) => total,
        _ => 1,
    }
}

// A sum with what the last reply shows added.
fn with_last_reply(sum: i64, replies: &[Reply]) -> i64 {
    match replies {
        [.., last] => sum.wrapping_add(shown(*last)),
        [] => sum,
    }
}

// A sum with what all replies show added.
fn with_shown(sum: i64, replies: &[Reply]) -> i64 {
    let mut sum = sum;
    for reply in replies {
        sum = sum.wrapping_add(shown(*reply));
    }
    sum
}
