//! Notes as text, one line each.
ghost use Rattle.std.specs.Prelude.{◌≡◌, ◌∷◌, [], ◌++◌, codes, decimal, OnOk};
ghost use Rattle.sb_amount.specs.Money.{money};
ghost use Rattle.sb_calls.specs.ReplyText.{reply_text};
ghost use Rattle.sb_rows.specs.Text.{unlines};
ghost use Rattle.schedule_text.specs.NoteText.{audit_line, note_line};

use crate::note::{AuditNote, Column, Note};
use itoa::Buffer;
use sb_amount::print_total;
use sb_calls::{Reply, print_reply};
use std::alloc::AllocError;

/// Writes the line of a note.
///
/// Fails if memory is refused; `out` may then end in a part of the line.
pub fn push_note(note: Note, out: &mut Vec<u8>) -> Result<(), AllocError>
    ensures { OnOk result (out.new.items ≡ out.old.items ++ unlines (note_line note ∷ [])) }
{
    push_words(note, out)?;
    out.extend_from_slice(b"\n")
}

// Writes a note without the end of its line.
fn push_words(note: Note, out: &mut Vec<u8>) -> Result<(), AllocError>
    ensures { OnOk result (out.new.items ≡ out.old.items ++ note_line note) }
{
    let (words, number): (&[u8], u64) = match note {
        Note::New(number) => (b"new ", number),
        Note::Repeat(number) => (b"repeat ", number),
        Note::Mismatch(number) => (b"mismatch ", number),
        Note::LogFull => return out.extend_from_slice(b"log full"),
        Note::Synced(size) => (b"synced ", size),
        Note::Crashed(size) => (b"crashed ", size),
        Note::Sent(position) => (b"sent ", position),
        Note::Resent(count) => (b"resent ", count),
        Note::Accepted(number) => (b"accepted ", number),
        Note::Held(number) => (b"held ", number),
        Note::Gap(size) => (b"gap ", size),
        Note::Busy(size) => (b"busy ", size),
        Note::Recorded(size) => (b"recorded ", size),
        Note::Odd => return out.extend_from_slice(b"odd"),
        Note::Kept(number) => (b"kept ", number),
        Note::OddAnswer(number) => (b"odd ", number),
        Note::Unknown(number) => (b"unknown ", number),
        Note::Took(number) => (b"took ", number),
        Note::HandFull => return out.extend_from_slice(b"hand full"),
        Note::Finished(number, reply) => return push_finished(number, reply, out),
        Note::Stranger(number) => (b"stranger ", number),
        Note::Marked(size) => (b"marked ", size),
        Note::Unfinished => return out.extend_from_slice(b"busy"),
        Note::StoreFault => return out.extend_from_slice(b"store fault"),
        Note::Restarted(size) => (b"restarted ", size),
        Note::Cut(size) => (b"cut ", size),
        Note::Pending(size) => (b"pending ", size),
        Note::Has(size) => (b"has ", size),
        Note::Donor(donor, size) => return push_two(b"donor ", u64::from(donor), size, out),
        Note::Gave(position) => (b"gave ", position),
        Note::Adopted(size) => (b"adopted ", size),
        Note::Behind(size) => (b"behind ", size),
        Note::Audit(found) => return push_audit(found, out),
        Note::Nothing => return out.extend_from_slice(b"nothing"),
    };
    push_numbered(words, number, out)
}

// Writes the result of comparing two replicas.
fn push_audit(found: AuditNote, out: &mut Vec<u8>) -> Result<(), AllocError>
    ensures { OnOk result (out.new.items ≡ out.old.items ++ audit_line found) }
{
    match found {
        AuditNote::Busy(replica) => push_numbered(b"busy ", u64::from(replica), out),
        AuditNote::Apart(first, second) => push_two(b"apart ", first, second, out),
        AuditNote::Differ(Column::Savings, place) => {
            push_numbered(b"differ savings ", place as u64, out)
        }
        AuditNote::Differ(Column::Checking, place) => {
            push_numbered(b"differ checking ", place as u64, out)
        }
        AuditNote::OffBooks(total, expected) => {
            push_total(b"off books ", total, out)?;
            push_total(b" ", expected, out)
        }
        AuditNote::Same(total, overdrawn) => {
            push_total(b"same ", total, out)?;
            push_numbered(b" ", overdrawn as u64, out)
        }
    }
}

// Writes the number of a finished entry, and the reply.
fn push_finished(number: u64, reply: Reply, out: &mut Vec<u8>) -> Result<(), AllocError>
    ensures { OnOk result (out.new.items
        ≡ out.old.items ++ (codes "finished " ++ (decimal number ++ (32 ∷ reply_text reply)))) }
{
    push_numbered(b"finished ", number, out)?;
    out.push(b' ')?;
    out.extend_from_slice(print_reply(reply).as_str().as_bytes())
}

/// Writes some words and a number.
///
/// Fails if memory is refused; `out` may then end in the words alone.
pub fn push_numbered(words: &[u8], number: u64, out: &mut Vec<u8>) -> Result<(), AllocError>
    ensures { OnOk result (out.new.items ≡ out.old.items ++ (words.now ++ decimal number)) }
{
    let mut buffer = Buffer::new();
    out.extend_from_slice(words)?;
    out.extend_from_slice(buffer.format(number).as_bytes())
}

// Writes some words and two numbers.
fn push_two(words: &[u8], first: u64, second: u64, out: &mut Vec<u8>) -> Result<(), AllocError>
    ensures { OnOk result (out.new.items
        ≡ out.old.items ++ (words.now ++ (decimal first ++ (32 ∷ decimal second)))) }
{
    push_numbered(words, first, out)?;
    push_numbered(b" ", second, out)
}

// Writes some words and a total in cents, as money.
fn push_total(words: &[u8], total: i64, out: &mut Vec<u8>) -> Result<(), AllocError>
    ensures { OnOk result (out.new.items ≡ out.old.items ++ (words.now ++ money total)) }
{
    out.extend_from_slice(words)?;
    out.extend_from_slice(print_total(total).as_str().as_bytes())
}
