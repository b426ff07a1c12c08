//! What is told of a line at fault.
ghost use Rattle.std.specs.Prelude.{◌≡◌, ◌++◌, IfOk, OnOk};
ghost use Rattle.std.specs.List.{flat_map};
ghost use Rattle.bank_program.specs.LineNotes as spec;
ghost use Rattle.bank_program.specs.LineNotes.{line_note, oddity_words, shown_byte};

use itoa::Buffer;
use std::alloc::{AllocError, Global};

// How many bytes of a line are shown.
const SHOWN: usize = 80;

/// What a line has that its words wouldn't show.
#[derive(Clone, Copy, Debug, PartialEq, Eq)]
pub enum Oddity {
    /// It ends with a carriage return, as lines of other systems do.
    CarriageReturn,
    /// It begins with the three bytes by which some editors mark UTF-8.
    ByteOrderMark,
    /// It has a tab.
    Tab,
    /// It ends with a space.
    SpaceAtEnd,
    /// It has two spaces in a row.
    TwoSpaces,
    /// It has no byte.
    Empty,
}

impl Oddity {
    // The words for it.
    fn words(self) -> &'static [u8]
        ensures { result.now ≡ oddity_words self }
    {
        match self {
            Oddity::CarriageReturn => b" ends with a carriage return",
            Oddity::ByteOrderMark => b" begins with a byte order mark",
            Oddity::Tab => b" has a tab",
            Oddity::SpaceAtEnd => b" ends with a space",
            Oddity::TwoSpaces => b" has two spaces in a row",
            Oddity::Empty => b" is empty",
        }
    }
}

/// What a line has that its words wouldn't show, in the order of [`Oddity`]'s variants.
pub fn oddity_of(line: &[u8]) -> Option<Oddity>
    ensures { result ≡ spec.oddity_of line.now }
{
    if line.ends_with(b"\r") {
        Some(Oddity::CarriageReturn)
    } else if line.starts_with(b"\xef\xbb\xbf") {
        Some(Oddity::ByteOrderMark)
    } else if line.contains(&b'\t') {
        Some(Oddity::Tab)
    } else if line.ends_with(b" ") {
        Some(Oddity::SpaceAtEnd)
    } else if has_two_spaces(line) {
        Some(Oddity::TwoSpaces)
    } else if line.is_empty() {
        Some(Oddity::Empty)
    } else {
        None
    }
}

// Whether a space follows a space.
fn has_two_spaces(line: &[u8]) -> bool
    ensures { result ≡ spec.has_two_spaces line.now }
{
    let mut rest = line;
    while let Some((first, others)) = rest.split_first() {
        if *first == b' ' && others.starts_with(b" ") {
            return true;
        }
        rest = others;
    }
    false
}

/// A line about the input's line of this number, from 1: what is odd of it or, if nothing is, its first
/// 80 bytes, of which those that aren't printable ASCII are shown as `\xNN`.
pub fn line_note(alloc: Global, number: usize, line: &[u8]) -> Result<Vec<u8>, AllocError>
    ensures { IfOk result (λ note. note.items ≡ line_note number line.now) }
{
    let mut buffer = Buffer::new();
    let mut note = Vec::from_slice(alloc, b"smallbank: line ")?;
    note.extend_from_slice(buffer.format(number).as_bytes())?;
    match oddity_of(line) {
        Some(oddity) => note.extend_from_slice(oddity.words())?,
        None => push_line(line, &mut note)?,
    }
    Ok(note)
}

// Appends what a line is.
fn push_line(line: &[u8], note: &mut Vec<u8>) -> Result<(), AllocError>
    ensures { OnOk result (note.new.items ≡ note.old.items ++ spec.words_of_line line.now None) }
{
    note.extend_from_slice(b" is: ")?;
    push_shown(&line[..SHOWN.min(line.len())], note)
}

// Appends bytes as they are shown.
fn push_shown(bytes: &[u8], out: &mut Vec<u8>) -> Result<(), AllocError>
    ensures { OnOk result (out.new.items ≡ out.old.items ++ flat_map shown_byte bytes.now) }
{
    for byte in bytes {
        push_byte(*byte, out)?;
    }
    Ok(())
}

// Appends a byte as it is shown.
fn push_byte(byte: u8, out: &mut Vec<u8>) -> Result<(), AllocError>
    ensures { OnOk result (out.new.items ≡ out.old.items ++ shown_byte byte) }
{
    if (32..=126).contains(&byte) {
        out.push(byte)?;
        return Ok(());
    }
    let mut digits = [0u8; 2];
    hex::encode_to_slice([byte], &mut digits).unwrap();
    out.extend_from_slice(b"\\x")?;
    out.extend_from_slice(&digits)
}
