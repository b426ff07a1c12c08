//! Lines and names about the sizes at which they are read in blocks, against plain readers.
use sb_rows::{Name, Words};
use std::alloc::Global;
use std::process::Abort;

// Checks one case of this length, with something at this position.
fn expect_at(rt: &impl Abort, holds: bool, length: usize, position: usize) {
    assert!(rt; holds, "{length} {position}");
}

// Bytes that aren't spaces; some differ from one by a bit.
const NO_SPACES: &[u8] = &[b'a', 0xa0, b'!', 0x1f, 0xff, b'0', 0x60];

// A line of this length, with spaces only at these positions.
fn line_of(rt: &impl Abort, alloc: Global, length: usize, spaces: &[usize]) -> Vec<u8> {
    let mut line = Vec::new(alloc);
    for position in 0..length {
        let other = NO_SPACES[position % NO_SPACES.len()];
        let byte = if spaces.contains(&position) {
            b' '
        } else {
            other
        };
        line.push(byte).expect(rt, "memory for a byte");
    }
    line
}

// Checks that a line has the words that std splits it into.
fn expect_split(rt: &impl Abort, line: &[u8], position: usize) {
    let mut words = Words::of(line);
    for wanted in line.split(|byte| *byte == b' ') {
        expect_at(rt, words.next() == Some(wanted), line.len(), position);
    }
    expect_at(rt, words.next().is_none(), line.len(), position);
}

// Checks lines of this length with a space at each place: alone, before another, and between the
// first and the last byte.
fn expect_splits(rt: &impl Abort, alloc: Global, length: usize) {
    expect_split(rt, line_of(rt, alloc, length, &[]).as_slice(), length);
    for position in 0..length {
        for spaces in [
            [position, position],
            [position, position + 1],
            [0, position],
        ] {
            let line = line_of(rt, alloc, length, &[spaces[0], spaces[1], length - 1]);
            expect_split(rt, line.as_slice(), position);
            if let [front @ .., _] = line.as_slice() {
                expect_split(rt, front, position);
            }
        }
    }
}

const LENGTHS: &[usize] = &[
    0, 1, 2, 16, 17, 18, 32, 33, 48, 49, 63, 64, 65, 66, 127, 128, 129, 130,
];

#[test]
fn spaces_at_each_place(rt: HostRuntime) {
    for length in LENGTHS {
        expect_splits(&rt, rt.alloc(), *length);
    }
}

// Checks which bytes at a place make a text of this length a name, and which don't.
fn expect_name_bytes(rt: &impl Abort, length: usize, position: usize) {
    assert!(rt; position < 21);
    assert!(rt; length <= 21);
    let mut text = [b'z'; 21];
    for byte in 0..=255u8 {
        text[position] = byte;
        let is_name_byte = matches!(byte, b'a'..=b'z' | b'0'..=b'9' | b'_');
        let is_name = Name::new(&text[..length]).is_some();
        expect_at(
            rt,
            is_name == (is_name_byte && length <= 20),
            length,
            position,
        );
    }
}

#[test]
fn each_byte_at_each_place_of_a_name(rt: HostRuntime) {
    for length in 1..=21 {
        for position in 0..length {
            expect_name_bytes(&rt, length, position);
        }
    }
}
