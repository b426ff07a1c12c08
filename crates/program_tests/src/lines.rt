//! What is told of a line at fault.
use bank_program::{Device, Trouble, Watch, line_note};
use sb_text::read_all;
use std::alloc::Global;
use std::process::Abort;

// This is told of a line, as the third of an input.
fn expect_note(rt: &impl Abort, alloc: Global, line: &[u8], wanted: &str) {
    let note = line_note(alloc, 3, line).expect(rt, "memory for a note");
    assert!(rt; note.as_slice() == wanted.as_bytes(), "{wanted}");
}

#[test]
fn what_the_words_of_a_line_do_not_show(rt: HostRuntime) {
    for (line, wanted) in [
        (
            b"\xef\xbb\xbfbob\t1  \r".as_slice(),
            "smallbank: line 3 ends with a carriage return",
        ),
        (
            b"\xef\xbb\xbfbob\t1  2 ",
            "smallbank: line 3 begins with a byte order mark",
        ),
        (b"bob\t1  2 ", "smallbank: line 3 has a tab"),
        (b"bob 1  2 ", "smallbank: line 3 ends with a space"),
        (b"bob 1  2", "smallbank: line 3 has two spaces in a row"),
        (b"", "smallbank: line 3 is empty"),
    ] {
        expect_note(&rt, rt.alloc(), line, wanted);
    }
}

#[test]
fn lines_as_they_are(rt: HostRuntime) {
    for (line, wanted) in [
        (
            b"deposit Bob 5.00".as_slice(),
            "smallbank: line 3 is: deposit Bob 5.00",
        ),
        (
            b"\x1b[2Jz\xc3\xbcrich\x7f~",
            "smallbank: line 3 is: \\x1b[2Jz\\xc3\\xbcrich\\x7f~",
        ),
        (
            &[b'.'; 81],
            "smallbank: line 3 is: ................................................................................",
        ),
    ] {
        expect_note(&rt, rt.alloc(), line, wanted);
    }
}

// This is told of the line of this number, once the whole input was read.
fn expect_told(rt: &impl Abort, alloc: Global, input: &[u8], number: usize, wanted: Option<&str>) {
    let trouble = Trouble::new(alloc);
    let mut reader = Watch {
        inner: input,
        device: Device::Input,
        trouble: &trouble,
    };
    let read = read_all(alloc, &mut reader).expect(rt, "an input");
    assert!(rt; read.as_slice() == input);
    match (trouble.line_note(alloc, number), wanted) {
        (Some(note), Some(wanted)) => assert!(rt; note.as_slice() == wanted.as_bytes()),
        (None, None) => {}
        _ => assert!(rt; false, "line {number}"),
    }
}

#[test]
fn lines_of_an_input(rt: HostRuntime) {
    let alloc = rt.alloc();
    let input = b"bob 1.00 2.00\nbegin\n\nsteal bob";
    for (number, wanted) in [
        (1, Some("smallbank: line 1 is: bob 1.00 2.00")),
        (3, Some("smallbank: line 3 is empty")),
        (4, Some("smallbank: line 4 is: steal bob")),
        (5, None),
    ] {
        expect_told(&rt, alloc, input, number, wanted);
    }
    expect_told(&rt, alloc, b"", 1, None);
}

#[test]
fn lines_too_far_behind(rt: HostRuntime) {
    let alloc = rt.alloc();
    let mut input = Vec::new(alloc);
    for _ in 0..150_000 {
        input.extend_from_slice(b"begin\n\n").expect(&rt, "memory");
    }
    let first = Some("smallbank: line 2 is empty");
    expect_told(&rt, alloc, &input, 2, first);
    // The first mebibyte ends in the middle of a line, and with its end.
    let last = Some("smallbank: line 299592 is empty");
    expect_told(&rt, alloc, &input, 299_592, last);
    expect_told(&rt, alloc, &input, 299_593, None);
    expect_told(&rt, alloc, &input, 300_000, None);
}
