//! Bytes that aren't a frame, and their first fault.
use super::*;

#[test]
fn the_first_fault(rt: HostRuntime) {
    for (digits, fault) in [
        ("", FrameFault::Short),
        ("0000", FrameFault::BadLength),
        ("0041", FrameFault::BadLength),
        ("0040", FrameFault::Short),
        // A byte more, within the stated length and not.
        ("000b0301000000000000000200", FrameFault::BadLength),
        ("000a030100000000000000", FrameFault::Short),
        // With the same fields, tags of no frame.
        ("000a00010000000000000002", FrameFault::UnknownTag),
        ("000a08010000000000000002", FrameFault::UnknownTag),
        ("000a09010000000000000002", FrameFault::UnknownTag),
    ] {
        is_refused(&rt, &bytes(&rt, digits), fault, digits);
    }
    for (body, fault) in [
        (
            "01 00000007 00000001 07 05 616c696365",
            FrameFault::UnknownTag,
        ),
        ("01 00000007 00000001 01 05 616c6963", FrameFault::BadLength),
        // The length of a name is checked before its bytes, which aren't there.
        ("02 0000000000000001 01 15", FrameFault::BadName),
        ("02 0000000000000001 01 00", FrameFault::BadName),
        // A name is checked once all of it is there, and before the amount.
        ("02 0000000000000001 01 05 41", FrameFault::BadLength),
        ("02 0000000000000001 02 03 422f62 00", FrameFault::BadName),
        (
            "02 0000000000000001 02 03 626f62 000000e8d4a51001",
            FrameFault::BadAmount,
        ),
        (
            "02 0000000000000001 06 01 61 01 62 ffffff172b5aefff",
            FrameFault::BadAmount,
        ),
        ("05 00000007 00000001 03", FrameFault::BadStatus),
        // A reply isn't read before it is all there.
        (
            "04 0000000000000002 08 00000000000000",
            FrameFault::BadLength,
        ),
        (
            "04 0000000000000002 08 0000000000000000 00",
            FrameFault::BadReply,
        ),
        (
            "04 0000000000000001 00 000001d1a94a2001",
            FrameFault::BadReply,
        ),
        (
            "04 0000000000000002 01 0000000000000001",
            FrameFault::BadReply,
        ),
        // If the status says that there is no reply, it is spelled as nine zeros.
        (
            "05 00000007 00000001 01 01 0000000000000000",
            FrameFault::BadReply,
        ),
        ("06 00", FrameFault::BadLength),
    ] {
        is_refused(&rt, &frame_bytes(&rt, body), fault, body);
    }
}
