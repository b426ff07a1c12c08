//! Listings worked by hand.
use super::{FIRST, OPENING, SECOND, expect_text, listed, listed_as_opening, opened};
use checkpoint_text::CheckpointListing;
use sb_rows::read_opening;

const BALANCES_OF_FIRST: &[u8] =
    b"checkpoint 5\ncustomers 3\ntotal 25.00\n0 0.00 0.00\n1 0.00 25.00\n2 0.00 0.00\n";

const BALANCES_OF_SECOND: &[u8] = b"checkpoint 5\ncustomers 3\ntotal 25.00\nopening 180.00\n\
      0 0.00 0.00\n1 0.00 25.00\n2 0.00 0.00\n";

// One customer with -1.50 in checking, and no reply.
const OVERDRAWN: &[u8] = b"SBCKPT02\x00\x00\x00\x00\x00\x00\x00\x00\x00\x00\x00\x01\
\x00\x00\x00\x00\x00\x00\x00\x07\xff\xff\xff\xff\xff\xff\xff\x6a\
\xff\xff\xff\xff\xff\xff\xff\x71\xff\xff\xff\xff\xff\xff\xff\xff";

const BALANCES_OF_OVERDRAWN: &[u8] =
    b"checkpoint 0\ncustomers 1\ntotal -1.43\nopening -0.01\n0 0.07 -1.50\n";

// No customer.
const EMPTY: &[u8] = b"SBCKPT02\x00\x00\x00\x00\x00\x00\x00\x00\x00\x00\x00\x00\
\x00\x00\x00\x00\x00\x00\x00\x00\x00\x00\x00\x00\x00\x00\x00\x00";

const BALANCES_OF_EMPTY: &[u8] = b"checkpoint 0\ncustomers 0\ntotal 0.00\nopening 0.00\n";

#[test]
fn balances_and_checks(rt: HostRuntime) {
    let cases: [(&[u8], &[u8], &[u8]); 4] = [
        (FIRST, BALANCES_OF_FIRST, b"checkpoint 5\n"),
        (SECOND, BALANCES_OF_SECOND, b"checkpoint 5\n"),
        (OVERDRAWN, BALANCES_OF_OVERDRAWN, b"checkpoint 0\n"),
        (EMPTY, BALANCES_OF_EMPTY, b"checkpoint 0\n"),
    ];
    for (bytes, balances, check) in cases {
        let listing = listed(&rt, rt.alloc(), bytes, CheckpointListing::Balances);
        expect_text(&rt, &listing, balances, "balances");
        let listing = listed(&rt, rt.alloc(), bytes, CheckpointListing::Check);
        expect_text(&rt, &listing, check, "a check");
    }
}

#[test]
fn openings_with_the_balances_of_checkpoints(rt: HostRuntime) {
    let cases: [(&[u8], &[u8], &[u8]); 4] = [
        (
            FIRST,
            OPENING,
            b"alice 0.00 0.00\nbob 0.00 25.00\ncarol 0.00 0.00\nbegin\n",
        ),
        (
            SECOND,
            OPENING,
            b"alice 0.00 0.00\nbob 0.00 25.00\ncarol 0.00 0.00\nbegin\n",
        ),
        (
            OVERDRAWN,
            b"dora 0.99 -1.00\nbegin\n",
            b"dora 0.07 -1.50\nbegin\n",
        ),
        (EMPTY, b"begin\n", b"begin\n"),
    ];
    for (bytes, opening, text) in cases {
        let opening = opened(&rt, rt.alloc(), opening);
        let listing = listed_as_opening(&rt, rt.alloc(), bytes, &opening);
        expect_text(&rt, &listing, text, "an opening");
        let again = read_opening(rt.alloc(), text).expect(&rt, "an opening");
        assert!(rt; again.consumed == text.len(), "a run takes it to its end");
    }
}
