//! Listings worked by hand.
use super::expect_bytes;
use sb_rows::{Opening, read_opening};
use sb_text::list_rows;
use std::alloc::Global;
use std::process::Abort;

const OPENING: &[u8] = b"alice 1000.00 310.25\nbob 0.00 -0.01\ncarol 15000.00 -14920.91\nbegin\n";

const LISTED: &[u8] = b"1 done\nalice 1000.00 310.25\nbob 0.00 -0.01\ncarol 15000.00 -14920.91\n\
      total 1389.33\n";

fn opened(rt: &impl Abort, alloc: Global, text: &[u8]) -> Box<Opening> {
    let opening = read_opening(alloc, text).expect(rt, "an opening");
    Box::new(alloc, opening).expect(rt, "memory for a box")
}

#[test]
fn three_customers_and_their_total(rt: HostRuntime) {
    let opening = opened(&rt, rt.alloc(), OPENING);
    let mut out = Vec::from_slice(rt.alloc(), b"1 done\n").expect(&rt, "memory for a line");
    list_rows(&opening.directory, &opening.columns, &mut out).expect(&rt, "memory for rows");
    expect_bytes(&rt, &out, LISTED, "the listing");
}
