//! The bank with which replicas begin.
use sb_rows::{Opening, read_opening};
use std::process::Abort;

const OPENING: &str = "alice 100.00 50.00\nbob 0.00 20.00\ncarol 10.00 0.00\nbegin\n";

pub(crate) fn opening(rt: &(impl Abort + AllocGlobal)) -> Opening {
    read_opening(rt.alloc(), OPENING.as_bytes()).expect(rt, "an opening")
}
