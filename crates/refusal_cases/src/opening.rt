//! The bank of the cases.

use crate::fault::CaseFault;
use crate::report::Report;
use sb_rows::{Opening, OpeningFault, read_opening};
use std::alloc::Global;

const OPENING: &[u8] = b"alice 100.00 50.00\nbob 0.00 20.00\ncarol 10.00 0.00\nbegin\n";

/// The opening, read.
pub(crate) fn read(alloc: Global, report: &mut Report) -> Result<Opening, CaseFault> {
    match read_opening(alloc, OPENING) {
        Err(OpeningFault::OutOfMemory) => {
            report.refused("read_opening")?;
            Ok(read_opening(alloc, OPENING)?)
        }
        read => Ok(read?),
    }
}
