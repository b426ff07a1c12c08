//! The output of the cases.

use schedule_text::push_numbered;
use std::alloc::{AllocError, Global};

// Room for the whole output, so that reporting takes no memory.
const ROOM: usize = 8_192;

// Room for the output of one call.
const CALL_ROOM: usize = 512;

const DIGITS: &[u8; 16] = b"0123456789abcdef";

/// The output of the cases, line by line.
#[derive(Drop)]
pub(crate) struct Report {
    /// The lines so far.
    pub(crate) text: Vec<u8>,
    /// What the current call wrote. It is reported with the call, and then emptied.
    pub(crate) written: Vec<u8>,
    /// How many calls were refused memory.
    pub(crate) refusals: u32,
}

impl Report {
    /// An empty report, with room for the whole output.
    pub(crate) fn new(alloc: Global) -> Result<Report, AllocError> {
        let text = Vec::with_capacity(alloc, ROOM)?;
        let written = Vec::with_capacity(alloc, CALL_ROOM)?;
        Ok(Report {
            text,
            written,
            refusals: 0,
        })
    }

    /// Reports that a call was refused memory, with the number of bytes that it had written.
    pub(crate) fn refused(&mut self, call: &str) -> Result<(), AllocError> {
        self.refusals = self.refusals.saturating_add(1);
        self.text.extend_from_slice(b"refused ")?;
        self.text.extend_from_slice(call.as_bytes())?;
        push_numbered(b" after ", self.written.len() as u64, &mut self.text)?;
        self.written.clear();
        Ok(self.text.push(b'\n')?)
    }

    /// Reports the text that a call wrote, as it is.
    pub(crate) fn add_text(&mut self) -> Result<(), AllocError> {
        self.text.extend_from_slice(&self.written)?;
        self.written.clear();
        Ok(())
    }

    /// Reports the bytes that a call wrote, by their digits, on a line.
    pub(crate) fn add_bytes(&mut self) -> Result<(), AllocError> {
        for byte in &self.written {
            self.text.push(DIGITS[(*byte / 16) as usize])?;
            self.text.push(DIGITS[(*byte % 16) as usize])?;
        }
        self.written.clear();
        Ok(self.text.push(b'\n')?)
    }
}
