//! The checkpoints that replicas keep, and from which replica another gets a state in place of
//! entries.
ghost use Rattle.std.specs.Prelude.{◌≡◌, Some, slice_get};
ghost use Rattle.sb_sequencer.specs.Donors.{IsDonor};
ghost use Rattle.sb_sequencer.specs.Notes.{after_have, note_of_have};

use crate::note::HaveNote;
use crate::sequencer::Sequencer;

impl Sequencer {
    /// Notes that a replica keeps a checkpoint of this length. The last length received counts,
    /// even if it is below the one before. It allocates nothing.
    pub fn on_have(&mut self, replica: u8, length: u64) -> HaveNote
        ensures note { result ≡ note_of_have self.old replica length }
        ensures state { self.new ≡ after_have self.old replica length }
    {
        if length > self.length() {
            return HaveNote::Odd;
        }
        match self.checkpoints.get_mut(replica as usize) {
            Some(checkpoint) => {
                *checkpoint = length;
                HaveNote::Recorded
            }
            None => HaveNote::Odd,
        }
    }

    // The donor for a replica that has this much of the log.
    fn donor_above(&self, replica: u8, length: u64) -> Option<(u8, u64)>
        requires { slice_get self.now.recorded replica ≡ Some length }
        ensures { IsDonor self.now replica result }
    {
        let checkpoints = self.checkpoints.as_slice();
        let mut donor = None;
        let mut most = length;
        for index in 0..checkpoints.len() {
            let other = index as u8;
            let size = checkpoints[index];
            // Of several with the same length, the first stays.
            if other != replica && size > most {
                most = size;
                donor = Some((other, size));
            }
        }
        donor
    }

    /// The replica from which another gets a state, and the state's length. Of the other replicas
    /// that keep a checkpoint of more of the log than this one has, it is the one with the most; of
    /// several, the first. `None` if there is none, or if this replica doesn't exist. It allocates
    /// nothing.
    pub fn donor(&self, replica: u8) -> Option<(u8, u64)>
        ensures { IsDonor self.now replica result }
    {
        let length = self.recorded_of(replica)?;
        self.donor_above(replica, length)
    }
}
