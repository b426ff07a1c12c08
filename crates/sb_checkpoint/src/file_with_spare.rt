//! A file that is replaced as a whole.
ghost use Rattle.std.specs.Prelude.{◌≡◌, ℕ, Option, None, Some, List, IfOk, OnOk, OnErr, ◌⊎◌, option_map};
ghost use Rattle.sb_checkpoint.specs.Stores.{ReportsSame};

use crate::store::{StoreFault, is_same};
use std::io;

/// A file with a spare beside it, which can replace it.
///
/// What this trait says of the bytes in the two holds for an honest file. No contract of std says
/// what a file of the system holds, so its honesty is a premise.
pub trait FileWithSpare: Drop {
    /// What the file holds, if it exists.
    ghost content: { Self → Option (List ℕ) };

    /// What the spare holds, if it exists.
    ghost spare: { Self → Option (List ℕ) };

    /// Whether the two hold what the contracts say.
    ghost IsHonest: { Self → Type 0 };

    /// Creates the spare or truncates it, writes these bytes to it and syncs it. After a failure it
    /// may exist, and may hold anything. The file stays as it is.
    fn write_spare(&mut self, bytes: &[u8]) -> io::Result<()>
        ensures honest { IsHonest self.old → IsHonest self.new }
        ensures unchanged { IsHonest self.old → content self.new ≡ content self.old }
        ensures written { IsHonest self.old → OnOk result (spare self.new ≡ Some bytes.now) };

    /// Puts the spare in the place of the file, durably. After a failure this may have happened or
    /// not.
    fn place_spare(&mut self) -> io::Result<()>
        ensures honest { IsHonest self.old → IsHonest self.new }
        ensures placed { IsHonest self.old → OnOk result (content self.new ≡ spare self.old) }
        ensures err { IsHonest self.old →
            OnErr result ((content self.new ≡ content self.old) ⊎ (content self.new ≡ spare self.old)) }
        ensures no_spare { IsHonest self.old → OnOk result (spare self.new ≡ None) };

    /// Removes the spare, durably. Fails also if it doesn't exist. The file stays as it is.
    fn remove_spare(&mut self) -> io::Result<()>
        ensures honest { IsHonest self.old → IsHonest self.new }
        ensures unchanged { IsHonest self.old → content self.new ≡ content self.old }
        ensures no_spare { IsHonest self.old → OnOk result (spare self.new ≡ None) };

    /// What the file holds, or `None` if it doesn't exist. Nothing changes.
    fn read(&mut self) -> Result<Option<Vec<u8>>, StoreFault>
        ensures honest { IsHonest self.old → IsHonest self.new }
        ensures unchanged { IsHonest self.old →
            (content self.new ≡ content self.old) × (spare self.new ≡ spare self.old) }
        ensures value { IsHonest self.old
            → IfOk result (λ found. option_map (λ bytes. bytes.items) found ≡ content self.old) };

    /// Whether the file holds exactly these bytes. Nothing changes.
    fn has_content(&mut self, bytes: &[u8]) -> Result<bool, StoreFault>
        ensures honest { IsHonest self.old → IsHonest self.new }
        ensures unchanged { IsHonest self.old →
            (content self.new ≡ content self.old) × (spare self.new ≡ spare self.old) }
        ensures value { IfOk result (λ same. (found : Option (List ℕ)) × ReportsSame bytes.now same found
            × (IsHonest self.old → found ≡ content self.old)) }
    {
        Ok(is_same(&self.read()?, bytes))
    }
}
