//! A file that grows at its end.
ghost use Rattle.std.specs.Prelude.{◌≡◌, ◌↔◌, ◌++◌, ◌||◌, Bool, length, drop, take, is_err, OnOk, OnErr};
ghost use Rattle.sb_log.specs.LogFiles.{AppendsBytes, AppendsPart, AppendsUpTo, IsCutTo, KeepsSynced, LogFileOf};
ghost use Rattle.sb_log.specs.LogFiles.{MayBeTruncated, StandAt, Stays, SyncsFile, WritesAgain, failed_after_read};

use sb_text::ReadFault;
use std::io;

/// A file that grows at its end, and is cut there.
///
/// What this trait says of its bytes holds for an honest file. No contract of std says what a file
/// of the system holds, so its honesty is a premise: a crash leaves at least the bytes that are
/// synced, and a beginning of those behind them.
pub trait LogFile: Drop {
    /// Its bytes, how many of them a crash leaves for sure, and how many the next sync that answers Ok
    /// takes to the disk for sure.
    ghost model: { Self → LogFileOf };

    /// Whether it holds what the contracts say.
    ghost IsHonest: { Self → Type 0 };

    /// Whether its device has failed.
    ghost has_failed: { Self → Bool };

    /// Appends to a buffer the bytes from a place on: so many, or fewer at the file's end. The file
    /// stays as it is.
    fn read_at(&mut self, at: usize, most: usize, out: &mut Vec<u8>) -> Result<(), ReadFault>
        ensures file { Stays IsHonest model self.old self.new }
        ensures read { IsHonest self.old →
            OnOk result (out.new.items ≡ out.old.items ++ take most (drop at (model self.old).content)) }
        ensures most { OnOk result (AppendsUpTo most out.old.items out.new.items) }
        ensures failed { has_failed self.new ≡ failed_after_read (has_failed self.old) result };

    /// Appends these bytes. After a failure a beginning of them may be there.
    fn append(&mut self, bytes: &[u8]) -> io::Result<()>
        ensures honest { IsHonest self.old ↔ IsHonest self.new }
        ensures ok { IsHonest self.old → OnOk result (AppendsBytes bytes.now (model self.old) (model self.new)) }
        ensures err { IsHonest self.old → OnErr result (AppendsPart bytes.now (model self.old) (model self.new)) }
        ensures failed { has_failed self.new ≡ (has_failed self.old || is_err result) };

    /// Waits until its bytes are on the disk: all that the system doesn't hold for clean. After a
    /// failure nobody knows how many are, and the system may hold any of the others for clean, so that
    /// no later sync takes them to the disk. Those that are written again it does.
    fn sync(&mut self) -> io::Result<()>
        ensures honest { IsHonest self.old ↔ IsHonest self.new }
        ensures ok { IsHonest self.old → OnOk result (SyncsFile (model self.old) (model self.new)) }
        ensures err { IsHonest self.old → OnErr result (KeepsSynced (model self.old) (model self.new)) }
        ensures failed { has_failed self.new ≡ (has_failed self.old || is_err result) };

    /// Cuts it to so many bytes. After a failure this may have happened or not.
    fn cut(&mut self, size: usize) -> io::Result<()>
        ensures honest { IsHonest self.old ↔ IsHonest self.new }
        ensures ok { IsHonest self.old → OnOk result (IsCutTo size (model self.old) (model self.new)) }
        ensures err { IsHonest self.old → OnErr result (MayBeTruncated size (model self.old) (model self.new)) }
        ensures failed { has_failed self.new ≡ (has_failed self.old || is_err result) };

    /// Writes once more the bytes that stand at a place, so that a sync takes them to the disk, even
    /// if the system holds them for clean after a sync that failed. Nothing else changes, after a
    /// failure either.
    fn write_again(&mut self, at: usize, bytes: &[u8]) -> io::Result<()>
        requires { IsHonest self.old → StandAt at bytes.now (model self.old).content }
        ensures file { Stays IsHonest model self.old self.new }
        ensures ok { IsHonest self.old →
            OnOk result (WritesAgain at (length bytes.now) (model self.old) (model self.new)) }
        ensures failed { has_failed self.new ≡ (has_failed self.old || is_err result) };
}
