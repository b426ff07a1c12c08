//! What holds for records, and for the life of a log's file.
ghost use Rattle.std.specs.Prelude.{◌≡◌, List, ℕ, ◌++◌};
ghost use Rattle.sb_log.specs.Lives.{KeepsWhatItTold, TellsForGood};
ghost use Rattle.sb_log.specs.Records.{IsBody, record_after};

/// No record is a beginning of another one at the same place: bytes that begin with one begin with no
/// other.
pub fn one_record()
    ensures { (before a b x y : List ℕ) → IsBody a → IsBody b
        → record_after before a ++ x ≡ record_after before b ++ y → (a ≡ b) × (x ≡ y) }
{}

/// Whatever was appended and synced, whatever failed, wherever the machine stopped and however often
/// the file was cut and read back: what is read of it begins with every body that was told, is a
/// beginning of those that were given, in order, and has a torn end.
pub fn keeps_what_it_told()
    ensures { KeepsWhatItTold }
{}

/// What was told once stays in the log, at its place, through all that comes later.
pub fn tells_for_good()
    ensures { TellsForGood }
{}
