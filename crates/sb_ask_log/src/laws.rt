//! What holds for the asks in a log's file.
ghost use Rattle.sb_ask_log.specs.Telling.{RecoversWhatItTold};

/// Wherever the machine stops: the log that is read of the file then has the same opening, and begins
/// with all asks that were told, at their places.
pub fn recovers_what_it_told()
    ensures { RecoversWhatItTold }
{}
