//! Who keeps a log.
ghost use Rattle.std.specs.Prelude.{◌≡◌, List, None, false, option_map, OnOk, IfErr};
ghost use Rattle.sb_calls.specs.declared.ask.Key.{Key as AnyKey};
ghost use Rattle.sb_calls.specs.declared.call.Call.{Call as AnyCall};
ghost use Rattle.sb_ask_log.specs.Keeping.{IsKeepFault, KeeperGoesOn, KeeperModel, KeepsBeginning};
ghost use Rattle.sb_ask_log.specs.LogFile.{log_digest};

use sb_log::LogFault;
use sb_sequencer::Sequencer;

/// Keeps a sequencer's log where it outlives the process, so that its outcomes can be told.
pub trait Keeper: Drop {
    /// What contracts know of it: which asks it keeps, the opening text of the file in which it keeps
    /// them, whether keeping may fail, and whether it has failed, and keeps nothing more.
    ghost model: { KeeperModel Self };

    /// Keeps a whole log, of which it keeps a beginning.
    ///
    /// Fails with
    /// - [`LogFault::Device`] if the device fails, or failed before: then nothing more is kept,
    /// - [`LogFault::OutOfMemory`] if memory is refused.
    fn keep(&mut self, log: &Sequencer) -> Result<(), LogFault>
        requires { KeepsBeginning model self.old log.now.log }
        ensures kept { OnOk result (model.Keeps self.new log.now.log) }
        // What was kept stays kept, after a fault too.
        ensures stays { KeeperGoesOn model self.old log.now.log self.new log.now.log }
        ensures fault { IfErr result (IsKeepFault model.fails (model.has_failed self.new)) };

    /// The digest of the log that it keeps, if it keeps one in a file.
    fn digest(&self) -> Option<[u8; 32]>
        ensures { (asks : List (AnyKey × AnyCall)) → model.Keeps self.now asks
            → result ≡ option_map (λ text. log_digest text asks) (model.opening self.now) };
}

/// Keeps nothing, and promises nothing.
#[derive(Clone, Copy, Debug)]
pub struct NoKeeper;

impl Keeper for NoKeeper {
    ghost model = { record {
      Keeps = λ keeper asks. Unit {0};
      opening = λ keeper. None;
      fails = false;
      has_failed = λ keeper. false;
    } };

    fn keep(&mut self, _log: &Sequencer) -> Result<(), LogFault> {
        Ok(())
    }

    fn digest(&self) -> Option<[u8; 32]> {
        None
    }
}
