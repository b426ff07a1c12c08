//! The states of a behaviour.
ghost use Rattle.std.specs.Prelude.{◌≡◌};
ghost use Rattle.cown_board.specs.State.{is_waiting, finished_reply};

use sb_calls::Reply;

/// The state of a behaviour that was submitted to a board.
#[derive(Clone, Copy, Debug)]
pub enum State {
    /// It hasn't been handed out yet.
    Waiting,
    /// It has been handed out.
    Out,
    /// It is finished, with this reply.
    Finished(Reply),
}

impl State {
    // Whether it hasn't been handed out yet.
    pub(crate) fn waits(self) -> bool
        ensures { result ≡ is_waiting self }
    {
        matches!(self, State::Waiting)
    }

    // The reply, if it is finished.
    pub(crate) fn final_reply(self) -> Option<Reply>
        ensures { result ≡ finished_reply self }
    {
        match self {
            State::Finished(reply) => Some(reply),
            State::Waiting | State::Out => None,
        }
    }
}
