//! What is told of a session that is over.
use bank_clients::Traffic;
use bank_server::AskCounts;
use jiff::Timestamp;
use std::fmt;
use std::time::Clock;

/// What is told of a session that is over: when, whose it was, how many asks it had, how many of them were
/// new and how many repeats, how many bytes came and went, and how many seconds it lasted.
#[derive(Clone, Copy)]
pub struct SessionNote {
    /// When it was over, in seconds since 1970, if the clock says it.
    pub second: Option<i64>,
    /// Its asks.
    pub counts: AskCounts,
    /// What went over its connection.
    pub traffic: Traffic,
}

impl SessionNote {
    /// Of a session that is over now.
    pub(crate) fn new(clock: &impl Clock, counts: AskCounts, traffic: Traffic) -> SessionNote {
        let second = match Timestamp::now(clock) {
            Ok(now) => Some(now.as_second()),
            Err(_) => None,
        };
        SessionNote {
            second,
            counts,
            traffic,
        }
    }

    /// Tells it on standard error. If that fails, the bank is served all the same.
    pub(crate) fn print_to_stderr(&self, rt: &HostRuntime) {
        let _ = eprintln!(rt; "{self}");
    }
}

impl fmt::Display for SessionNote {
    fn fmt<W: fmt::Write>(&self, f: &mut fmt::Formatter<W>) -> fmt::Result {
        f.write_str("smallbank: ")?;
        self.write_origin(f)?;
        let AskCounts {
            entries,
            repeats,
            ..
        } = self.counts;
        let asks = self.counts.asks();
        write!(f, "asks {asks} new {entries} repeats {repeats} ")?;
        self.write_traffic(f)
    }
}

impl SessionNote {
    // When it was over, and whose it was, as far as that is known.
    fn write_origin<W: fmt::Write>(&self, f: &mut fmt::Formatter<W>) -> fmt::Result {
        if let Some(second) = self.second {
            if let Ok(time) = Timestamp::from_second(second) {
                write!(f, "{time} ")?;
            }
        }
        match self.traffic.peer {
            Some(peer) => write!(f, "{peer} "),
            None => Ok(()),
        }
    }

    fn write_traffic<W: fmt::Write>(&self, f: &mut fmt::Formatter<W>) -> fmt::Result {
        let Traffic {
            read,
            written,
            lasted,
            ..
        } = self.traffic;
        let (seconds, millis) = (lasted.as_secs(), lasted.subsec_millis());
        write!(
            f,
            "read {read} written {written} seconds {seconds}.{millis:03}"
        )
    }
}
