ghost use Rattle.std.specs.Prelude.{◌≡◌};
ghost use Rattle.events.specs.declared.refusal.HubRefusal.TheVariants.{NoMemory as out_of_memory};

use base::NoMemory;
use std::alloc::AllocFailed;
use std::error::Error;
use std::fmt;

/// Why a command was not carried out. Nothing has changed then. Where several hold, the first of
/// `HistoryFull`, `SessionTaken`, `NoSession`, `SessionLimit`, `NoMemory` is answered.
#[derive(Clone, Copy, Debug, PartialEq, Eq)]
pub enum HubRefusal {
    /// The history holds as many entries as it may, or the last number, 2^64 - 1, has been given.
    HistoryFull,
    /// The connection has no session.
    NoSession,
    /// The connection has a session already.
    SessionTaken,
    /// 4,096 sessions stand.
    SessionLimit,
    /// Memory could not be had.
    NoMemory,
}

/// Why a message was not entered. Nothing has changed then.
#[derive(Clone, Copy, Debug, PartialEq, Eq)]
pub enum PublishRefusal {
    /// It was submitted, and refused for this cause.
    By(HubRefusal),
    /// It was not submitted: its receivers have no room yet, or its publisher has had its share of a turn. It may be offered
    /// again later.
    Held,
}

impl fmt::Display for HubRefusal {
    ghost use Rattle.std.specs.Prelude.{Some};
    ghost use Rattle.events.specs.Refusals.{refusal_text};

    ghost output = { λ refusal. Some (refusal_text refusal) };

    fn fmt<W: fmt::Write>(&self, f: &mut fmt::Formatter<W>) -> fmt::Result {
        match self {
            HubRefusal::HistoryFull => f.write_str("the history is full"),
            HubRefusal::NoSession => f.write_str("the connection has no session"),
            HubRefusal::SessionTaken => f.write_str("the connection has a session already"),
            HubRefusal::SessionLimit => f.write_str("4096 sessions stand"),
            HubRefusal::NoMemory => f.write_str("no memory"),
        }
    }
}

impl Error for HubRefusal {}

impl From<NoMemory> for HubRefusal {
    ghost from_gives = { λ _ refusal. refusal ≡ out_of_memory };

    fn from(_refused: NoMemory) -> HubRefusal {
        HubRefusal::NoMemory
    }
}

impl<T: Drop> From<AllocFailed<T>> for HubRefusal {
    ghost from_gives = { λ _ refusal. refusal ≡ out_of_memory };

    fn from(_refused: AllocFailed<T>) -> HubRefusal {
        HubRefusal::NoMemory
    }
}
