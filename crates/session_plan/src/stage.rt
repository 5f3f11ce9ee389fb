ghost use Rattle.std.specs.Prelude.{◌≡◌};
ghost use Rattle.session_plan.specs.Replies.{is_closed, is_connected, closed_from, after_error, takes_headers};

use wire_write::ServerError;

/// Where a connection is in its life (docs/PROTOCOL.md, "A connection's life").
#[derive(Clone, Copy, Debug, PartialEq, Eq)]
pub enum Stage {
    /// No CONNECT of the client was accepted yet.
    Fresh,
    /// Its CONNECT was accepted. A verbose client has each accepted message answered by `+OK`; one that declared
    /// headers may send header blocks, and is sent them.
    Connected { verbose: bool, headers: bool },
    /// Nothing more is written to it. Its session may still stand, and then goes with it.
    Closed { session: bool },
}

impl Stage {
    /// Whether nothing more is written.
    pub fn is_closed(self) -> bool
        ensures { result ≡ is_closed self }
    {
        matches!(self, Stage::Closed { .. })
    }

    /// Whether the client's CONNECT was accepted, and nothing has closed the connection since.
    pub fn is_connected(self) -> bool
        ensures { result ≡ is_connected self }
    {
        matches!(self, Stage::Connected { .. })
    }

    /// The stage after a closing text: a session that stood stands still.
    pub fn closed(self) -> Stage
        ensures { result ≡ closed_from self }
    {
        match self {
            Stage::Fresh => Stage::Closed { session: false },
            Stage::Connected { .. } => Stage::Closed { session: true },
            Stage::Closed { session } => Stage::Closed { session },
        }
    }

    /// The stage after an error's text.
    pub fn after_error(self, error: &ServerError<'_>) -> Stage
        ensures { result ≡ after_error error.now self }
    {
        if error.closes() { self.closed() } else { self }
    }

    /// Whether the client declared headers.
    pub fn takes_headers(self) -> bool
        ensures { result ≡ takes_headers self }
    {
        match self {
            Stage::Fresh => false,
            Stage::Connected { headers, .. } => headers,
            Stage::Closed { .. } => false,
        }
    }
}
