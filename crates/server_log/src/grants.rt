use events::Message;
use log_lines::GrantEnd;

/// Who knows why a client's grant to answer allows a message no more.
pub trait GrantEnds {
    /// Returns why the grant that a connection's session has, or had, for a message's subject allows it no more, where
    /// that is known.
    fn grant_end(&self, conn: u64, message: &Message) -> Option<GrantEnd>;
}
