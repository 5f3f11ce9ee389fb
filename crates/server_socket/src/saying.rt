//! What a client is told that stays.
use crate::connection::Connection;
use crate::turns::Turn;
use devices::NonBlocking;
use std::alloc::Global;
use wire_write::{ServerError, write_err};

impl Connection {
    /// Tells its client an error, behind what it is sent and as far as its socket takes that. Without memory, or where
    /// the connection has closed, it isn't told.
    pub fn tell_error(&mut self, alloc: Global, error: ServerError<'_>, now: u64) -> Turn {
        let mut text = Vec::new(alloc);
        if self.is_over || write_err(&mut text, error).is_err() {
            return Turn::Done;
        }
        let mut writer = NonBlocking::new(&self.socket);
        let turn = self.client.say(text.as_slice(), &mut writer);
        self.note_written(now);
        turn
    }
}
