//! How a connection ends that the server closes.
use crate::connection::Connection;
use devices::{NonBlocking, NonBlockingSink, NonBlockingSource};
use std::alloc::Global;
use std::net::Shutdown;
use wire_write::{ServerError, write_err};

/// How many pieces of input are read and dropped at a time, 64 KiB in all.
const PIECES: usize = 16;

/// What became of input that was dropped.
#[derive(Clone, Copy, Debug)]
pub enum Input {
    /// More may have come.
    More,
    /// Nothing more has come yet.
    Later,
    /// The peer has ended, or its socket has failed.
    Over,
}

impl Connection {
    /// Tells its client why it is closed, as far as its socket takes that.
    pub fn tell_last(&self, alloc: Global, why: ServerError) {
        let mut text = Vec::new(alloc);
        if self.client.waits() || write_err(&mut text, why).is_err() {
            return;
        }
        drop(NonBlocking::new(&self.socket).write(text.as_slice()));
    }

    /// Ends what is written to its socket. Returns whether the system could.
    pub fn shut(&self) -> bool {
        self.socket.shutdown(Shutdown::Write).is_ok()
    }

    /// Reads some of what the peer sends, and drops it.
    pub fn drop_input(&self, buf: &mut [u8]) -> Input {
        let mut reader = NonBlocking::new(&self.socket);
        for _ in 0..PIECES {
            match reader.read(buf) {
                Ok(None) => return Input::Later,
                Ok(Some(0)) | Err(_) => return Input::Over,
                Ok(Some(_)) => {}
            }
        }
        Input::More
    }
}
