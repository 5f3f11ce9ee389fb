//! What is written to a connection.
ghost use Rattle.std.specs.Prelude.{◌≡◌};

use crate::connection::Connection;
use crate::turns::Turn;
use devices::NonBlocking;
use events::Port;

/// What comes next of a connection that is written to.
#[derive(Clone, Copy, Debug, PartialEq, Eq)]
pub enum Written {
    /// All is written, and a Take is due.
    Take,
    /// All is written, and what its client is told next has no deliveries before it any more.
    Passed,
    /// Nothing more can be written now. Its socket tells once it can, or it is over.
    Stops,
    /// Nothing more can be written now, and it is looked after until it can.
    Later,
    /// Nothing more is due, or its turn has ended so.
    Ends(Turn),
}

impl Connection {
    ghost use Rattle.server_socket.specs.Blocked.{is_out};
    ghost use Rattle.server_socket.specs.Connections.{all_written, counted_down, may_not_last, next_of, next_of_blocked};

    /// Opens it: its client is sent INFO, as far as its socket takes that.
    pub fn open(&mut self) -> Turn {
        let mut writer = NonBlocking::new(&self.socket);
        self.client.open(&mut writer)
    }

    /// Writes what is kept for its client, as far as its socket takes it, and returns what comes next.
    pub fn write_kept(&mut self, now: u64) -> Written {
        if self.is_over {
            return Written::Stops;
        }
        let mut writer = NonBlocking::new(&self.socket);
        let turn = self.client.flush(&mut writer);
        self.note_written(now);
        match turn {
            Turn::Waits => self.wait(now),
            Turn::Done => self.go_on(),
            _ => Written::Ends(turn),
        }
    }

    /// Returns what comes next where its socket takes nothing now. If it is to be closed, it ends once that took nothing for two
    /// seconds.
    fn wait(&mut self, now: u64) -> Written
        ensures next { result ≡ next_of_blocked (may_not_last self.old) (is_out self.old.blocked.end_at now) }
        ensures counted { self.new ≡ counted_down (may_not_last self.old) now self.old }
    {
        if !self.may_not_last() {
            return Written::Stops;
        }
        if self.blocked.runs_out(now) {
            return Written::Ends(Turn::Failed);
        }
        Written::Later
    }

    /// Returns what comes next once all is written. What its client is told next comes before what has come meanwhile, and that
    /// before the next Take.
    fn go_on(&mut self) -> Written
        ensures next { result ≡ next_of self.old }
        ensures written { self.new ≡ all_written self.old }
    {
        self.blocked.end_at = None;
        if self.due.has_passed() {
            self.due.pass();
            self.has_passed = true;
            return Written::Passed;
        }
        if self.has_passed && self.may_read() {
            return Written::Ends(Turn::Done);
        }
        if self.is_due() {
            return Written::Take;
        }
        Written::Ends(Turn::Done)
    }

    /// Makes one Take of at most so many deliveries, and writes what it gives.
    pub fn drain<P: Port>(&mut self, port: &mut P, most: usize, now: u64) -> Turn
        ensures { P.place port.new ≡ P.place port.old }
    {
        let mut writer = NonBlocking::new(&self.socket);
        let turn = self.client.drain(port, &mut writer, most, now);
        turn
    }

    /// Notes whether its socket has taken all that a Take gave, and `untold`: for how many milliseconds it took nothing of which
    /// no event has told the hub.
    pub fn note_drained(&mut self, untold: u64, now: u64) {
        self.blocked.millis = untold;
        self.note_written(now);
    }
}
