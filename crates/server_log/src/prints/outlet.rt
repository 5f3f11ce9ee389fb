use crate::prints::prints::Prints;
use mio::unix::SourceFd;
use mio::{Events, Interest, Poll, Token};
use std::alloc::Global;
use std::io::{ErrorKind, Write};
use std::net::Net;
use std::os::fd::{AsRawFd, RawFd};
use std::sync::Wait;
use std::time::{Clock, Duration};

/// How many bytes are written at a time: a pipe that is ready takes as many without waiting.
const PIECE: usize = 4096;

/// How long to wait until it is looked whether the end has come, in milliseconds.
const LOOK: u64 = 100;

/// How long what is left may take to be written after the end, in milliseconds.
const GRACE: u64 = 2000;

const OUTLET: Token = Token(0);

/// A way to be told when a descriptor takes bytes. It is never made one that doesn't wait, since others may have it too.
#[derive(Drop)]
struct Readiness {
    poll: Poll,
    events: Events,
    fd: RawFd,
}

impl Readiness {
    /// Returns a way to be told, or `None` where the system tells nothing of this descriptor. A file's is such: it never waits.
    fn of<R: Net>(rt: &R, alloc: Global, fd: RawFd) -> Option<Readiness> {
        let poll = Poll::new(rt).ok()?;
        let events = Events::with_capacity(alloc, 1).ok()?;
        let registry = poll.registry();
        registry
            .register(&mut SourceFd(&fd), OUTLET, Interest::WRITABLE)
            .ok()?;
        Some(Readiness { poll, events, fd })
    }

    /// Returns whether the descriptor takes bytes, which is waited for a while. It is said too where the system can't tell.
    fn is_writable(&mut self) -> bool {
        let registry = self.poll.registry();
        let again = registry.reregister(&mut SourceFd(&self.fd), OUTLET, Interest::WRITABLE);
        if again.is_err() {
            return true;
        }
        let patience = Duration::from_millis(LOOK);
        self.poll.poll(&mut self.events, Some(patience)).is_err() || !self.events.is_empty()
    }
}

/// Where texts are printed.
#[derive(Drop)]
struct Outlet<'a, R, W> {
    rt: &'a R,
    prints: &'a Prints,
    writer: &'a mut W,
    readiness: Option<Readiness>,
    /// Until when what is left may be written, once the end has come.
    until: Option<u64>,
}

impl<R: Wait + Clock, W: Write> Outlet<'_, R, W> {
    /// Returns the moment, in milliseconds, or 0 where the system has no clock.
    fn now(&self) -> u64 {
        match self.rt.monotonic() {
            Ok(time) => u64::try_from(time.as_millis()).unwrap_or(u64::MAX),
            Err(_) => 0,
        }
    }

    /// Returns whether the end came so long ago that nothing more is to be written.
    fn gives_up(&mut self) -> bool {
        if self.until.is_none() && self.prints.has_ended(self.rt) {
            self.until = Some(self.now().saturating_add(GRACE));
        }
        match self.until {
            None => false,
            Some(until) => until <= self.now(),
        }
    }

    /// Waits until the writer takes bytes, and returns true; or false once that is to be given up.
    fn wait(&mut self) -> bool {
        for _ in self.rt.forever() {
            if self.gives_up() {
                return false;
            }
            let is_writable = match &mut self.readiness {
                None => true,
                Some(readiness) => readiness.is_writable(),
            };
            if is_writable {
                return true;
            }
        }
        false
    }

    /// Writes a text, as far as the writer takes it. It returns false once that is to be given up.
    fn print(&mut self, text: &[u8]) -> bool {
        let mut left = text;
        for _ in self.rt.forever() {
            if left.is_empty() {
                return true;
            }
            if !self.wait() {
                return false;
            }
            let piece = &left[..left.len().min(PIECE)];
            match self.writer.write(piece) {
                Ok(0) => return true,
                Ok(count) => left = &left[count..],
                Err(error) if error.kind() == ErrorKind::Interrupted => {}
                Err(_) => return true,
            }
        }
        true
    }
}

/// Prints texts until they have ended, and what is left then for two seconds at most. What the writer doesn't take is lost.
pub fn print_all<'x, R: Wait + Net + Clock, W: Write + AsRawFd>(
    rt: &'x R,
    alloc: Global,
    prints: &'x Prints,
    writer: &'x mut W,
) {
    let readiness = Readiness::of(rt, alloc, writer.as_raw_fd());
    let mut outlet = Outlet {
        rt,
        prints,
        writer,
        readiness,
        until: None,
    };
    for _ in rt.forever() {
        let Some(text) = prints.next(rt) else {
            return;
        };
        if !outlet.print(text.as_slice()) {
            return;
        }
    }
}
