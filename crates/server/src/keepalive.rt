//! How the system looks after clients that vanish.
use libc::net as c;
use mio::net::TcpListener;
use std::io;
use std::os::fd::{AsRawFd, RawFd};

/// How many probes go unanswered before the system closes a connection.
const PROBES: u64 = 3;

/// Has the system look after each connection that the listener accepts: one that was silent for so many seconds is
/// probed, three times and a third of that apart, and fails if no probe is answered. It fails too if bytes stay
/// unacknowledged for as long in all. With 0 seconds nothing is asked of the system. The error is the system's.
pub(crate) fn look_after_clients(listener: &TcpListener, seconds: u64) -> io::Result<()> {
    if seconds == 0 {
        return Ok(());
    }
    let pause = (seconds / PROBES).max(1);
    let longest = seconds.saturating_add(pause.saturating_mul(PROBES));
    set_options(
        listener.as_raw_fd(),
        seconds,
        pause,
        longest.saturating_mul(1000),
    )
}

/// Sets the options of a socket, which those that it accepts have too: seconds of silence, seconds between two probes,
/// and milliseconds in which bytes are to be acknowledged.
fn set_options(socket: RawFd, silence: u64, pause: u64, patience: u64) -> io::Result<()> {
    let (probed, kept) = (value_of(silence), value_of(1));
    let (paused, probes) = (value_of(pause), value_of(PROBES));
    let acknowledged = value_of(patience);
    check(unsafe { c::setsockopt(socket, c::IPPROTO_TCP, c::TCP_KEEPIDLE, &probed, 4) })?;
    check(unsafe { c::setsockopt(socket, c::IPPROTO_TCP, c::TCP_KEEPINTVL, &paused, 4) })?;
    check(unsafe { c::setsockopt(socket, c::IPPROTO_TCP, c::TCP_KEEPCNT, &probes, 4) })?;
    check(unsafe {
        c::setsockopt(
            socket,
            c::IPPROTO_TCP,
            c::TCP_USER_TIMEOUT,
            &acknowledged,
            4,
        )
    })?;
    check(unsafe { c::setsockopt(socket, c::SOL_SOCKET, c::SO_KEEPALIVE, &kept, 4) })
}

/// Returns a number as the value of an option, at most the largest that one takes.
fn value_of(number: u64) -> [u8; 16] {
    let mut value = [0u8; 16];
    let number = i32::try_from(number).unwrap_or(i32::MAX);
    value[..4].copy_from_slice(&number.to_ne_bytes());
    value
}

/// Returns the system's error, if a call has failed.
fn check(status: i32) -> io::Result<()> {
    if status < 0 {
        return Err(io::Error::from_raw_os_error(os::errno()));
    }
    Ok(())
}
