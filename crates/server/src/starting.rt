//! What a server tells of itself as it begins.
use crate::settings::Settings;
use mio::net::TcpListener;
use server_log::{ServerLog, Started, What};
use std::alloc::AllocGlobal;
use std::sync::Wait;
use std::time::Clock;

/// Tells the server's operator that it begins, with these settings. Without memory that isn't told.
pub(crate) fn tell_started<R: Wait + Clock + AllocGlobal>(
    rt: &R,
    settings: Settings<'_>,
    listener: &TcpListener,
    log: &ServerLog<'_>,
) {
    let Ok(address) = listener.local_addr() else {
        return;
    };
    if let Ok(listen) = format!(in rt.alloc(); "{address}") {
        log.tell(rt, What::Started(started(settings, listen.as_str())));
    }
}

/// Returns what is told of a server with these settings that listens there.
fn started<'a>(settings: Settings<'a>, listen: &'a str) -> Started<'a> {
    let program = settings.program;
    Started {
        version: program.version.as_bytes(),
        commit: program.commit,
        is_proved: program.is_proved,
        policy: match program.policy {
            None => None,
            Some(path) => Some(path.as_bytes()),
        },
        listen: listen.as_bytes(),
        workers: settings.workers,
        connections: settings.connections,
        outbox: settings.outbox,
        history: settings.history,
        history_bytes: settings.history_bytes,
        keepalive: settings.keepalive,
    }
}
