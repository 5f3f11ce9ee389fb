//! What a server begins with.
ghost use Rattle.std.specs.Prelude.{◌≡◌, IfOk};
ghost use Rattle.server.specs.Serve.{AreServable};

use crate::keepalive::look_after_clients;
use crate::policy_source::Policies;
use crate::reloads::{NextPolicy, next_policy, tell_refused, tell_warnings};
use crate::settings::Settings;
use mio::net::TcpListener;
use policy_ready::CompiledPolicy;
use server_log::ServerLog;
use server_log::prints::Prints;
use server_loop::StatsOutput;
use server_state::mail::Limits;
use shared_hub::{Caps, Hub};
use std::alloc::{AllocGlobal, Global};
use std::hash::RandomState;
use std::io;
use std::io::ErrorKind;
use std::net::{Net, SocketAddr};
use std::sync::{Mutex, Wait};
use std::time::Clock;
use worker_port::fault::Fault;

/// What is said of a text that is no address.
const NO_ADDRESS: &str = "no numeric address with a port, such as 0.0.0.0:4222 or [::]:4222";

/// What is opened for a server beside its hub: where it listens, the limits that it keeps to, and its log.
#[derive(Drop)]
pub(crate) struct Opened<'x> {
    pub(crate) listener: TcpListener,
    pub(crate) limits: Limits,
    pub(crate) log: &'x ServerLog<'x>,
    pub(crate) stats: Option<StatsOutput<'x>>,
}

/// Reads the first policy, or returns `None` where the input ends before it. The log tells what is to be known of its text.
pub(crate) fn first_policy<R: Wait + Clock + AllocGlobal, P: Policies>(
    rt: &R,
    policies: &mut P,
    log: &ServerLog<'_>,
) -> Result<Option<CompiledPolicy>, Fault> {
    // (nobody else opens anything yet)
    let descriptors = Mutex::new(());
    match next_policy(rt.alloc(), policies, &descriptors) {
        NextPolicy::Ready(ready, notes, _) => {
            tell_warnings(rt, log, &notes);
            Ok(Some(ready))
        }
        NextPolicy::End => Ok(None),
        NextPolicy::Refused(line, notes) => {
            tell_refused(rt, log, line.as_slice(), &notes);
            Err(Fault::Refused(line))
        }
        NextPolicy::Later => Err(Fault::ReadFailed),
        NextPolicy::Bad => Err(Fault::BadFrame),
        NextPolicy::NoMemory => Err(Fault::NoMemory),
    }
}

/// Listens as the settings say. It fails where their text is no address with its port, or can't be listened at, or where the
/// system can't look after clients; the log has the text, and why.
pub(crate) fn listen<R: Net + Wait + Clock + AllocGlobal>(
    rt: &R,
    settings: Settings<'_>,
    log: &ServerLog<'_>,
) -> Result<TcpListener, Fault> {
    match bind(rt, settings) {
        Ok(listener) => Ok(listener),
        Err(error) => {
            match format!(in rt.alloc(); "listen {}", settings.listen) {
                Ok(what) => log.tell_failed(rt, what.as_str(), &error),
                Err(_) => log.tell_failed(rt, "listen", &error),
            }
            Err(Fault::ListenFailed)
        }
    }
}

/// Returns what listens at the settings' address, and has the system look after those who connect.
fn bind<R: Net>(rt: &R, settings: Settings<'_>) -> io::Result<TcpListener> {
    let Ok(address) = settings.listen.parse::<SocketAddr>() else {
        return Err(io::Error::new(ErrorKind::InvalidInput, NO_ADDRESS));
    };
    let listener = TcpListener::bind(rt, address)?;
    look_after_clients(&listener, settings.keepalive)?;
    Ok(listener)
}

/// Prints where the listener listens.
pub(crate) fn tell_listening<R: Wait + AllocGlobal>(
    rt: &R,
    listener: &TcpListener,
    prints: &Prints,
) -> Result<(), Fault> {
    let Ok(address) = listener.local_addr() else {
        return Err(Fault::ListenFailed);
    };
    let line = format!(in rt.alloc(); "listening {address}\n")?;
    let _ = prints.add(rt, line.as_str().as_bytes());
    Ok(())
}

/// Opens a hub with the first policy and nobody connected, and returns it with the server's limits.
pub(crate) fn open_hub(
    alloc: Global,
    settings: Settings<'_>,
    ready: CompiledPolicy,
    keys: RandomState,
) -> Result<(Hub, Limits), Fault>
    requires { AreServable settings.workers settings.outbox settings.history settings.history_bytes settings.connections }
    ensures { IfOk result (λ opened. opened.0.world.number ≡ 0) }
{
    let caps = Caps {
        outbox: settings.outbox as usize,
        history: settings.history as usize,
    };
    let limits = Limits {
        outbox: caps.outbox,
        history: caps.history,
        history_bytes: settings.history_bytes,
        connections: settings.connections,
        tells_removed: settings.tells_removed,
        keys,
    };
    match Hub::new(alloc, ready, caps, keys) {
        Ok(hub) => Ok((hub, limits)),
        Err(_) => Err(Fault::NoMemory),
    }
}
