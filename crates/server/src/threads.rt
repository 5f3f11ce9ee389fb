//! The threads of a server.
use crate::opening::Opened;
use crate::policy_source::Policies;
use crate::reloads::{Installs, Reloads};
use mio::net::TcpListener;
use server_log::ServerLog;
use server_log::prints::Prints;
use server_loop::{Start, Stats, WAKER, Worker};
use server_port::gates::Gate;
use server_port::{Access, ServerPort};
use server_state::mail::{Flags, Mailbox, OutgoingMail, ServerState, millis, open_mailbox};
use session_conn::Words;
use shared_hub::{Run, SharedHub};
use std::alloc::Global;
use std::collections::VecDeque;
use std::net::Net;
use std::sync::Wait;
use std::thread;
use std::thread::Threads;
use std::time::Clock;
use worker_port::WorkerPort;
use worker_port::fault::{ServeFault, least};

/// What a thread that installs policies begins with, and the input of these, which is lent to it.
#[derive(Drop)]
pub(crate) struct ReloadStart<'b, L: Run, G: Drop, P> {
    pub(crate) access: Access<L, G>,
    pub(crate) policies: &'b mut P,
}

/// A worker's access to the hub, and where the words of its messages come from.
#[derive(Drop)]
pub(crate) struct WorkerAccess<L: Run, G: Drop, W: Drop> {
    pub(crate) access: Access<L, G>,
    pub(crate) words: W,
}

/// What a worker's thread begins with: its access to the hub, and what it works with beside that.
#[derive(Drop)]
struct WorkerStart<L: Run, G: Drop, W: Drop> {
    access: Access<L, G>,
    start: Start<W>,
}

/// What the threads of a server begin with: an access to the hub for each worker, and the start of each input's reloads.
#[derive(Drop)]
pub(crate) struct ThreadStarts<'b, L: Run, G: Drop, W: Drop, P> {
    pub(crate) accesses: Vec<WorkerAccess<L, G, W>>,
    pub(crate) reloads: Vec<ReloadStart<'b, L, G, P>>,
}

/// What the threads of a server do. It stands for a `Common`, so that what is handed to a thread names no more than this.
trait Duties<J, O> {
    /// Runs one worker, from its start to its end, and returns its fault. Where it fails the others end too.
    fn work(&self, start: J) -> Option<ServeFault>;

    /// Installs the policies of an input to its end, and returns the fault. Where it fails all threads end.
    fn reload(&self, start: O) -> Option<ServeFault>;

    /// Ends all threads.
    fn stop(&self);
}

/// What all threads of a server have in common.
#[derive(Drop)]
struct Common<'a, L: Run, R> {
    rt: &'a R,
    alloc: Global,
    shared: &'a SharedHub<L>,
    state: &'a ServerState<'a>,
    installs: &'a Installs<'a>,
}

fn common_of<'a, L: Run, R>(
    rt: &'a R,
    alloc: Global,
    shared: &'a SharedHub<L>,
    state: &'a ServerState<'a>,
    installs: &'a Installs<'a>,
) -> Common<'a, L, R> {
    Common {
        rt,
        alloc,
        shared,
        state,
        installs,
    }
}

impl<'a, L: Run, R: Wait> Common<'a, L, R> {
    /// Returns the port to the hub of a worker of this number. Without memory it returns `None`.
    fn port_of<G: Gate + Drop>(
        &self,
        index: usize,
        access: Access<L, G>,
    ) -> Option<ServerPort<'a, L, R, G>> {
        let outgoing = OutgoingMail::new(self.alloc, self.state.mailboxes.len(), Some(index))?;
        Some(ServerPort::new(
            self.rt,
            self.alloc,
            self.shared,
            self.state,
            access,
            outgoing,
        ))
    }
}

/// Runs a worker over its port to the hub, from its start to its end, and returns its fault.
fn work<P: WorkerPort + Drop, R: Wait + Clock, W: Words + Drop>(
    rt: &R,
    alloc: Global,
    state: &ServerState<'_>,
    port: P,
    start: Start<W>,
) -> Option<ServeFault> {
    match Worker::new(rt, alloc, state, port, start) {
        None => Some(ServeFault::NoMemory),
        Some(mut worker) => worker.run(),
    }
}

impl<'a, 'b, L: Run, R: Wait + Clock, G: Gate + Drop, W: Words + Drop, P: Policies> Duties<
    WorkerStart<L, G, W>,
    ReloadStart<'b, L, G, P>,
> for Common<'a, L, R> {
    fn work(&self, start: WorkerStart<L, G, W>) -> Option<ServeFault> {
        let WorkerStart { access, start } = start;
        let fault = match self.port_of(start.index, access) {
            None => Some(ServeFault::NoMemory),
            Some(port) => work(self.rt, self.alloc, self.state, port, start),
        };
        if fault.is_some() {
            self.state.stop();
        }
        fault
    }

    fn reload(&self, start: ReloadStart<'b, L, G, P>) -> Option<ServeFault> {
        let ReloadStart { access, policies } = start;
        let (shared, installs) = (self.shared, self.installs);
        let fault = match Reloads::new(self.rt, self.alloc, shared, self.state, access, installs) {
            None => Some(ServeFault::NoMemory),
            Some(mut reloads) => reloads.run(policies),
        };
        if fault.is_some() {
            self.state.stop();
        }
        fault
    }

    fn stop(&self) {
        self.state.stop();
    }
}

/// Serves clients over sockets, with a worker for each access to the hub, and installs the policies that come. The first
/// worker accepts connections and deals them out round-robin, beginning with itself. It ends where all inputs of policies
/// have ended, once what was accepted is written out or two seconds have passed. The moment of an event is in milliseconds
/// since it began.
///
/// `PollFailed` comes where the system gives no way to wait for sockets, `BadFrame` where a frame of the policies is wrong
/// or can't be read, `NoMemory` where a worker can't begin, `GateClosed` where a gate lets nothing more pass; of several
/// the least. A fault of a socket closes that connection alone.
pub(crate) fn serve<
    'x,
    L: Run + Send + Sync,
    R: Threads + Wait + Net + Clock + Sync,
    G: Gate + Send + Drop,
    W: Words + Send + Drop,
    P: Policies + Send,
>(
    rt: &'x R,
    alloc: Global,
    shared: &'x SharedHub<L>,
    opened: Opened<'x>,
    starts: ThreadStarts<'_, L, G, W, P>,
    prints: &'x Prints,
) -> Result<(), ServeFault> {
    let Opened {
        listener,
        limits,
        log,
        stats,
    } = opened;
    let ThreadStarts { accesses, reloads } = starts;
    let (mailboxes, starts) = open_all(rt, alloc, listener, accesses, log)?;
    let flags = Flags::new(limits);
    let stats = stats.map(|output| Stats::new(alloc, output, mailboxes.len()));
    let state = ServerState::new(mailboxes.as_slice(), limits, millis(rt), &flags, log).counting(
        stats.as_ref(),
    );
    let installs = Installs::new(prints);
    let common = common_of(rt, alloc, shared, &state, &installs);
    match run_all(rt, &common, reloads, starts) {
        Some(fault) => Err(fault),
        None => Ok(()),
    }
}

/// Runs the reloads of all inputs beside the workers, which end after them, and returns the least of all faults.
fn run_all<R: Threads + Sync, J: Send + Drop, O: Send + Drop, T: Duties<J, O> + Sync>(
    rt: &R,
    duties: &T,
    reloads: Vec<O>,
    starts: Vec<J>,
) -> Option<ServeFault> {
    let (reloads, workers) = thread::join(
        rt,
        || -> Option<ServeFault> { reload_all(rt, duties, reloads) },
        || -> Option<ServeFault> { work_all(rt, duties, starts) },
    );
    least(reloads, workers)
}

/// Installs the policies of all inputs, each in a thread of its own, and ends the workers. It returns the least of the faults.
fn reload_all<R: Threads + Sync, J, O: Send + Drop, T: Duties<J, O> + Sync>(
    rt: &R,
    duties: &T,
    starts: Vec<O>,
) -> Option<ServeFault> {
    let reload = |start: O| -> Option<ServeFault> { duties.reload(start) };
    let fault = match thread::map_vec(rt, starts, &reload) {
        Ok(faults) => least_of(faults.as_slice()),
        Err(_) => Some(ServeFault::NoMemory),
    };
    duties.stop();
    fault
}

/// Runs all workers, each in a thread of its own, and returns the least of their faults.
fn work_all<R: Threads + Sync, J: Send + Drop, O, T: Duties<J, O> + Sync>(
    rt: &R,
    duties: &T,
    starts: Vec<J>,
) -> Option<ServeFault> {
    let work = |start: J| -> Option<ServeFault> { duties.work(start) };
    match thread::map_vec(rt, starts, &work) {
        Ok(faults) => least_of(faults.as_slice()),
        Err(_) => {
            duties.stop();
            Some(ServeFault::NoMemory)
        }
    }
}

/// Returns the least of faults, if there is one.
fn least_of(faults: &[Option<ServeFault>]) -> Option<ServeFault> {
    let mut first = None;
    for fault in faults {
        first = least(first, *fault);
    }
    first
}

/// Opens a mailbox for each worker, and makes its start. The first worker has the listener. Where the system refuses, the log
/// tells why.
fn open_all<L: Run, R: Net + Wait + Clock, G: Drop, W: Drop>(
    rt: &R,
    alloc: Global,
    listener: TcpListener,
    accesses: Vec<WorkerAccess<L, G, W>>,
    log: &ServerLog<'_>,
) -> Result<(Vec<Mailbox>, Vec<WorkerStart<L, G, W>>), ServeFault> {
    let mut accesses = VecDeque::from(accesses);
    let mut listener = Some(listener);
    let mut mailboxes = Vec::new(alloc);
    let mut starts = Vec::new(alloc);
    for index in 0..accesses.len() {
        let Some(WorkerAccess { access, words }) = accesses.pop_front() else {
            break;
        };
        let (mailbox, poll) = match open_mailbox(rt, alloc, WAKER) {
            Ok(opened) => opened,
            Err(error) => {
                log.tell_failed(rt, "poll", &error);
                return Err(ServeFault::PollFailed);
            }
        };
        let start = Start {
            index,
            words,
            poll,
            listener: listener.take(),
        };
        let start = WorkerStart { access, start };
        if mailboxes.push(mailbox).is_err() || starts.push(start).is_err() {
            return Err(ServeFault::NoMemory);
        }
    }
    Ok((mailboxes, starts))
}
