//! A server with its threads (docs/OPERATING.md).
ghost use Rattle.std.specs.Prelude.{◌≡◌, ◌≤◌, ◌+◌, ⊤};
ghost use Rattle.server.specs.Serve.{AreServable};

use crate::opening::{Opened, first_policy, listen, open_hub, tell_listening};
use crate::policy_source::Policies;
use crate::settings::Settings;
use crate::starting::tell_started;
use crate::threads::{ReloadStart, ThreadStarts, WorkerAccess, serve};
use rand::make_rng;
use rand::rngs::SmallRng;
use rand_core::Rng;
use server_log::ServerLog;
use server_log::prints::Prints;
use server_loop::StatsOutput;
use server_port::Access;
use server_port::gates::Gate;
use session_conn::Words;
use shared_hub::{Blank, Hub, Run, Seat, SharedHub};
use std::alloc::{AllocGlobal, Global};
use std::hash::RandomState;
use std::marker::Brand;
use std::net::Net;
use std::random::RandomSource;
use std::sync::Wait;
use std::thread::Threads;
use std::time::Clock;
use worker_port::fault::Fault;

/// Where the gates of a server's threads come from.
pub trait GateSource<G> {
    /// Returns the gate of a worker. The first worker is number 0.
    fn worker_gate(&self, worker: usize) -> G;

    /// Returns the gate of the thread that installs the policies of an input. The first input is number 0.
    fn reload_gate(&self, input: usize) -> G;
}

/// The words of messages, as a generator draws them.
#[derive(Drop)]
struct Drawn {
    generator: SmallRng,
}

/// What a server's caller lends it: its gates, the inputs of its policies, and where it prints.
#[derive(Drop)]
struct Lent<'x, F, P> {
    gates: &'x F,
    policies: &'x mut [P],
    prints: &'x Prints,
}

/// Where a server's lines go: those of standard output, and those for its operator.
#[derive(Clone, Copy)]
pub struct Outputs<'x> {
    pub prints: &'x Prints,
    pub log: &'x ServerLog<'x>,
    /// Where it is told what is counted, if something is.
    pub stats: Option<StatsOutput<'x>>,
}

impl Words for Drawn {
    ghost draws = { λ old word new. ⊤ };

    fn next(&mut self) -> u64 {
        self.generator.next_u64()
    }
}

/// Serves clients as the settings say, by the policies that come, until all their inputs have ended, and returns the status: 0
/// then, 1 at a fault. The first policy is the first input's. Later ones come from any input, and the one that is installed last
/// is in force. It prints a line for where it listens and for what each policy does; the last line tells why it has ended. Each
/// thread, of a worker or of an input, passes a gate of its own.
pub fn serve_clients<
    R: Threads + Wait + Net + Clock + RandomSource + Sync + AllocGlobal,
    G: Gate + Send + Drop,
    F: GateSource<G>,
    P: Policies + Send,
>(rt: &R, settings: Settings<'_>, gates: &F, policies: &mut [P], outputs: Outputs<'_>) -> u8
    requires { AreServable settings.workers settings.outbox settings.history settings.history_bytes settings.connections }
    ensures { result ≤ 1 }
{
    let prints = outputs.prints;
    let status = match serve_policies(rt, settings, gates, policies, outputs) {
        Ok(()) => {
            let _ = prints.add(rt, b"stopped\n");
            0
        }
        Err(fault) => {
            let _ = prints.add(rt, fault.line());
            1
        }
    };
    prints.end(rt);
    outputs.log.end(rt);
    status
}

/// Serves clients from the first policy to the end of the policies.
fn serve_policies<
    R: Threads + Wait + Net + Clock + RandomSource + Sync + AllocGlobal,
    G: Gate + Send + Drop,
    F: GateSource<G>,
    P: Policies + Send,
>(
    rt: &R,
    settings: Settings<'_>,
    gates: &F,
    policies: &mut [P],
    outputs: Outputs<'_>,
) -> Result<(), Fault>
    requires { AreServable settings.workers settings.outbox settings.history settings.history_bytes settings.connections }
{
    let Outputs { prints, log, stats } = outputs;
    let Some(first) = policies.first_mut() else {
        return Ok(());
    };
    let Some(ready) = first_policy(rt, first, log)? else {
        return Ok(());
    };
    log.note_policy(rt, 1, &ready);
    let listener = listen(rt, settings, log)?;
    let Ok(keys) = RandomState::new(rt) else {
        return Err(Fault::NoKeys);
    };
    let (hub, limits) = open_hub(rt.alloc(), settings, ready, keys)?;
    tell_started(rt, settings, &listener, log);
    let seats = settings.workers.saturating_add(policies.len() as u64);
    let opened = Opened {
        listener,
        limits,
        log,
        stats,
    };
    let lent = Lent {
        gates,
        policies,
        prints,
    };
    serve_run::<Brand, R, G, F, P>(rt, Blank::new(seats), hub, seats, opened, lent)
}

/// Lets threads share a hub, with so many seats, and serves.
fn serve_run<
    L: Run + Send + Sync,
    R: Threads + Wait + Net + Clock + RandomSource + Sync + AllocGlobal,
    G: Gate + Send + Drop,
    F: GateSource<G>,
    P: Policies + Send,
>(
    rt: &R,
    blank: Blank,
    hub: Hub,
    seats: u64,
    opened: Opened<'_>,
    lent: Lent<'_, F, P>,
) -> Result<(), Fault>
    requires name { blank.name ≡ L.name }
    requires parts { blank.parts ≡ L.parts }
    requires first { hub ≡ L.first }
    requires opening { hub.world.number ≡ L.opening }
    requires seats { (seats ≡ L.seats) × (L.seats ≡ L.parts) }
{
    match SharedHub::<L>::with_seats(rt.alloc(), blank, hub, seats) {
        Ok((shared, seats)) => serve_seats(rt, &shared, seats, opened, lent),
        Err(_) => Err(Fault::NoMemory),
    }
}

/// Serves with a thread for each seat: one for each input of policies, and the others are workers.
fn serve_seats<
    L: Run + Send + Sync,
    R: Threads + Wait + Net + Clock + RandomSource + Sync + AllocGlobal,
    G: Gate + Send + Drop,
    F: GateSource<G>,
    P: Policies + Send,
>(
    rt: &R,
    shared: &SharedHub<L>,
    seats: Vec<Seat<L>>,
    opened: Opened<'_>,
    lent: Lent<'_, F, P>,
) -> Result<(), Fault> {
    let alloc = rt.alloc();
    let Lent {
        gates,
        policies,
        prints,
    } = lent;
    let mut seats = seats;
    let reloads = reload_starts(alloc, gates, &mut seats, policies)?;
    let accesses = accesses(rt, alloc, gates, seats)?;
    tell_listening(rt, &opened.listener, prints)?;
    let starts = ThreadStarts { accesses, reloads };
    serve(rt, alloc, shared, opened, starts, prints)?;
    Ok(())
}

/// Returns the start of each input's reloads, with a seat and a gate of its own.
fn reload_starts<'b, L: Run, G: Gate + Drop, F: GateSource<G>, P: Policies>(
    alloc: Global,
    gates: &F,
    seats: &mut Vec<Seat<L>>,
    policies: &'b mut [P],
) -> Result<Vec<ReloadStart<'b, L, G, P>>, Fault> {
    let mut starts = Vec::with_capacity(alloc, policies.len())?;
    for (input, policies) in policies.iter_mut().enumerate() {
        let Some(seat) = seats.pop() else {
            return Err(Fault::NoMemory);
        };
        let access = Access {
            seat,
            gate: gates.reload_gate(input),
        };
        if starts.push(ReloadStart { access, policies }).is_err() {
            return Err(Fault::NoMemory);
        }
    }
    Ok(starts)
}

/// Returns an access to the hub for each seat, with a gate and words of its own.
fn accesses<L: Run, R: RandomSource, G: Gate + Drop, F: GateSource<G>>(
    rt: &R,
    alloc: Global,
    gates: &F,
    seats: Vec<Seat<L>>,
) -> Result<Vec<WorkerAccess<L, G, Drawn>>, Fault> {
    let mut accesses = Vec::with_capacity(alloc, seats.len())?;
    for (worker, seat) in seats.into_iter().enumerate() {
        let Ok(generator) = make_rng::<SmallRng, R>(rt) else {
            return Err(Fault::NoKeys);
        };
        let access = WorkerAccess {
            access: Access {
                seat,
                gate: gates.worker_gate(worker),
            },
            words: Drawn { generator },
        };
        if accesses.push(access).is_err() {
            return Err(Fault::NoMemory);
        }
    }
    Ok(accesses)
}
