//! A run of a shared hub: threads, each with a seat, and the closing audits.
ghost use Rattle.std.specs.Prelude.{◌≡◌, length};

use crate::audits::{Totals, audited, has_a_gap, refuses_foreign, refuses_forged};
use crate::services::are_judged;
use crate::worker::{Place, Row, Site, Stock, Worker};
use shared_hub::{Blank, Caps, Hub, Parts, Receipt, Run, Seat, SharedHub, Unlocked};
use std::alloc::Global;
use std::hash::RandomState;
use std::marker::Brand;
use std::sync::Wait;
use std::thread;
use std::thread::Threads;
use std::time::Clock;
use test_samples::{Given, ready_of};

/// Which audits should be refused before that of all parts.
#[derive(Clone, Copy)]
pub(crate) enum Plan {
    None,
    /// With forged receipts, the last of which has this number, which no entry has.
    Forged(u64),
    /// With a gap at this number, without the last segment.
    Gap(u64),
    /// With a gap at 1, without the only segment; and with one at this number, behind a segment in its place, which a run with
    /// these keys has handed out.
    Foreign(RandomState, u64),
}

/// Runs a thread for each job, over a hub whose policy allows all, and returns what the last audit tells.
pub(crate) fn run<R: Threads + Wait + Clock + Sync>(
    rt: &R,
    alloc: Global,
    keys: RandomState,
    jobs: &[&'static [Row]],
    plan: Plan,
) -> Result<Totals, &'static str> {
    match opened(alloc, keys) {
        None => Err("no hub is open"),
        Some(hub) => {
            shared::<Brand, R>(rt, alloc, Blank::new(jobs.len() as u64), hub, jobs, plan)
        }
    }
}

fn opened(alloc: Global, keys: RandomState) -> Option<Hub> {
    let caps = Caps {
        outbox: 16,
        history: 10_000,
    };
    Hub::new(alloc, ready_of(alloc, Given::All)?, caps, keys).ok()
}

fn shared<L: Run + Send + Sync, R: Threads + Wait + Clock + Sync>(
    rt: &R,
    alloc: Global,
    blank: Blank,
    hub: Hub,
    jobs: &[&'static [Row]],
    plan: Plan,
) -> Result<Totals, &'static str>
    requires name { blank.name ≡ L.name }
    requires parts { (blank.parts ≡ L.parts) × (L.seats ≡ L.parts) × (L.seats ≡ length jobs.now) }
    requires first { hub ≡ L.first }
    requires opening { hub.world.number ≡ L.opening }
{
    match SharedHub::<L>::with_seats(alloc, blank, hub, jobs.len() as u64) {
        Err(_) => Err("memory lacked"),
        Ok((shared, seats)) => {
            let workers = worked(rt, alloc, &shared, seated(alloc, seats, jobs));
            judged(alloc, shared.unlock(), workers, plan)
        }
    }
}

/// Makes a worker for each job, with a seat. If there is no memory for one, its seat is missed in the end.
fn seated<L: Run>(
    alloc: Global,
    mut seats: Vec<Seat<L>>,
    jobs: &[&'static [Row]],
) -> Vec<Worker<L>> {
    let mut workers = Vec::new(alloc);
    for conn in 0..jobs.len() {
        add_worker(alloc, &mut workers, seats.pop(), conn as u64, jobs[conn]);
    }
    workers
}

fn add_worker<L: Run>(
    alloc: Global,
    workers: &mut Vec<Worker<L>>,
    seat: Option<Seat<L>>,
    conn: u64,
    rows: &'static [Row],
) {
    let stock = Stock {
        policies: Vec::new(alloc),
        segments: Vec::new(alloc),
    };
    let worker = Worker {
        rows,
        conn,
        seat,
        receipts: Vec::new(alloc),
        stock,
        is_right: false,
    };
    workers.push(worker).ok();
}

/// Returns the workers after their work, each in a thread of its own.
fn worked<L: Run + Send + Sync, R: Threads + Wait + Clock + Sync>(
    rt: &R,
    alloc: Global,
    lock: &SharedHub<L>,
    mut workers: Vec<Worker<L>>,
) -> Vec<Worker<L>> {
    let place = Place { rt, alloc, lock };
    work_each(rt, &place, workers.as_mut_slice());
    workers
}

/// Has each worker do its work, in a thread of its own.
fn work_each<R: Threads + Sync, W: Send, S: Site<W> + Sync>(rt: &R, site: &S, workers: &mut [W]) {
    thread::for_each_mut(
        rt,
        workers,
        5,
        &|_: usize, worker: &mut W| site.work(worker),
    );
}

/// Makes the audits of a run, and returns what they tell.
fn judged<L: Run>(
    alloc: Global,
    run: Unlocked<L>,
    mut workers: Vec<Worker<L>>,
    plan: Plan,
) -> Result<Totals, &'static str>
    requires { L.seats ≡ L.parts }
{
    let mut slot = gathered(alloc, run, workers.as_mut_slice());
    let told = outcome(alloc, &mut slot, plan);
    told
}

fn outcome<L: Run>(
    alloc: Global,
    slot: &mut Option<Parts<L>>,
    plan: Plan,
) -> Result<Totals, &'static str>
    requires { L.seats ≡ L.parts }
{
    if slot.is_none() {
        return Err("a thread was told otherwise than its rows say");
    }
    if !is_as_planned(alloc, slot, plan) {
        return Err("an audit that is to be refused was not");
    }
    match audited(alloc, slot) {
        None => Err("the last audit was refused"),
        Some(totals) => Ok(totals),
    }
}

/// Whether the audits are refused that should be.
fn is_as_planned<L: Run>(alloc: Global, slot: &mut Option<Parts<L>>, plan: Plan) -> bool
    requires { L.seats ≡ L.parts }
{
    match plan {
        Plan::None => true,
        Plan::Forged(number) => refuses_forged(alloc, slot, number),
        Plan::Gap(number) => has_a_gap(alloc, slot, number),
        Plan::Foreign(keys, number) => {
            has_a_gap(alloc, slot, 1) && refuses_foreign(alloc, slot, keys, number)
        }
    }
}

/// What the workers hand in, if each was told what its rows say, and its receipts' numbers rise and are judged by their policies.
fn gathered<L: Run>(
    alloc: Global,
    run: Unlocked<L>,
    workers: &mut [Worker<L>],
) -> Option<Parts<L>> {
    let mut parts = Parts {
        run,
        seats: Vec::new(alloc),
        receipts: Vec::new(alloc),
        segments: Vec::new(alloc),
    };
    if hand_in_all(&mut parts, workers) {
        Some(parts)
    } else {
        None
    }
}

fn hand_in_all<L: Run>(parts: &mut Parts<L>, workers: &mut [Worker<L>]) -> bool {
    for worker in workers {
        let receipts = worker.receipts.as_slice();
        if !worker.is_right || !rises(receipts) || !are_judged(receipts) {
            return false;
        }
        if !hand_in(parts, worker) {
            return false;
        }
    }
    true
}

fn hand_in<L: Run>(parts: &mut Parts<L>, worker: &mut Worker<L>) -> bool {
    match worker.seat.take() {
        None => false,
        Some(seat) => {
            parts.seats.push(seat).is_ok()
                && parts.receipts.append(&mut worker.receipts).is_ok()
                && parts.segments.append(&mut worker.stock.segments).is_ok()
        }
    }
}

/// Whether the numbers of a seat's receipts rise.
fn rises(receipts: &[Receipt]) -> bool {
    let mut last = 0;
    for receipt in receipts {
        let number = receipt.number();
        if number <= last {
            return false;
        }
        last = number;
    }
    true
}
