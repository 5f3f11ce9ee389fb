//! What the workers of a server count for its operator, and where that is told.
use crate::texts::{Report, line_of, metrics_of};
use crate::{Board, HubCounts, Sums};
use base::NoMemory;
use server_log::ServerLog;
use server_log::prints::Prints;
use std::alloc::Global;
use std::sync::Wait;
use std::time::Clock;

/// What threads share beside the hub, when it is told.
#[derive(Clone, Copy, Debug)]
pub struct Shared {
    /// How many sockets of clients are open.
    pub connections: u64,
    /// How many bytes the history's entries keep, about, and how often it was rotated.
    pub history_bytes: u64,
    pub rotations: u64,
}

/// How often it is told what a server has counted, and where. A text that isn't wanted goes nowhere.
#[derive(Clone, Copy)]
pub struct StatsOutput<'a> {
    /// How many milliseconds lie between two.
    pub period: u64,
    /// Where a line goes each time.
    pub lines: Option<&'a Prints>,
    /// Where the metrics go each time.
    pub metrics: Option<&'a Prints>,
}

/// What the workers of a server count for its operator.
#[derive(Drop)]
pub struct Stats<'a> {
    alloc: Global,
    output: StatsOutput<'a>,
    board: Board,
}

impl<'a> Stats<'a> {
    ghost use Rattle.std.specs.Prelude.{◌≡◌};
    ghost use Rattle.server_stats.specs.Boards.{multiple_after};

    /// Returns the stats of a server with so many workers, which have counted nothing.
    pub fn new(alloc: Global, output: StatsOutput<'a>, workers: usize) -> Stats<'a>
        ensures { result.output ≡ output.entry }
    {
        Stats {
            alloc,
            output,
            board: Board::new(alloc, workers),
        }
    }

    /// Returns where the workers add up what they count.
    pub fn board(&self) -> &Board
        ensures { result.now ≡ self.now.board }
    {
        &self.board
    }

    /// Returns when it is told next behind a moment: at the multiples of the period since the server's start.
    pub fn next_at(&self, now: u64) -> u64
        ensures { result ≡ multiple_after self.now.output.period now }
    {
        let period = self.output.period.max(1);
        (now / period).saturating_add(1).saturating_mul(period)
    }

    /// Tells what all workers have counted. What finds no memory, or no room where it goes, is left out.
    pub fn tell<R: Wait + Clock>(
        &self,
        rt: &R,
        log: &ServerLog<'_>,
        shared: Shared,
        hub: HubCounts,
        sums: &Sums,
    ) {
        let report = Report {
            at: log.moment(rt),
            connections: shared.connections,
            others: sums.others,
            hub,
            history_bytes: shared.history_bytes,
            rotations: shared.rotations,
            accounts: sums.accounts.as_slice(),
        };
        if let Some(lines) = self.output.lines {
            put(rt, lines, line_of(self.alloc, &report));
        }
        if let Some(metrics) = self.output.metrics {
            put(rt, metrics, metrics_of(self.alloc, &report));
        }
    }
}

/// Hands a text over, if there is one and not too much waits.
fn put<R: Wait>(rt: &R, prints: &Prints, text: Result<Vec<u8>, NoMemory>) {
    if let Ok(text) = text {
        let _ = prints.add(rt, text.as_slice());
    }
}
