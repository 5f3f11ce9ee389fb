// `natsd serve`: clients over sockets (docs/OPERATING.md).
ghost use Rattle.std.specs.Prelude.{◌≤◌};
ghost use Rattle.command_line.specs.Options.{AreServable};

use crate::build::{Build, VERSION};
use command_line::ServeOptions;
use server::policy_source::Policies;
use server::{GateSource, Open, Outputs, ProgramFacts, Settings, StatsOutput};
use server_log::prints::Prints;
use std::alloc::AllocGlobal;
use std::net::Net;
use std::random::RandomSource;
use std::sync::Wait;
use std::thread::Threads;
use std::time::Clock;

/// Gates that hold nobody.
struct AllOpen;

impl GateSource<Open> for AllOpen {
    fn worker_gate(&self, _worker: usize) -> Open {
        Open
    }

    fn reload_gate(&self, _input: usize) -> Open {
        Open
    }
}

/// Returns what is told of the program at the start.
fn facts_of<'a>(options: &'a ServeOptions, build: Option<Build<'a>>) -> ProgramFacts<'a> {
    ProgramFacts {
        version: VERSION,
        commit: match build {
            None => None,
            Some(build) => Some(build.commit),
        },
        is_proved: match build {
            None => None,
            Some(build) => Some(build.is_proved),
        },
        policy: match &options.policy {
            None => None,
            Some(path) => Some(path.as_str()),
        },
    }
}

/// After how many milliseconds the metrics are written again, where the options say nothing of it.
const PERIOD: u64 = 15_000;

/// Returns how often it is told what is counted, and where: by a line, as metrics, or both; nothing where the options ask for
/// neither.
pub(crate) fn stats_of<'x>(
    options: &ServeOptions,
    lines: &'x Prints,
    metrics: &'x Prints,
) -> Option<StatsOutput<'x>> {
    let has_file = options.stats_file.is_some();
    let period = match options.stats {
        Some(seconds) => seconds.saturating_mul(1000),
        None if has_file => PERIOD,
        None => return None,
    };
    Some(StatsOutput {
        period,
        lines: if options.stats.is_some() {
            Some(lines)
        } else {
            None
        },
        metrics: if has_file { Some(metrics) } else { None },
    })
}

/// Serves clients as the options say, by the policies that come from the inputs, until these end, and returns the status: 0
/// then, 1 at a fault. It prints a line for where it listens and for what each policy does; the last line tells why it has ended.
pub fn serve_clients<
    R: Threads + Wait + Net + Clock + RandomSource + Sync + AllocGlobal,
    P: Policies + Send,
>(
    rt: &R,
    options: &ServeOptions,
    build: Option<Build<'_>>,
    inputs: &mut [P],
    outputs: Outputs<'_>,
) -> u8
    requires { AreServable options.now }
    ensures { result ≤ 1 }
{
    let settings = Settings {
        listen: options.listen.as_str(),
        workers: options.workers,
        outbox: options.outbox,
        history: options.history,
        history_bytes: options.history_bytes,
        connections: options.connections,
        keepalive: options.keepalive,
        tells_removed: options.tells_removed,
        program: facts_of(options, build),
    };
    server::serve_clients(rt, settings, &AllOpen, inputs, outputs)
}
