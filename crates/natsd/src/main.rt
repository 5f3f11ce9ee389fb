//! The program: its command line, its files and its threads. It knows no table of the hub, and decides nothing of a message.
#![tactic(auto)]

ghost use Rattle.std.specs.Prelude.{◌≡◌, Err};
ghost use Rattle.command_line.specs.Options.{AreServable};
ghost use Rattle.natsd.specs.Status.{IsEndOf};
ghost use Rattle.tasks.specs.declared.status.Ran.TheVariants as came;

mod build;
mod checked;
mod comparing;
mod notes;
mod on_file;
mod parting;
mod policy_input;
mod serve;
mod stats_file;
mod telling;

use build::{build_of, read_build};
use command_line::ServeOptions;
use comparing::compare;
use devices::{ReadSource, Sink, WriteSink};
use notes::tell_of_input;
use on_file::run_on_file;
use parting::split;
use policy_input::PolicyInput;
use serve::{serve_clients, stats_of};
use server::Outputs;
use server::policy_source::{Frames, WatchedFile};
use server_log::ServerLog;
use server_log::prints::{Prints, print_all};
use stats_file::write_metrics;
use std::hash::RandomState;
use std::io::Read;
use std::process::ExitCode;
use std::random::RandomSource;
use std::rt::Env;
use std::{env, slice, thread};
use tasks::{Ran, Start, StartFault, run};
use telling::{FileWatcher, level_of};

/// How many bytes may wait for standard error.
const ROOM: usize = 1024 * 1024;

fn main(rt: HostRuntime) -> ExitCode {
    let mut input = PolicyInput::new(rt.alloc(), rt.reader());
    let options = match done(&rt, &mut input) {
        Ok(status) => return ExitCode::from(status),
        Err(options) => options,
    };
    let told_of_build = read_build(&rt).unwrap_or(Vec::new(rt.alloc()));
    let build = build_of(told_of_build.as_slice());
    let source = ReadSource::new(input.into_reader());
    let (prints, errors) = (Prints::new(rt.alloc()), Prints::with_room(rt.alloc(), ROOM));
    let metrics = Prints::with_room(rt.alloc(), ROOM);
    let (mut stdout, mut stderr) = (rt.stdout(), rt.stderr());
    let (rt, options, prints, told, metrics) = (&rt, &options, &prints, &errors, &metrics);
    let (writer, other) = (&mut stdout, &mut stderr);
    let log = ServerLog::new(rt.alloc(), level_of(options.log), told);
    let log = &log;
    // (threads of their own print, so nothing else waits until the lines are taken)
    let (_, status) = thread::join(
        rt,
        || thread::join(
            rt,
            || print_all(rt, rt.alloc(), prints, writer),
            || thread::join(
                rt,
                || print_all(rt, rt.alloc(), told, other),
                || write_metrics(rt, options, metrics, log),
            ),
        ),
        || -> u8
            requires { AreServable options.now }
        {
            let stats = stats_of(options, told, metrics);
            let outputs = Outputs { prints, log, stats };
            let status = match &options.policy {
                Some(path) => {
                    let mut watcher = FileWatcher { rt, log };
                    let mut policies = WatchedFile::new(rt, path.as_str(), &mut watcher);
                    serve_clients(rt, options, build, slice::from_mut(&mut policies), outputs)
                }
                None => {
                    let mut policies = Frames::new(rt.alloc(), source);
                    serve_clients(rt, options, build, slice::from_mut(&mut policies), outputs)
                }
            };
            metrics.end(rt);
            status
        },
    );
    ExitCode::from(status)
}

/// Does what the command line asks for, and returns the status; or the options by which clients are to be served.
fn done<I: Read>(rt: &HostRuntime, input: &mut PolicyInput<I>) -> Result<u8, ServeOptions>
    ensures { (options : ServeOptions) → result ≡ Err options → AreServable options }
{
    let start = start(rt);
    let mut sink = WriteSink::new(rt.stdout());
    let mut errors = WriteSink::new(rt.stderr());
    let ran = run(rt.alloc(), &start, input, &mut sink, &mut errors);
    let end = ended(rt, &start, ran, input, &mut sink, &mut errors);
    end
}

/// Does what `run` has left to do, and returns the status: its own, if it has ended. Or returns the options by which clients are to be
/// served.
fn ended<I: Read, W: Sink, E: Sink>(
    rt: &HostRuntime,
    start: &Result<Start<String>, StartFault>,
    ran: Ran,
    input: &mut PolicyInput<I>,
    sink: &mut W,
    errors: &mut E,
) -> Result<u8, ServeOptions>
    requires { (options : ServeOptions) → ran ≡ came.Serve options → AreServable options }
    ensures end { IsEndOf ran result }
    ensures servable { (options : ServeOptions) → result ≡ Err options → AreServable options }
{
    match ran {
        Ran::Ended(status) => {
            let told = tell_of_input(rt.alloc(), start, input, status, errors);
            Ok(told)
        }
        Ran::OnFile(task, file) => match start {
            Ok(start) => {
                let path = file.as_str();
                Ok(run_on_file(rt, start.keys, &task, path, sink, errors))
            }
            // (who hasn't started names no file)
            Err(_) => Ok(1),
        },
        Ran::Compare(options) => Ok(compare(rt, &options, input, sink, errors)),
        Ran::Split(options) => Ok(split(rt, &options, input, sink, errors)),
        Ran::Serve(options) => Err(options),
    }
}

/// Returns what the program is started with, or why it can't be had.
fn start<R: Env + RandomSource + AllocGlobal>(rt: &R) -> Result<Start<String>, StartFault> {
    let words = words_of(rt)?;
    match RandomState::new(rt) {
        Ok(keys) => Ok(Start { words, keys }),
        Err(_) => Err(StartFault::NoKeys),
    }
}

/// Returns the words of the command line.
fn words_of<R: Env + AllocGlobal>(rt: &R) -> Result<Vec<String>, StartFault> {
    match env::args(rt) {
        Ok(args) => match args.collect(rt.alloc()) {
            Ok(words) => Ok(words),
            Err(_) => Err(StartFault::NoMemory),
        },
        Err(error) => Err(StartFault::of_words(error.kind())),
    }
}
