// What the program does with its words, and its status (docs/SCRIPT.md, "Statuses").
ghost use Rattle.std.specs.Prelude.{◌≡◌, ◌≢◌, ◌++◌, ◌||◌, Err, false, IfOk, OnOk, OnErr, IfSome, codes, map};
ghost use Rattle.std.specs.Io.KnownBytes.{Appends};
ghost use Rattle.devices.specs.Device.{AppendsFront};
ghost use Rattle.tasks.specs.Fault.{fault_text, is_read_failed, is_write_failed};
ghost use Rattle.tasks.specs.Tasks.{done_by, input_of, IsLongScript, IsShortScript};
ghost use Rattle.command_line.specs.Options.{AreServable};
ghost use Rattle.tasks.specs.Run.{reads, writes, IsMistake, IsRun, IsTaskRun, IsWordsRun};

use crate::check::check;
use crate::explaining::explain;
use crate::fault::TaskFault;
use crate::parting::tell_sets;
use crate::playing::play;
use command_line::{
    CompareOptions, Invocation, ServeOptions, SplitOptions, Task, WordsFault, read_words,
};
use devices::{Sink, Source, write_all};
use std::alloc::Global;
use std::convert::AsStr;
use std::hash::RandomState;
use std::io;

/// What the program is started with.
#[derive(Drop)]
pub struct Start<S> {
    /// The words of the command line, the program's name first.
    pub words: Vec<S>,
    /// Keys that clients can't know, for the tables whose keys they choose.
    pub keys: RandomState,
}

/// Why the program can't start.
#[derive(Clone, Copy, Debug, PartialEq, Eq)]
pub enum StartFault {
    /// A word of the command line isn't UTF-8.
    NotUtf8,
    /// Memory for the words could not be had.
    NoMemory,
    /// The system gave no random keys.
    NoKeys,
}

impl StartFault {
    ghost use Rattle.std.specs.Prelude.{◌≡◌, ◌≢◌};
    ghost use Rattle.std.specs.declared.io.ErrorKind.TheVariants.{OutOfMemory};

    /// What an error of the system's says of the words.
    pub fn of_words(kind: io::ErrorKind) -> StartFault
        ensures memory { kind ≡ OutOfMemory → result ≡ StartFault.NoMemory }
        ensures other { kind ≢ OutOfMemory → result ≡ StartFault.NotUtf8 }
    {
        if kind == io::ErrorKind::OutOfMemory {
            return StartFault::NoMemory;
        }
        StartFault::NotUtf8
    }
}

/// What the words of a command line have come to.
#[derive(Debug, Drop)]
pub enum Ran {
    /// The program has ended with this status.
    Ended(u8),
    /// A task is to be done that reads the file of this name in place of the source. Nothing was read or written.
    OnFile(Task, String),
    /// The parts of a policy are to be written. Nothing was read or written.
    Split(SplitOptions),
    /// Two policies are to be compared. Nothing was read or written.
    Compare(CompareOptions),
    /// Clients are to be served. Nothing was read or written.
    Serve(ServeOptions),
}

/// Writes a text to the error sink, as far as that can be, and returns the status.
fn tell<E: Sink>(errors: &mut E, text: &[u8], status: u8) -> u8
    ensures { IsMistake status text.now (writes (E.contents errors.old) (E.contents errors.new) (E.failed errors.old) (E.failed errors.new)) result }
{
    match write_all(errors, text) {
        Ok(()) => status,
        Err(_) => status,
    }
}

/// The line of a fault, with its LF.
fn fault_line(fault: TaskFault) -> &'static [u8]
    ensures { result.now ≡ fault_text fault ++ codes "\n" }
{
    match fault {
        TaskFault::ReadFailed => b"read failed\n",
        TaskFault::WriteFailed => b"write failed\n",
        TaskFault::NoMemory => b"no memory\n",
        TaskFault::ScriptTooLong => b"script too long\n",
    }
}

/// Writes the line of a fault to the error sink, as far as that can be, and returns the status.
fn tell_fault<E: Sink>(errors: &mut E, fault: TaskFault) -> u8
    ensures { IsMistake 1 (fault_text fault ++ codes "\n") (writes (E.contents errors.old) (E.contents errors.new) (E.failed errors.old) (E.failed errors.new)) result }
{
    tell(errors, fault_line(fault), 1)
}

/// Writes a text, and returns the status.
fn show<W: Sink>(text: &str, status: u8, sink: &mut W) -> Result<u8, TaskFault>
    ensures shown { IfOk result (λ shown. Appends (W.contents sink.old) (W.contents sink.new) text.now × (shown ≡ status)) }
    ensures prefix { OnErr result (AppendsFront (W.contents sink.old) (W.contents sink.new) text.now) }
    ensures failed { W.failed sink.new ≡ (W.failed sink.old || is_write_failed result) }
    ensures read { is_read_failed result ≡ false }
    ensures long { result ≢ Err TaskFault.ScriptTooLong }
{
    match write_all(sink, text.as_bytes()) {
        Ok(()) => Ok(status),
        Err(_) => Err(TaskFault::WriteFailed),
    }
}

/// Does a task: plays the script that the source holds, as `play` does, or checks the policy, as `check` does, or says which of
/// its accounts exchange messages, as `tell_sets` does, or answers a question to it, as `explain` does, or writes the text that was asked for. Returns the status: 0, 1 or, of a question
/// of no known kind, 2.
///
/// The faults are those of `play`, `check`, `tell_sets` and `explain`; `ScriptTooLong` is of scripts alone. What was written then is a
/// front of what the task writes.
pub fn run_task<R: Source, W: Sink>(
    alloc: Global,
    keys: RandomState,
    task: &Task,
    source: &mut R,
    sink: &mut W,
) -> Result<u8, TaskFault>
    ensures meaning { IfOk result (λ status. IfSome (input_of task.now (R.remaining source.old)) (λ input.
        Appends (W.contents sink.old) (W.contents sink.new) (done_by task.now input).text
        × (status ≡ (done_by task.now input).status))) }
    ensures prefix { OnErr result (IfSome (input_of task.now (R.remaining source.old)) (λ input.
        AppendsFront (W.contents sink.old) (W.contents sink.new) (done_by task.now input).text)) }
    ensures read_failed { R.failed source.new ≡ (R.failed source.old || is_read_failed result) }
    ensures write_failed { W.failed sink.new ≡ (W.failed sink.old || is_write_failed result) }
    ensures short { OnOk result (IsShortScript task.now (R.remaining source.old) (R.reads source.old) (R.reads source.new)) }
    ensures too_long { result ≡ Err TaskFault.ScriptTooLong → IsLongScript task.now (R.remaining source.old) (R.reads source.old) (R.reads source.new) }
{
    match task {
        Task::Play => play(alloc, keys, source, sink),
        Task::Check => check(alloc, source, sink),
        Task::Strict => check(alloc, source, sink),
        Task::Sets => tell_sets(alloc, source, sink),
        Task::Explain(question) => explain(alloc, question, source, sink),
        Task::BadKind => show("bad kind\n", 2, sink),
        Task::BadLog => show("bad log\n", 2, sink),
        Task::BadKeepalive => show("bad keepalive\n", 2, sink),
        Task::Help(text) => show(text.as_str(), 0, sink),
        Task::Version(text) => show(text.as_str(), 0, sink),
    }
}

/// Does a task as `run_task`, tells its fault on the error sink, as far as that can be written, and returns the status,
/// which is 1 of a fault.
pub fn run_and_tell<R: Source, W: Sink, E: Sink>(
    alloc: Global,
    keys: RandomState,
    task: &Task,
    source: &mut R,
    sink: &mut W,
    errors: &mut E,
) -> u8
    ensures { IsTaskRun task.now
        (reads (R.remaining source.old) (R.reads source.old) (R.reads source.new) (R.failed source.old) (R.failed source.new))
        (writes (W.contents sink.old) (W.contents sink.new) (W.failed sink.old) (W.failed sink.new))
        (writes (E.contents errors.old) (E.contents errors.new) (E.failed errors.old) (E.failed errors.new)) result }
{
    match run_task(alloc, keys, task, source, sink) {
        Ok(status) => status,
        Err(fault) => tell_fault(errors, fault),
    }
}

/// Does what words ask for, unless they ask to serve, to compare two policies, or to write the parts of one.
fn run_words<S: AsStr, R: Source, W: Sink, E: Sink>(
    alloc: Global,
    keys: RandomState,
    words: &[S],
    source: &mut R,
    sink: &mut W,
    errors: &mut E,
) -> Ran
    ensures { IsWordsRun (map S.text words.now)
        (reads (R.remaining source.old) (R.reads source.old) (R.reads source.new) (R.failed source.old) (R.failed source.new))
        (writes (W.contents sink.old) (W.contents sink.new) (W.failed sink.old) (W.failed sink.new))
        (writes (E.contents errors.old) (E.contents errors.new) (E.failed errors.old) (E.failed errors.new)) result }
{
    match read_words(alloc, words) {
        Ok(invocation) => match invocation {
            Invocation::Task(task) => {
                Ran::Ended(run_and_tell(alloc, keys, &task, source, sink, errors))
            }
            Invocation::OnFile(task, file) => Ran::OnFile(task, file),
            Invocation::Split(options) => Ran::Split(options),
            Invocation::Compare(options) => Ran::Compare(options),
            Invocation::Serve(options) => Ran::Serve(options),
        },
        Err(fault) => match fault {
            WordsFault::WrongLine(text) => { Ran::Ended(tell(errors, text.as_str().as_bytes(), 2)) }
            WordsFault::NoMemory => Ran::Ended(tell(errors, b"no memory\n", 1)),
        },
    }
}

/// The program: does what the words of its command line ask for, and returns its status; or hands out the options of `serve`,
/// of `compare` or of `check --split`, or a task with the name of the file that it is to read, before anything is read or written.
///
/// The status is the task's, with nothing on the error sink. A fault of the task has status 1, and so has want
/// of memory for the words or of random keys; a wrong line, or a word that isn't UTF-8, has status 2. Each is told on
/// the error sink, as far as that can be written.
pub fn run<S: AsStr, R: Source, W: Sink, E: Sink>(
    alloc: Global,
    start: &Result<Start<S>, StartFault>,
    source: &mut R,
    sink: &mut W,
    errors: &mut E,
) -> Ran
    ensures run { IsRun (λ begun. map S.text begun.words.items) start.now
        (reads (R.remaining source.old) (R.reads source.old) (R.reads source.new) (R.failed source.old) (R.failed source.new))
        (writes (W.contents sink.old) (W.contents sink.new) (W.failed sink.old) (W.failed sink.new))
        (writes (E.contents errors.old) (E.contents errors.new) (E.failed errors.old) (E.failed errors.new)) result }
    ensures servable { (options : ServeOptions) → result ≡ Ran.Serve options → AreServable options }
{
    match start {
        Ok(start) => run_words(
            alloc,
            start.keys,
            start.words.as_slice(),
            source,
            sink,
            errors,
        ),
        Err(fault) => match fault {
            StartFault::NotUtf8 => Ran::Ended(tell(
                errors,
                b"error: a word of the command line isn't UTF-8\n",
                2,
            )),
            StartFault::NoMemory => Ran::Ended(tell(errors, b"no memory\n", 1)),
            StartFault::NoKeys => Ran::Ended(tell(errors, b"no random keys\n", 1)),
        },
    }
}
