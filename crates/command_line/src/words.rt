// The command line of `natsd` (docs/SCRIPT.md, "Statuses").
ghost use Rattle.std.specs.Prelude.{◌≡◌, ◌∷◌, [], ℕ, List, IfOk, codes, map};
ghost use Rattle.clap.specs.Words.{app_of, kind_of};
ghost use Rattle.clap.specs.declared.error.kind.ErrorKind.TheVariants.{OutOfMemory};

use crate::comparing::{CompareOptions, compare_command, compared_in};
use crate::files::{checked_file, policy_file};
use crate::keepalive::keepalive_in;
use crate::options::{
    Choices, ServeOptions, SplitOptions, check_command, is_set, log_in, options_of, serve_command,
    text_in,
};
use crate::question::{Question, explain_command, question_of};
use clap::error::ErrorKind;
use clap::{ArgMatches, Command, Error};
use std::alloc::{AllocError, Global};
use std::convert::AsStr;

/// What a command line asks for.
#[derive(Debug, Drop)]
pub enum Invocation {
    /// A task on standard input and output.
    Task(Task),
    /// A task that reads the file of this name in place of standard input.
    OnFile(Task, String),
    /// To write the parts of a policy, each as a policy of its own.
    Split(SplitOptions),
    /// To compare two policies.
    Compare(CompareOptions),
    /// To serve clients over sockets.
    Serve(ServeOptions),
}

/// What is done on standard input and output.
#[derive(Debug, Drop)]
pub enum Task {
    /// To play a script.
    Play,
    /// To check a policy.
    Check,
    /// To check a policy, with status 1 where a warning is told.
    Strict,
    /// To say which accounts of a policy exchange messages.
    Sets,
    /// To explain what a policy says to a question.
    Explain(Question),
    /// To say that a question is of no known kind.
    BadKind,
    /// To say that the word of the option `log` isn't known.
    BadLog,
    /// To say that the word of the option `keepalive` is neither `off` nor a number of seconds.
    BadKeepalive,
    /// To show this help.
    Help(String),
    /// To show this version.
    Version(String),
}

/// Why a command line gives no task.
#[derive(Debug, Drop)]
pub enum WordsFault {
    /// The line is wrong, as this text for the user says.
    WrongLine(String),
    /// Memory could not be had.
    NoMemory,
}

impl From<AllocError> for WordsFault {
    ghost use Rattle.std.specs.Prelude.{◌≡◌};
    ghost use Rattle.command_line.specs.declared.words.WordsFault.TheVariants.{NoMemory};

    ghost from_gives = { λ _ e. e ≡ NoMemory };

    fn from(_refused: AllocError) -> WordsFault {
        WordsFault::NoMemory
    }
}

ghost use Rattle.command_line.specs.Words.{natsd_app};

/// What `natsd` takes on its command line.
fn natsd_command<'a>(alloc: Global) -> Result<Command<'a>, AllocError>
    ensures { IfOk result (λ command. app_of command ≡ natsd_app) }
{
    Command::new(alloc, "natsd")
        .about("The routing core of a multi-tenant NATS server")
        .version("0.1.0")
        .disable_help_subcommand(true)
        .subcommand_required(true)
        .subcommand(Command::new(alloc, "play").about(
            "Plays a script of clients, and prints what each is sent",
        ))?
        .subcommand(check_command(alloc)?)?
        .subcommand(explain_command(alloc)?)?
        .subcommand(compare_command(alloc)?)?
        .subcommand(serve_command(alloc)?)
}

ghost use Rattle.clap.specs.Words.{found_of, rows_of, subcommand_rows_of};
ghost use Rattle.std.specs.Prelude.{if◌then◌else◌};
ghost use Rattle.command_line.specs.declared.words.Task.TheVariants.{Check, Sets, Strict};
ghost use Rattle.command_line.specs.Options.{AreDefaults};
ghost use Rattle.command_line.specs.Words.{checking, found_in, kinds_of, on_policy, IsAskedBy, IsCheck, IsComparing, IsInvokedAs, IsInvokedBy, IsReading, IsRefusal, IsServeOrMemory, IsServing, IsTaskOrMemory, IsUnknown, IsWrongOrMemory};

/// What is made of a line for which clap gives no matches.
fn read_refusal(alloc: Global, error: &Error) -> Result<Invocation, WordsFault>
    ensures { IsRefusal (kind_of error.now ∷ []) result }
{
    match error.kind() {
        ErrorKind::OutOfMemory => Err(WordsFault::NoMemory),
        ErrorKind::DisplayHelp => Ok(Invocation::Task(Task::Help(format!(in alloc; "{error}")?))),
        ErrorKind::DisplayVersion => Ok(Invocation::Task(Task::Version(format!(in alloc;
            "{error}"
        )?))),
        _ => Err(WordsFault::WrongLine(format!(in alloc; "{error}")?)),
    }
}

/// What a subcommand asks for, by its name and its arguments: `serve`, `explain`, `check`, `compare`, or else `play`.
fn invoked_as(alloc: Global, name: &str, options: &ArgMatches<'_>) -> Result<Invocation, AllocError>
    ensures { IfOk result (IsInvokedAs name.now (rows_of (found_of options.now))) }
{
    if name == "serve" {
        let served = served_by(alloc, options)?;
        return Ok(served);
    }
    if name == "explain" {
        let asked = asked_by(alloc, options)?;
        return Ok(asked);
    }
    if name == "check" {
        let checked = checked_by(alloc, options)?;
        return Ok(checked);
    }
    if name == "compare" {
        let compared = compared_by(alloc, options)?;
        return Ok(compared);
    }
    Ok(Invocation::Task(Task::Play))
}

/// What `serve` asks for, by its options.
fn served_by(alloc: Global, options: &ArgMatches<'_>) -> Result<Invocation, AllocError>
    ensures { IfOk result (IsServing (rows_of (found_of options.now))) }
{
    let Some(log) = log_in(options) else {
        return Ok(Invocation::Task(Task::BadLog));
    };
    let Some(keepalive) = keepalive_in(options) else {
        return Ok(Invocation::Task(Task::BadKeepalive));
    };
    let served = options_of(alloc, options, Choices { log, keepalive })?;
    Ok(Invocation::Serve(served))
}

/// What `compare` asks for, by its words.
fn compared_by(alloc: Global, options: &ArgMatches<'_>) -> Result<Invocation, AllocError>
    ensures { IfOk result (IsComparing (rows_of (found_of options.now))) }
{
    Ok(Invocation::Compare(compared_in(alloc, options)?))
}

/// What `check` asks for, by its options.
fn checked_by(alloc: Global, options: &ArgMatches<'_>) -> Result<Invocation, AllocError>
    ensures { IfOk result (IsCheck (rows_of (found_of options.now))) }
{
    let policy = checked_file(alloc, options)?;
    match text_in(alloc, options, "split")? {
        None => Ok(on_policy(checked_by_flags(options), policy)),
        Some(folder) => Ok(Invocation::Split(SplitOptions { folder, policy })),
    }
}

/// What is asked of a policy, by the options without a value.
fn checked_by_flags(options: &ArgMatches<'_>) -> Task
    ensures { result ≡ checking (rows_of (found_of options.now)) }
{
    checking(is_set(options, "sets"), is_set(options, "strict"))
}

/// What is asked of a policy, by whether its sets are, or that no warning is told.
fn checking(sets: bool, strict: bool) -> Task
    ensures { result ≡ (if sets then Sets else if strict then Strict else Check) }
{
    if sets {
        Task::Sets
    } else if strict {
        Task::Strict
    } else {
        Task::Check
    }
}

/// What `explain` asks for, by its arguments.
fn asked_by(alloc: Global, options: &ArgMatches<'_>) -> Result<Invocation, AllocError>
    ensures { IfOk result (IsAskedBy (rows_of (found_of options.now))) }
{
    match question_of(alloc, options)? {
        None => Ok(Invocation::Task(Task::BadKind)),
        Some(question) => {
            let policy = policy_file(alloc, options)?;
            Ok(on_policy(Task::Explain(question), policy))
        }
    }
}

/// A task on the policy of a file, or on that of standard input where no file is named.
fn on_policy(task: Task, file: Option<String>) -> Invocation
    ensures { result ≡ on_policy task file }
{
    match file {
        None => Invocation::Task(task),
        Some(file) => Invocation::OnFile(task, file),
    }
}

/// What the subcommand that the words name asks for.
fn invoked_by(alloc: Global, matches: &ArgMatches<'_>) -> Result<Invocation, AllocError>
    ensures { IfOk result (IsInvokedBy (subcommand_rows_of matches.now)) }
{
    match matches.subcommand() {
        None => Ok(Invocation::Task(Task::Play)),
        Some((name, options)) => invoked_as(alloc, name, options),
    }
}

/// What the words of a command line ask for. The first is the program's name.
///
/// The words are judged by clap: `play` asks for a script to be played, `check` for a policy to be checked, `explain` for
/// what a policy says to a question, `compare` for two policies to be compared, `serve` for clients to be served by its options, `--help`, `-h` and `play --help` for
/// help, `--version` for the version. `check` and `explain` read the policy on standard input, or in the file that their
/// option `--policy` names, `check` also in that of its word; `check` with the option `--sets` asks which accounts exchange
/// messages, with `--split` for a policy of each set of them, and with `--strict` for status 1 where a warning is told. Where they have the right number, the words of `explain` are a question; one of another kind
/// than `publish`, `subscribe`, `delivery` and `path` asks for that to be said, and so does another word of `serve`'s option
/// `--log` than `none`, `denials` and `all`, or of `--keepalive` than `off` and 1 to 32,767.
/// `WrongLine` comes with clap's text where the line is another, such as one with no word behind the name, with one
/// that is none of these or with a number out of its bounds; `NoMemory` where memory could not be had. No clause says
/// what the texts are.
pub fn read_words<S: AsStr>(alloc: Global, words: &[S]) -> Result<Invocation, WordsFault>
    ensures reading { IsReading (kinds_of (map S.text words.now)) (found_in (map S.text words.now)) result }
    ensures play { (name : List ℕ) → map S.text words.now ≡ name ∷ codes "play" ∷ [] → IsTaskOrMemory Task.Play result }
    ensures check { (name : List ℕ) → map S.text words.now ≡ name ∷ codes "check" ∷ [] → IsTaskOrMemory Task.Check result }
    ensures sets { (name : List ℕ) → map S.text words.now ≡ name ∷ codes "check" ∷ codes "--sets" ∷ [] → IsTaskOrMemory Task.Sets result }
    ensures serve { (name : List ℕ) → map S.text words.now ≡ name ∷ codes "serve" ∷ [] → IsServeOrMemory AreDefaults result }
    ensures unknown { (name word : List ℕ) → map S.text words.now ≡ name ∷ word ∷ [] → IsUnknown word → IsWrongOrMemory result }
    ensures none { (name : List ℕ) → map S.text words.now ≡ name ∷ [] → IsWrongOrMemory result }
{
    let command = natsd_command(alloc)?;
    match command.try_get_matches_from(words) {
        Ok(matches) => {
            let invocation = invoked_by(alloc, &matches)?;
            Ok(invocation)
        }
        Err(error) => read_refusal(alloc, &error),
    }
}
