// The options of `natsd serve` (docs/OPERATING.md, "Options"), and the policy's file of other commands.
ghost use Rattle.std.specs.Prelude.{◌≡◌, ◌≤◌, false, IfOk, codes, option_map, string_bytes};
ghost use Rattle.clap.specs.Words.{first_of, found_of, new_app, one_of, rows_of, rule_of};
ghost use Rattle.command_line.specs.Options.{check_app, connections_rule, flag_rule, history_bytes_rule, history_rule, is_set, listen_rule, log_named, log_rule, number_rule, outbox_rule, policy_rule, serve_app, text_rule, workers_rule, word_at, AreChosen, IsLocalApp, IsNumberIn, IsOptions};

use crate::files::{file_word, policy_file};
use crate::keepalive::keepalive_option;
use crate::stats::{period_in, stats_file_option, stats_option};
use clap::builder::ValueParser;
use clap::{Arg, ArgAction, ArgMatches, Command};
use std::alloc::{AllocError, Global};

/// What `natsd serve` is started with.
#[derive(Debug, Drop)]
pub struct ServeOptions {
    /// The file of the policy, which is read again when it changes. Without one, policies come as frames on standard
    /// input.
    pub policy: Option<String>,
    /// Where clients connect: an address and a port.
    pub listen: String,
    /// How many threads serve clients, 1 to 64.
    pub workers: u64,
    /// How many deliveries may wait for a session, 1 to 65,536.
    pub outbox: u64,
    /// How many entries the history may hold, at least 2.
    pub history: u64,
    /// How many bytes the entries of the history may keep, about, at least 1,048,576.
    pub history_bytes: u64,
    /// How many connections may be open, at least 1.
    pub connections: u64,
    /// For how many seconds a client may be silent before the system probes it, 1 to 32,767, or 0 if it never does.
    pub keepalive: u64,
    /// Whether clients are told of their subscriptions that a new policy removes.
    pub tells_removed: bool,
    /// What is told on standard error of clients and policies.
    pub log: LogChoice,
    /// After how many seconds a line on standard error tells what is counted, 1 to 86,400, if one does.
    pub stats: Option<u64>,
    /// The file in which the same is told as metrics, if one is named.
    pub stats_file: Option<String>,
}

/// Which of the words that a name chooses from were given.
#[derive(Clone, Copy, Debug)]
pub struct Choices {
    pub log: LogChoice,
    pub keepalive: u64,
}

/// What `natsd check --split` is started with.
#[derive(Debug, Drop)]
pub struct SplitOptions {
    /// The folder to be made, in which each part of the policy is written.
    pub folder: String,
    /// The file of the policy. Without one, it comes on standard input.
    pub policy: Option<String>,
}

/// What is told on standard error.
#[derive(Clone, Copy, Debug, PartialEq, Eq)]
pub enum LogChoice {
    /// Nothing.
    None,
    /// What was refused, who was closed for being slow, and what policies do.
    Denials,
    /// Connects and closings as well.
    All,
}

const LISTEN: &str = "127.0.0.1:4222";

const MOST_WORKERS: u64 = 64;

const MOST_OUTBOX: u64 = 65_536;

const LEAST_HISTORY: u64 = 2;

const LEAST_BYTES: u64 = 1_048_576;

const LEAST_CONNECTIONS: u64 = 1;

/// An option that takes a text.
pub(crate) fn text_option<'a>(
    alloc: Global,
    id: &'a str,
    shown_as: &'a str,
    help: &'a str,
) -> Arg<'a>
    ensures rule { rule_of result ≡ text_rule id.entry.now }
    ensures local { result.global ≡ false }
{
    Arg::new(alloc, id).long(id).value_name(shown_as).help(help)
}

/// Where clients connect.
fn listen_option<'a>(alloc: Global) -> Arg<'a>
    ensures rule { rule_of result ≡ listen_rule }
    ensures local { result.global ≡ false }
{
    text_option(alloc, "listen", "ADDR", "Where clients connect").default_value(LISTEN)
}

/// An option that takes a number within bounds.
fn number_option<'a>(
    alloc: Global,
    id: &'a str,
    help: &'a str,
    least: u64,
    most: u64,
    default: &'a str,
) -> Arg<'a>
    ensures rule { rule_of result ≡ number_rule id.entry.now least most default.entry.now }
    ensures local { result.global ≡ false }
{
    text_option(alloc, id, "N", help)
        .value_parser(ValueParser::unsigned(least, most))
        .default_value(default)
}

/// The file of the policy that `serve` takes.
fn policy_option<'a>(alloc: Global) -> Arg<'a>
    ensures rule { rule_of result ≡ policy_rule }
    ensures local { result.global ≡ false }
{
    text_option(
        alloc,
        "policy",
        "FILE",
        "The policy's file; without it, standard input",
    )
}

/// How many threads serve clients.
fn workers_option<'a>(alloc: Global) -> Arg<'a>
    ensures rule { rule_of result ≡ workers_rule }
    ensures local { result.global ≡ false }
{
    number_option(
        alloc,
        "workers",
        "Threads that serve clients, 1 to 64",
        1,
        MOST_WORKERS,
        "2",
    )
}

/// How many deliveries may wait for a client.
fn outbox_option<'a>(alloc: Global) -> Arg<'a>
    ensures rule { rule_of result ≡ outbox_rule }
    ensures local { result.global ≡ false }
{
    number_option(
        alloc,
        "outbox",
        "Most waiting deliveries, 1 to 65536",
        1,
        MOST_OUTBOX,
        "1024",
    )
}

/// How many entries the history holds.
fn history_option<'a>(alloc: Global) -> Arg<'a>
    ensures rule { rule_of result ≡ history_rule }
    ensures local { result.global ≡ false }
{
    number_option(
        alloc,
        "history",
        "Entries of history, 2 or more",
        LEAST_HISTORY,
        u64::MAX,
        "1000000",
    )
}

/// How many bytes its entries may keep.
fn history_bytes_option<'a>(alloc: Global) -> Arg<'a>
    ensures rule { rule_of result ≡ history_bytes_rule }
    ensures local { result.global ≡ false }
{
    number_option(
        alloc,
        "history-bytes",
        "Their bytes, 1048576 or more",
        LEAST_BYTES,
        u64::MAX,
        "268435456",
    )
}

/// How many connections may be open.
fn connections_option<'a>(alloc: Global) -> Arg<'a>
    ensures rule { rule_of result ≡ connections_rule }
    ensures local { result.global ≡ false }
{
    number_option(
        alloc,
        "connections",
        "Most open connections, 1 or more",
        LEAST_CONNECTIONS,
        u64::MAX,
        "8192",
    )
}

/// Whether clients are told what a new policy removes.
fn tell_removed_option<'a>(alloc: Global) -> Arg<'a>
    ensures rule { rule_of result ≡ flag_rule (codes "tell-removed") }
    ensures local { result.global ≡ false }
{
    flag(
        alloc,
        "tell-removed",
        "Tells clients of subscriptions that a reload ends",
    )
}

/// What is told on standard error.
fn log_option<'a>(alloc: Global) -> Arg<'a>
    ensures rule { rule_of result ≡ log_rule }
    ensures local { result.global ≡ false }
{
    text_option(alloc, "log", "WHAT", "The log: none, denials or all").default_value("denials")
}

/// The file of the policy that `check` and `explain` take.
pub(crate) fn policy_file_option<'a>(alloc: Global) -> Arg<'a>
    ensures rule { rule_of result ≡ policy_rule }
    ensures local { result.global ≡ false }
{
    text_option(
        alloc,
        "policy",
        "FILE",
        "The policy; without it, or with -, standard input",
    )
}

/// An option that is given or not, without a value.
pub(crate) fn flag<'a>(alloc: Global, id: &'a str, help: &'a str) -> Arg<'a>
    ensures rule { rule_of result ≡ flag_rule id.entry.now }
    ensures local { result.global ≡ false }
{
    Arg::new(alloc, id)
        .long(id)
        .action(ArgAction::SetTrue)
        .help(help)
}

/// A command without options.
pub(crate) fn local_command<'a>(alloc: Global, name: &'a str, about: &'a str) -> Command<'a>
    ensures { IsLocalApp (new_app name.entry.now) result }
{
    Command::new(alloc, name).about(about)
}

/// Returns the command `natsd check`, with the options that it takes.
pub fn check_command<'a>(alloc: Global) -> Result<Command<'a>, AllocError>
    ensures { IfOk result (IsLocalApp check_app) }
{
    local_command(
        alloc,
        "check",
        "Checks a policy: prints how much it has or its first fault",
    )
    .arg(policy_file_option(alloc))?
    .arg(flag(
        alloc,
        "sets",
        "Prints the sets of accounts that exchange messages",
    ))?
    .arg(split_option(alloc))?
    .arg(file_word(alloc))?
    .arg(flag(
        alloc,
        "strict",
        "Ends with status 1 where a warning is told",
    ))
}

/// The folder for the parts of the policy that `check` takes.
fn split_option<'a>(alloc: Global) -> Arg<'a>
    ensures rule { rule_of result ≡ text_rule (codes "split") }
    ensures local { result.global ≡ false }
{
    text_option(
        alloc,
        "split",
        "DIR",
        "Makes the folder DIR, with a policy for each such set",
    )
}

/// Returns the command `natsd serve`, with the options that it takes.
pub fn serve_command<'a>(alloc: Global) -> Result<Command<'a>, AllocError>
    ensures { IfOk result (IsLocalApp serve_app) }
{
    // Each option is made where it is added, so that no other has to be dropped where memory lacks.
    local_command(
        alloc,
        "serve",
        "Serves clients over sockets, by a policy that may change meanwhile",
    )
    .arg(policy_option(alloc))?
    .arg(listen_option(alloc))?
    .arg(workers_option(alloc))?
    .arg(outbox_option(alloc))?
    .arg(history_option(alloc))?
    .arg(history_bytes_option(alloc))?
    .arg(connections_option(alloc))?
    .arg(keepalive_option(alloc))?
    .arg(tell_removed_option(alloc))?
    .arg(log_option(alloc))?
    .arg(stats_option(alloc))?
    .arg(stats_file_option(alloc))
}

/// The text that was given for an option, or its default.
#[tactic(auto, using(crate::proofs::Rows::first_by_rows))]
pub(crate) fn text_in(
    alloc: Global,
    matches: &ArgMatches<'_>,
    id: &str,
) -> Result<Option<String>, AllocError>
    ensures { IfOk result (λ text. option_map string_bytes text ≡ first_of id.now (rows_of (found_of matches.now))) }
{
    match matches.get_str(id) {
        None => Ok(None),
        Some(text) => Ok(Some(String::from_str(alloc, text)?)),
    }
}

/// Whether an option without a value was given.
#[tactic(auto, using(crate::proofs::Rows::first_by_rows))]
pub(crate) fn is_set(matches: &ArgMatches<'_>, id: &str) -> bool
    ensures { result ≡ is_set id.now (rows_of (found_of matches.now)) }
{
    matches.get_str(id).unwrap_or("") == "true"
}

/// The number that was given for an option, or its default. Clap lets no other through than one within the bounds.
#[tactic(auto, using(crate::proofs::Rows::one_by_rows))]
pub(crate) fn number_in(matches: &ArgMatches<'_>, id: &str, least: u64, most: u64) -> u64
    requires { least ≤ most }
    ensures { IsNumberIn least most (one_of id.now (rows_of (found_of matches.now))) result }
{
    matches
        .get_one::<u64>(id)
        .unwrap_or(least)
        .clamp(least, most)
}

/// What is to be told, by the option `log` or its default, if its word is one that is known.
#[tactic(auto, using(crate::proofs::Rows::first_by_rows))]
pub(crate) fn log_in(matches: &ArgMatches<'_>) -> Option<LogChoice>
    ensures { result ≡ log_named (word_at (codes "log") (rows_of (found_of matches.now))) }
{
    log_named(matches.get_str("log").unwrap_or(""))
}

/// What a word of the option `log` names, if it names something.
fn log_named(word: &str) -> Option<LogChoice>
    ensures { result ≡ log_named word.now }
{
    match word {
        "none" => Some(LogChoice::None),
        "denials" => Some(LogChoice::Denials),
        "all" => Some(LogChoice::All),
        _ => None,
    }
}

/// What the options of `natsd serve` say, with the choices among them.
pub fn options_of(
    alloc: Global,
    matches: &ArgMatches<'_>,
    choices: Choices,
) -> Result<ServeOptions, AllocError>
    ensures { IfOk result (λ options. AreChosen (rows_of (found_of matches.now)) choices → IsOptions (rows_of (found_of matches.now)) options) }
{
    let policy = policy_file(alloc, matches)?;
    let stats_file = text_in(alloc, matches, "stats-file")?;
    let listen = match text_in(alloc, matches, "listen")? {
        Some(listen) => listen,
        None => String::from_str(alloc, LISTEN)?,
    };
    Ok(ServeOptions {
        policy,
        listen,
        workers: number_in(matches, "workers", 1, MOST_WORKERS),
        outbox: number_in(matches, "outbox", 1, MOST_OUTBOX),
        history: number_in(matches, "history", LEAST_HISTORY, u64::MAX),
        history_bytes: number_in(matches, "history-bytes", LEAST_BYTES, u64::MAX),
        connections: number_in(matches, "connections", LEAST_CONNECTIONS, u64::MAX),
        keepalive: choices.keepalive,
        tells_removed: is_set(matches, "tell-removed"),
        log: choices.log,
        stats: period_in(matches),
        stats_file,
    })
}
