// What `natsd serve` counts for its operator (docs/OPERATING.md, "Numbers").
ghost use Rattle.std.specs.Prelude.{◌≡◌, codes, false};
ghost use Rattle.clap.specs.Words.{found_of, one_of, rows_of, rule_of};
ghost use Rattle.command_line.specs.Options.{stats_file_rule, stats_rule, IsPeriodIn};

use crate::options::{number_in, text_option};
use clap::builder::ValueParser;
use clap::{Arg, ArgMatches};
use std::alloc::Global;

/// How many seconds may lie between two lines, a day.
const MOST: u64 = 86_400;

/// After how many seconds a line comes that tells what is counted.
pub(crate) fn stats_option<'a>(alloc: Global) -> Arg<'a>
    ensures rule { rule_of result ≡ stats_rule }
    ensures local { result.global ≡ false }
{
    text_option(
        alloc,
        "stats",
        "SECONDS",
        "Writes numbers to the log so often, 1 to 86400",
    )
    .value_parser(ValueParser::unsigned(1, MOST))
}

/// The file for what is counted.
pub(crate) fn stats_file_option<'a>(alloc: Global) -> Arg<'a>
    ensures rule { rule_of result ≡ stats_file_rule }
    ensures local { result.global ≡ false }
{
    text_option(
        alloc,
        "stats-file",
        "FILE",
        "The same for Prometheus; by default each 15 s",
    )
}

/// The seconds that were given, if they were. Clap refuses a word that is no number within the bounds.
pub(crate) fn period_in(matches: &ArgMatches<'_>) -> Option<u64>
    ensures { IsPeriodIn (one_of (codes "stats") (rows_of (found_of matches.now))) result }
{
    match matches.get_str("stats") {
        None => None,
        Some(_) => Some(number_in(matches, "stats", 1, MOST)),
    }
}
