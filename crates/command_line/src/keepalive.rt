// The option `keepalive` of `natsd serve` (docs/OPERATING.md, "Options").
ghost use Rattle.std.specs.Prelude.{◌≡◌, false};
ghost use Rattle.clap.specs.Words.{found_of, rows_of, rule_of};
ghost use Rattle.command_line.specs.Options.{keepalive_rule, word_at, IsKeepalive, IsSeconds};
ghost use Rattle.std.specs.Prelude.{codes};

use crate::options::text_option;
use clap::{Arg, ArgMatches};
use std::alloc::Global;

/// The fewest and the most seconds that the system takes.
const LEAST: u64 = 1;

const MOST: u64 = 32_767;

/// For how long a client may be silent.
pub(crate) fn keepalive_option<'a>(alloc: Global) -> Arg<'a>
    ensures rule { rule_of result ≡ keepalive_rule }
    ensures local { result.global ≡ false }
{
    text_option(
        alloc,
        "keepalive",
        "SECONDS",
        "Silence before a probe, or off",
    )
    .default_value("30")
}

/// Returns the seconds by the option `keepalive` or its default, 0 for `off`, if its word is one that is known.
#[tactic(auto, using(crate::proofs::Rows::first_by_rows))]
pub(crate) fn keepalive_in(matches: &ArgMatches<'_>) -> Option<u64>
    ensures { IsKeepalive (word_at (codes "keepalive") (rows_of (found_of matches.now))) result }
{
    keepalive_named(matches.get_str("keepalive").unwrap_or(""))
}

/// Returns the seconds that a word names, if it names some.
fn keepalive_named(word: &str) -> Option<u64>
    ensures { IsKeepalive word.now result }
{
    match word {
        "off" => Some(0),
        _ => seconds_in(word),
    }
}

/// Returns the number that a word is, if the system takes so many seconds.
fn seconds_in(word: &str) -> Option<u64>
    ensures { IsSeconds word.now result }
{
    match word.parse::<u64>() {
        Err(_) => None,
        Ok(seconds) => {
            if LEAST <= seconds && seconds <= MOST {
                Some(seconds)
            } else {
                None
            }
        }
    }
}
