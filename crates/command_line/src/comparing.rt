// What `natsd compare` is asked (docs/POLICY.md, "Comparing two policies").
ghost use Rattle.std.specs.Prelude.{IfOk};
ghost use Rattle.clap.specs.Words.{found_of, rows_of};
ghost use Rattle.command_line.specs.Options.{IsLocalApp};
ghost use Rattle.command_line.specs.Comparing.{compare_app, AreCompared};

use crate::options::{flag, is_set, local_command};
use crate::question::{wanted, word_in};
use clap::{ArgMatches, Command};
use std::alloc::{AllocError, Global};

/// Which policies `natsd compare` compares.
#[derive(Debug, Drop)]
pub struct CompareOptions {
    /// The file of the policy in force, or `-` for standard input.
    pub old: String,
    /// The file of the policy that is to come, or `-` for standard input.
    pub new: String,
    /// Whether a line is a JSON object.
    pub json: bool,
}

/// Returns the command `natsd compare`, with the words and the option that it takes.
pub fn compare_command<'a>(alloc: Global) -> Result<Command<'a>, AllocError>
    ensures { IfOk result (IsLocalApp compare_app) }
{
    local_command(
        alloc,
        "compare",
        "Compares two policies: prints what the second changes",
    )
    .arg(wanted(
        alloc,
        "old",
        "OLD",
        "The file of the policy in force, or - for standard input",
    ))?
    .arg(wanted(
        alloc,
        "new",
        "NEW",
        "The policy to come, likewise; token x is any that neither policy names",
    ))?
    .arg(flag(alloc, "json", "Prints each change as a JSON object"))
}

/// What `natsd compare` is asked, by its words.
pub fn compared_in(alloc: Global, matches: &ArgMatches<'_>) -> Result<CompareOptions, AllocError>
    ensures { IfOk result (AreCompared (rows_of (found_of matches.now))) }
{
    Ok(CompareOptions {
        old: word_in(alloc, matches, "old")?,
        new: word_in(alloc, matches, "new")?,
        json: is_set(matches, "json"),
    })
}
