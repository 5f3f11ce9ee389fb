// The files of policies that `check` and `explain` read (docs/POLICY.md, "Checking a policy").
ghost use Rattle.std.specs.Prelude.{◌≡◌, IfOk, codes, false, option_map, string_bytes};
ghost use Rattle.std.specs.Str.{bytes_eq};
ghost use Rattle.clap.specs.Words.{found_of, rows_of, rule_of};
ghost use Rattle.command_line.specs.Files.{checked_file, file_rule, policy_file, unless_dash};

use crate::options::text_in;
use clap::{Arg, ArgMatches};
use std::alloc::{AllocError, Global};

/// The file of the policy that `check` takes as a word.
pub(crate) fn file_word<'a>(alloc: Global) -> Arg<'a>
    ensures rule { rule_of result ≡ file_rule }
    ensures local { result.global ≡ false }
{
    Arg::new(alloc, "file")
        .value_name("FILE")
        .help("The policy, as with --policy")
}

/// The file of the policy that the option `policy` names. A hyphen names standard input, as does nothing.
pub(crate) fn policy_file(
    alloc: Global,
    matches: &ArgMatches<'_>,
) -> Result<Option<String>, AllocError>
    ensures { IfOk result (λ file. option_map string_bytes file ≡ policy_file (rows_of (found_of matches.now))) }
{
    let file = text_in(alloc, matches, "policy")?;
    Ok(unless_dash(file))
}

/// The file of the policy that `check` is to read: that of its word, or else of the option `policy`.
pub(crate) fn checked_file(
    alloc: Global,
    matches: &ArgMatches<'_>,
) -> Result<Option<String>, AllocError>
    ensures { IfOk result (λ file. option_map string_bytes file ≡ checked_file (rows_of (found_of matches.now))) }
{
    match text_in(alloc, matches, "file")? {
        Some(file) => Ok(unless_dash(Some(file))),
        None => policy_file(alloc, matches),
    }
}

/// A file, but none where its name is a hyphen.
fn unless_dash(file: Option<String>) -> Option<String>
    ensures { option_map string_bytes result ≡ unless_dash (option_map string_bytes file) }
{
    match file {
        None => None,
        Some(file) => { if is_dash(&file) { None } else { Some(file) } }
    }
}

/// Whether a file's name is a hyphen.
fn is_dash(file: &String) -> bool
    ensures { result ≡ bytes_eq (string_bytes file.now) (codes "-") }
{
    file.as_str() == "-"
}
