// The question that is asked with `natsd explain` (docs/POLICY.md, "Explaining a verdict").
ghost use Rattle.std.specs.Prelude.{◌≡◌, IfOk, codes, false, string_bytes};
ghost use Rattle.clap.specs.Words.{found_of, rows_of, rule_of};
ghost use Rattle.command_line.specs.Options.{IsLocalApp};
ghost use Rattle.command_line.specs.Question.{explain_app, kind_named, wanted_rule, word_at, word_rule, IsQuestionIf};

use crate::options::{local_command, policy_file_option, text_in};
use clap::{Arg, ArgMatches, Command};
use std::alloc::{AllocError, Global};

/// What is asked of a policy.
#[derive(Debug, Drop)]
pub struct Question {
    /// What kind of question it is.
    pub kind: QuestionKind,
    /// The name of the user, or of the account for `Path`.
    pub who: String,
    /// The text of the subject or, for `Subscribe`, of the pattern.
    pub subject: String,
    /// The text of the queue name, if one is given.
    pub queue: Option<String>,
}

/// What kind of question is asked.
#[derive(Clone, Copy, Debug, PartialEq, Eq)]
pub enum QuestionKind {
    /// Whether a user may publish on a subject.
    Publish,
    /// Whether a user may subscribe to a pattern.
    Subscribe,
    /// Whether a message on a subject may be sent to a user's subscription.
    Delivery,
    /// In which accounts a message on a subject is seen that is published in an account.
    Path,
}

/// A word that `explain` takes at its place.
fn word<'a>(alloc: Global, id: &'a str, shown_as: &'a str, help: &'a str) -> Arg<'a>
    ensures rule { rule_of result ≡ word_rule id.entry.now }
    ensures local { result.global ≡ false }
{
    Arg::new(alloc, id).value_name(shown_as).help(help)
}

/// A word that has to be there.
pub(crate) fn wanted<'a>(alloc: Global, id: &'a str, shown_as: &'a str, help: &'a str) -> Arg<'a>
    ensures rule { rule_of result ≡ wanted_rule id.entry.now }
    ensures local { result.global ≡ false }
{
    word(alloc, id, shown_as, help).required(true)
}

/// Returns the command `natsd explain`, with the words and the option that it takes.
pub fn explain_command<'a>(alloc: Global) -> Result<Command<'a>, AllocError>
    ensures { IfOk result (IsLocalApp explain_app) }
{
    local_command(
        alloc,
        "explain",
        "Explains what a policy says: prints the verdict and its reason",
    )
    .arg(wanted(
        alloc,
        "kind",
        "KIND",
        "publish, subscribe, delivery or path",
    ))?
    .arg(wanted(alloc, "who", "WHO", "A user, or an account for path"))?
    .arg(wanted(
        alloc,
        "subject",
        "SUBJECT",
        "A subject, or a pattern for subscribe",
    ))?
    .arg(word(
        alloc,
        "queue",
        "QUEUE",
        "A queue name, for subscribe and delivery",
    ))?
    .arg(policy_file_option(alloc))
}

/// The kind of question that was given, if it is one.
#[tactic(auto, using(crate::proofs::Rows::first_by_rows))]
fn kind_in(matches: &ArgMatches<'_>) -> Option<QuestionKind>
    ensures { result ≡ kind_named (word_at (codes "kind") (rows_of (found_of matches.now))) }
{
    kind_named(matches.get_str("kind").unwrap_or(""))
}

/// The kind of question that a word names, if it names one.
fn kind_named(word: &str) -> Option<QuestionKind>
    ensures { result ≡ kind_named word.now }
{
    match word {
        "publish" => Some(QuestionKind::Publish),
        "subscribe" => Some(QuestionKind::Subscribe),
        "delivery" => Some(QuestionKind::Delivery),
        "path" => Some(QuestionKind::Path),
        _ => None,
    }
}

/// The question that the arguments of `natsd explain` are, if it is of a known kind.
pub fn question_of(alloc: Global, matches: &ArgMatches<'_>) -> Result<Option<Question>, AllocError>
    ensures { IfOk result (IsQuestionIf (rows_of (found_of matches.now))) }
{
    match kind_in(matches) {
        None => Ok(None),
        Some(kind) => Ok(Some(Question {
            kind,
            who: word_in(alloc, matches, "who")?,
            subject: word_in(alloc, matches, "subject")?,
            queue: text_in(alloc, matches, "queue")?,
        })),
    }
}

/// The text that was given for a word that has to be there.
#[tactic(auto, using(crate::proofs::Rows::first_by_rows))]
pub(crate) fn word_in(
    alloc: Global,
    matches: &ArgMatches<'_>,
    id: &str,
) -> Result<String, AllocError>
    ensures { IfOk result (λ text. string_bytes text ≡ word_at id.now (rows_of (found_of matches.now))) }
{
    String::from_str(alloc, matches.get_str(id).unwrap_or(""))
}
