// What a policy says to a question.
ghost use Rattle.std.specs.Prelude.{◌≡◌, IfOk};
ghost use Rattle.std.specs.Option.{option_map};
ghost use Rattle.tasks.specs.Explaining.{answered, answered_by, delivery_answer, of_explaining, of_parsing, path_answer, publish_answer, queue_asked, subscribe_answer, IsAnswered, IsAnsweredBy};

use crate::check::Report;
use base::{Items, NoMemory};
use command_line::{Question, QuestionKind};
use explain::{
    ExplainFault, explain_delivery, explain_path, explain_publish, explain_subscribe, path_lines,
};
use policy_doc::Policy;
use std::alloc::Global;
use subjects::{Pattern, Subject, SubjectError};

/// Why a question isn't answered.
#[derive(Clone, Copy, Debug, PartialEq, Eq)]
pub(crate) enum AnswerFault {
    /// The subject, pattern or queue name isn't one.
    BadSubject,
    /// No user has the name.
    NoSuchUser,
    /// No account has the name.
    NoSuchAccount,
    /// Memory could not be had.
    NoMemory,
}

impl From<SubjectError> for AnswerFault {
    ghost from_gives = { λ error e. e ≡ of_parsing error };

    fn from(error: SubjectError) -> AnswerFault {
        match error {
            SubjectError::NoMemory => AnswerFault::NoMemory,
            SubjectError::Empty
            | SubjectError::EmptyToken
            | SubjectError::BadByte
            | SubjectError::WildcardNotLast
            | SubjectError::TooManyTokens
            | SubjectError::Wildcard => AnswerFault::BadSubject,
        }
    }
}

impl From<ExplainFault> for AnswerFault {
    ghost from_gives = { λ fault e. e ≡ of_explaining fault };

    fn from(fault: ExplainFault) -> AnswerFault {
        match fault {
            ExplainFault::NoSuchUser => AnswerFault::NoSuchUser,
            ExplainFault::NoSuchAccount => AnswerFault::NoSuchAccount,
            ExplainFault::NoMemory => AnswerFault::NoMemory,
        }
    }
}

impl From<NoMemory> for AnswerFault {
    ghost use Rattle.tasks.specs.declared.answer.AnswerFault.TheVariants.{NoMemory};

    ghost from_gives = { λ _ e. e ≡ NoMemory };

    fn from(_refused: NoMemory) -> AnswerFault {
        AnswerFault::NoMemory
    }
}

/// Returns the report on a question to a policy.
pub(crate) fn answer_by(
    alloc: Global,
    question: &Question,
    policy: &Policy,
) -> Result<Report, NoMemory>
    ensures text { IfOk result (λ report. report.text ≡ (answered (answered_by question.now policy.now)).text) }
    ensures status { IfOk result (λ report. report.status ≡ (answered (answered_by question.now policy.now)).status) }
{
    match lines_of(alloc, question, policy) {
        Ok(lines) => Ok(Report {
            text: Items::from_vec(lines),
            status: 0,
        }),
        Err(fault) => match fault {
            AnswerFault::BadSubject => refusal(alloc, b"bad subject\n"),
            AnswerFault::NoSuchUser => refusal(alloc, b"no such user\n"),
            AnswerFault::NoSuchAccount => refusal(alloc, b"no such account\n"),
            AnswerFault::NoMemory => Err(NoMemory),
        },
    }
}

/// Returns the report that has a line and status 1.
fn refusal(alloc: Global, line: &[u8]) -> Result<Report, NoMemory>
    ensures text { IfOk result (λ report. report.text ≡ line.now) }
    ensures status { IfOk result (λ report. report.status ≡ 1) }
{
    Ok(Report {
        text: Items::from_vec(Vec::from_slice(alloc, line)?),
        status: 1,
    })
}

/// Returns the lines that answer a question.
fn lines_of(alloc: Global, question: &Question, policy: &Policy) -> Result<Vec<u8>, AnswerFault>
    ensures { IsAnswered (answered_by question.now policy.now) result }
{
    match question.kind {
        QuestionKind::Publish => on_publish(alloc, question, policy),
        QuestionKind::Subscribe => on_subscribe(alloc, question, policy),
        QuestionKind::Delivery => on_delivery(alloc, question, policy),
        QuestionKind::Path => on_path(alloc, question, policy),
    }
}

/// Returns the lines that say whether a user may publish.
fn on_publish(alloc: Global, question: &Question, policy: &Policy) -> Result<Vec<u8>, AnswerFault>
    ensures { IsAnswered (publish_answer question.now policy.now) result }
{
    let subject = Subject::parse(alloc, question.subject.as_bytes())?;
    let reason = explain_publish(alloc, policy, question.who.as_bytes(), &subject)?;
    let lines = reason.lines(alloc)?;
    Ok(lines)
}

/// Returns the lines that say whether a user may subscribe.
fn on_subscribe(alloc: Global, question: &Question, policy: &Policy) -> Result<Vec<u8>, AnswerFault>
    ensures { IsAnswered (subscribe_answer question.now policy.now) result }
{
    let pattern = Pattern::parse(alloc, question.subject.as_bytes())?;
    let queue = queue_of(alloc, &question.queue)?;
    let who = question.who.as_bytes();
    let reason = explain_subscribe(alloc, policy, who, &pattern, queue.as_ref())?;
    let lines = reason.lines(alloc)?;
    Ok(lines)
}

/// Returns the lines that say whether a message may be sent to a user's subscription.
fn on_delivery(alloc: Global, question: &Question, policy: &Policy) -> Result<Vec<u8>, AnswerFault>
    ensures { IsAnswered (delivery_answer question.now policy.now) result }
{
    let subject = Subject::parse(alloc, question.subject.as_bytes())?;
    let queue = queue_of(alloc, &question.queue)?;
    let who = question.who.as_bytes();
    let reason = explain_delivery(alloc, policy, who, &subject, queue.as_ref())?;
    let lines = reason.lines(alloc)?;
    Ok(lines)
}

/// Returns the lines that say where a message is sent on and seen.
fn on_path(alloc: Global, question: &Question, policy: &Policy) -> Result<Vec<u8>, AnswerFault>
    ensures { IsAnswered (path_answer question.now policy.now) result }
{
    let subject = Subject::parse(alloc, question.subject.as_bytes())?;
    let shares = explain_path(alloc, policy, question.who.as_bytes(), &subject)?;
    let lines = path_lines(alloc, shares.as_slice())?;
    Ok(lines)
}

/// Returns the queue name of a question, if it has one.
fn queue_of(alloc: Global, text: &Option<String>) -> Result<Option<Subject>, AnswerFault>
    ensures { IsAnsweredBy (queue_asked text.now) result }
{
    match text {
        None => Ok(None),
        Some(text) => Ok(Some(Subject::parse(alloc, text.as_bytes())?)),
    }
}
