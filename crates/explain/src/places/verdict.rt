//! The verdict on a question.
ghost use Rattle.std.specs.Prelude.{◌≡◌, IfOk, Option};
ghost use Rattle.std.specs.Option.{option_copied, option_map};
ghost use Rattle.explain.specs.Fault.{Answers};
ghost use Rattle.explain.specs.declared.explanation.Explanation.{Explanation};
ghost use Rattle.explain.specs.declared.fault.ExplainFault.TheVariants.{NoSuchUser};
ghost use Rattle.explain.specs.places.Verdict.{delivery_asked, delivery_of, publish_asked, publish_of, queue_if, subscribe_asked, subscribe_of, verdict_of, verdict_on};

use crate::{ExplainFault, Explanation, explain_delivery, explain_publish, explain_subscribe};
use base::NoMemory;
use command_line::{Question, QuestionKind};
use permissions::Verdict;
use policy_doc::Policy;
use std::alloc::Global;
use subjects::texts::{pattern_if, subject_if};
use subjects::{Pattern, Subject};

/// Returns the verdict on a question, if it has one: a user of that name, and a subject, a pattern and a queue that are some.
pub(crate) fn verdict_on(
    alloc: Global,
    policy: &Policy,
    question: &Question,
) -> Result<Option<Verdict>, NoMemory>
    ensures { IfOk result (λ verdict. verdict ≡ verdict_on policy.now question.now) }
{
    match question.kind {
        QuestionKind::Publish => on_publish(alloc, policy, question),
        QuestionKind::Subscribe => on_subscribe(alloc, policy, question),
        QuestionKind::Delivery => on_delivery(alloc, policy, question),
        QuestionKind::Path => Ok(None),
    }
}

/// Returns the verdict on a publish.
fn on_publish(
    alloc: Global,
    policy: &Policy,
    question: &Question,
) -> Result<Option<Verdict>, NoMemory>
    ensures { IfOk result (λ verdict. verdict ≡ publish_asked policy.now question.now) }
{
    match subject_if(alloc, question.subject.as_bytes())? {
        None => Ok(None),
        Some(subject) => publish_of(alloc, policy, question.who.as_bytes(), &subject),
    }
}

/// Returns the verdict on a user's publish.
fn publish_of(
    alloc: Global,
    policy: &Policy,
    who: &[u8],
    subject: &Subject,
) -> Result<Option<Verdict>, NoMemory>
    ensures { IfOk result (λ verdict. verdict ≡ publish_of policy.now who.now subject.now) }
{
    verdict_of(explain_publish(alloc, policy, who, subject))
}

/// Returns the verdict on a subscription.
fn on_subscribe(
    alloc: Global,
    policy: &Policy,
    question: &Question,
) -> Result<Option<Verdict>, NoMemory>
    ensures { IfOk result (λ verdict. verdict ≡ subscribe_asked policy.now question.now) }
{
    match pattern_if(alloc, question.subject.as_bytes())? {
        None => Ok(None),
        Some(pattern) => match queue_if(alloc, &question.queue)? {
            None => Ok(None),
            Some(queue) => {
                let who = question.who.as_bytes();
                subscribe_of(alloc, policy, who, &pattern, queue.as_ref())
            }
        },
    }
}

/// Returns the verdict on a user's subscription to a pattern, with a queue or without one.
fn subscribe_of(
    alloc: Global,
    policy: &Policy,
    who: &[u8],
    pattern: &Pattern,
    queue: Option<&Subject>,
) -> Result<Option<Verdict>, NoMemory>
    ensures { IfOk result (λ verdict. verdict ≡ subscribe_of policy.now who.now pattern.now (option_copied queue.entry)) }
{
    verdict_of(explain_subscribe(alloc, policy, who, pattern, queue))
}

/// Returns the verdict on a delivery.
fn on_delivery(
    alloc: Global,
    policy: &Policy,
    question: &Question,
) -> Result<Option<Verdict>, NoMemory>
    ensures { IfOk result (λ verdict. verdict ≡ delivery_asked policy.now question.now) }
{
    match subject_if(alloc, question.subject.as_bytes())? {
        None => Ok(None),
        Some(subject) => match queue_if(alloc, &question.queue)? {
            None => Ok(None),
            Some(queue) => {
                let who = question.who.as_bytes();
                delivery_of(alloc, policy, who, &subject, queue.as_ref())
            }
        },
    }
}

/// Returns the verdict on a message to a user's subscription that has a queue or none.
fn delivery_of(
    alloc: Global,
    policy: &Policy,
    who: &[u8],
    subject: &Subject,
    queue: Option<&Subject>,
) -> Result<Option<Verdict>, NoMemory>
    ensures { IfOk result (λ verdict. verdict ≡ delivery_of policy.now who.now subject.now (option_copied queue.entry)) }
{
    verdict_of(explain_delivery(alloc, policy, who, subject, queue))
}

/// Returns the verdict of an explanation, if the user was known.
#[tactic(auto, using(crate::proofs::places::Known::known_verdict, crate::proofs::places::Known::unknown_user))]
fn verdict_of(answer: Result<Explanation, ExplainFault>) -> Result<Option<Verdict>, NoMemory>
    ensures { (known : Option Explanation) → Answers NoSuchUser known answer → IfOk result (λ verdict. verdict ≡ verdict_of known) }
{
    match answer {
        Ok(explanation) => Ok(Some(explanation.verdict)),
        Err(fault) => match fault {
            ExplainFault::NoSuchUser => Ok(None),
            ExplainFault::NoSuchAccount => Err(NoMemory),
            ExplainFault::NoMemory => Err(NoMemory),
        },
    }
}

/// Returns the queue of a question: there may be none, and it may be none that a queue can have.
fn queue_if(alloc: Global, text: &Option<String>) -> Result<Option<Option<Subject>>, NoMemory>
    ensures { IfOk result (λ queue. queue ≡ queue_if text.now) }
{
    match text {
        None => Ok(Some(None)),
        Some(text) => match subject_if(alloc, text.as_bytes())? {
            None => Ok(None),
            Some(queue) => Ok(Some(Some(queue))),
        },
    }
}
