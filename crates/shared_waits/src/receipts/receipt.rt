ghost use Rattle.std.specs.Prelude.{◌≡◌};
ghost use Rattle.std.specs.List.{list_any};
ghost use Rattle.permissions.specs.Verdicts.{subscribe_verdict};
ghost use Rattle.policy_ready.specs.Users.{users_of};
ghost use Rattle.shared_waits.specs.receipts.Receipts.{has_verdict, may_respond, may_have, same_verdict, some_allows, is_of_policy as of_policy};

use events::{Answer, Command, Entry, Outcome};
use permissions::{By, Verdict};
use policy_ready::{CompiledPolicy, User};
use std::marker::Model;
use subjects::{Pattern, Subject};

/// What a seat was told of one event: the answer, which has the event, and the policy in force after it. It is a few
/// handles. A clause sees the entry and the policy. Its type keeps that where the outcome is Subscribed, Denied or
/// Published, some user of that policy has that verdict on what the command asked for.
#[derive(Debug)]
pub struct Receipt {
    answer: Answer,
    ready: CompiledPolicy,
}

impl Drop for Receipt {
    fn drop(self) {
        let Self {
            answer: _,
            ready: _,
        } = self;
    }
}

impl Model for Receipt {
    ghost use Rattle.std.specs.Prelude.{◌≡◌, true};
    ghost use Rattle.shared_waits.specs.receipts.Receipts;
    ghost use Rattle.shared_waits.specs.receipts.Receipts.{receipt, is_of_policy};

    ghost Value = { Receipts.Receipt };

    ghost view = { λ r. receipt r.answer r.ready };

    ghost invariant = { λ r. is_of_policy r.ready r.answer.event.what r.answer.outcome ≡ true };
}

impl Receipt {
    ghost use Rattle.std.specs.Prelude.{◌≡◌, true, false, MatchOption};
    ghost use Rattle.shared_waits.specs.receipts.Receipts.{receipt, is_of_policy};

    /// Makes the receipt of an answer under a policy. There is one exactly if the policy has a user with the verdict that
    /// the answer tells, or it tells none.
    pub fn from_parts(answer: Answer, ready: CompiledPolicy) -> Option<Receipt>
        ensures { MatchOption result (is_of_policy ready answer.event.what answer.outcome ≡ false) (λ made. (made ≡ receipt answer ready) × (is_of_policy ready answer.event.what answer.outcome ≡ true)) }
    {
        if is_of_policy(answer.get(), &ready) {
            Some(Receipt { answer, ready })
        } else {
            None
        }
    }

    /// Makes the receipt of an answer that the policy is known to have given.
    pub fn of(answer: Answer, ready: CompiledPolicy) -> Receipt
        requires { is_of_policy ready answer.event.what answer.outcome ≡ true }
        ensures { result ≡ receipt answer ready }
    {
        Receipt { answer, ready }
    }

    /// The number of the entry.
    pub fn number(&self) -> u64
        ensures { result ≡ self.now.entry.number }
    {
        self.answer.get().number
    }

    /// The answer, the command that it is an answer to, and the policy in force after it.
    pub fn parts(&self) -> (&Answer, &Command, &CompiledPolicy)
        ensures answer { result.0.now ≡ self.now.entry }
        ensures command { result.1.now ≡ self.now.entry.event.what }
        ensures ready { result.2.now ≡ self.now.policy }
        ensures verdict { is_of_policy self.now.policy self.now.entry.event.what self.now.entry.outcome ≡ true }
    {
        (&self.answer, &self.answer.get().event.what, &self.ready)
    }
}

/// Whether the policy has a user with the verdict that the entry tells, if it tells one.
fn is_of_policy(entry: &Entry, ready: &CompiledPolicy) -> bool
    ensures { result ≡ of_policy ready.now entry.now.event.what entry.now.outcome }
{
    let command = &entry.event.what;
    match &entry.outcome {
        Outcome::Subscribed => some_may_have(ready, command),
        Outcome::Denied(verdict) => some_has_verdict(ready, command, *verdict),
        Outcome::Published(by, _) => some_allows(ready, command, *by),
        _ => true,
    }
}

/// Whether some user may have the subscription that a command asks for.
fn some_may_have(ready: &CompiledPolicy, command: &Command) -> bool
    ensures { result ≡ list_any (may_have command.now) (users_of ready.now) }
{
    ready.users().iter().any(|user| may_have(command, user))
}

/// Whether some user has this verdict on what a command asks for.
fn some_has_verdict(ready: &CompiledPolicy, command: &Command, verdict: Verdict) -> bool
    ensures { result ≡ list_any (has_verdict command.now verdict) (users_of ready.now) }
{
    ready
        .users()
        .iter()
        .any(|user| has_verdict(command, verdict, user))
}

/// Whether the Pub of some user was allowed by this: by its lists, or as a response.
fn some_allows(ready: &CompiledPolicy, command: &Command, by: By) -> bool
    ensures { result ≡ some_allows ready.now command.now by }
{
    match by {
        By::All => some_has_verdict(ready, command, Verdict::Allowed(By::All)),
        By::Index(index) => some_has_verdict(ready, command, Verdict::Allowed(By::Index(index))),
        By::Grant => some_may_respond(ready, command),
    }
}

/// Whether some user may publish what a command asks for as a response alone.
fn some_may_respond(ready: &CompiledPolicy, command: &Command) -> bool
    ensures { result ≡ list_any (may_respond command.now) (users_of ready.now) }
{
    ready.users().iter().any(|user| may_respond(command, user))
}

/// The user's verdict on a subscription to a pattern, as a member of that queue group or of none.
fn on_subscription(user: &User, pattern: &Pattern, queue: &Option<Subject>) -> Verdict
    ensures { result ≡ subscribe_verdict user.now.rules pattern.now queue.now }
{
    match queue {
        None => user.rules.subscribe(pattern, None),
        Some(queue) => user.rules.subscribe(pattern, Some(queue)),
    }
}

/// Whether the user may have the subscription that a command asks for.
fn may_have(command: &Command, user: &User) -> bool
    ensures { result ≡ may_have command.now user.now }
{
    match command {
        Command::Sub { subject, queue, .. } => {
            on_subscription(user, subject.get(), queue).is_allowed()
        }
        _ => false,
    }
}

/// Whether the user has this verdict on what a command asks for.
fn has_verdict(command: &Command, verdict: Verdict, user: &User) -> bool
    ensures { result ≡ has_verdict command.now verdict user.now }
{
    match command {
        Command::Sub { subject, queue, .. } => {
            is_same(on_subscription(user, subject.get(), queue), verdict)
        }
        Command::Pub { message, .. } => is_same(user.rules.publish(&message.subject()), verdict),
        _ => false,
    }
}

/// Whether the user may publish what a command asks for as a response alone: it has terms, and its lists refuse.
fn may_respond(command: &Command, user: &User) -> bool
    ensures { result ≡ may_respond command.now user.now }
{
    match command {
        Command::Pub { message, .. } => {
            user.rules.terms().is_some() && !user.rules.publish(&message.subject()).is_allowed()
        }
        _ => false,
    }
}

/// Whether two verdicts are the same.
fn is_same(one: Verdict, other: Verdict) -> bool
    ensures { result ≡ same_verdict one other }
{
    one == other
}
