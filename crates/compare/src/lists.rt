//! What each user that both policies have may do, and couldn't, or no longer may.
ghost use Rattle.std.specs.Prelude.{◌≡◌, All, IfOk, IfSome, OnOk, is_some, map, true, Some};
ghost use Rattle.std.specs.Option.{option_copied};
ghost use Rattle.subjects.specs.Subject.{tokens_of};
ghost use Rattle.permissions.specs.Lists.{lists_with};
ghost use Rattle.policy_ready.specs.Users.{user_named};
ghost use Rattle.message_changes.specs.Judging.{verdict_if, AreChanges};
ghost use Rattle.compare.specs.Members.{user_of, AreMembers, IsMember};
ghost use Rattle.compare.specs.Users.{line_by, line_of, AreAdded, AreAsked, AreBetween, AreLines, AreLinesIf, AreLinesOfAll, IsLine};

use crate::members::{Member, Members};
use crate::{Judged, ListChange, PolicyFile};
use base::{Copying, NoMemory};
use message_changes::{Asked, MessageChange, MessageKind, changes_between, verdict_on};
use permissions::{By, Compiled, Verdict};
use policy_doc::PolicyDoc;
use policy_doc::permission_doc::{Direction, PermEntry};
use std::alloc::Global;

/// A policy with its users.
type Side<'a, 'b> = (&'a PolicyFile, &'b Members<'a>);

/// A user of both policies, and the two policies.
#[derive(Clone, Copy)]
struct Pair<'a> {
    old: (&'a PolicyFile, Member<'a>),
    new: (&'a PolicyFile, Member<'a>),
}

/// Returns what users gain and lose. Those who have the default permissions of both policies are compared once.
pub(crate) fn lists_between<'a>(
    alloc: Global,
    old: Side<'a, '_>,
    new: Side<'a, '_>,
) -> Result<Vec<ListChange<'a>>, NoMemory>
    requires old { AreMembers old.0.now old.1.now }
    requires new { AreMembers new.0.now new.1.now }
    ensures { IfOk result (λ all. AreLinesOfAll old.entry.0.now (map user_of new.entry.1.now.by_account.items) all.items) }
{
    let (was, is) = (old.0.doc(), new.0.doc());
    let usual = usual_between(alloc, was, is)?;
    let members = new.1.by_account.as_slice();
    let lines = lines_of_all(alloc, old, new.0, members, usual.as_slice())?;
    Ok(lines)
}

/// Returns what these users gain and lose.
fn lines_of_all<'a>(
    alloc: Global,
    old: Side<'a, '_>,
    new: &'a PolicyFile,
    members: &[Member<'a>],
    usual: &[MessageChange],
) -> Result<Vec<ListChange<'a>>, NoMemory>
    requires old { AreMembers old.0.now old.1.now }
    requires each { All (IsMember new.now) members.now }
    requires usual { AreBetween (lists_with old.0.now.default_permissions) (lists_with new.now.default_permissions) usual.now }
    ensures { IfOk result (λ all. AreLinesOfAll old.entry.0.now (map user_of members.now) all.items) }
{
    let mut all = Vec::new(alloc);
    for member in members {
        add_member(alloc, &mut all, usual, old, (new, *member))?;
    }
    Ok(all)
}

/// Returns what whoever has the default permissions gains and loses.
fn usual_between(
    alloc: Global,
    old: &PolicyDoc,
    new: &PolicyDoc,
) -> Result<Vec<MessageChange>, NoMemory>
    ensures { IfOk result (λ found. AreBetween (lists_with old.now.default_permissions) (lists_with new.now.default_permissions) found.items) }
{
    let was = Compiled::of_permissions(alloc, old.default_permissions.as_ref())?;
    let now = Compiled::of_permissions(alloc, new.default_permissions.as_ref())?;
    let found = between(alloc, &was, &now)?;
    Ok(found)
}

/// Returns what is gained and lost between two lists.
fn between(alloc: Global, old: &Compiled, new: &Compiled) -> Result<Vec<MessageChange>, NoMemory>
    ensures { IfOk result (λ found. AreBetween old.now new.now found.items) }
{
    let found = changes_between(alloc, old, new)?;
    Ok(found)
}

/// Appends what a user gains and loses, if both policies have it.
fn add_member<'a>(
    alloc: Global,
    all: &mut Vec<ListChange<'a>>,
    usual: &[MessageChange],
    old: Side<'a, '_>,
    new: (&'a PolicyFile, Member<'a>),
) -> Result<(), NoMemory>
    requires old { AreMembers old.0.now old.1.now }
    requires new { IsMember new.0.now new.1 }
    requires usual { AreBetween (lists_with old.0.now.default_permissions) (lists_with new.0.now.default_permissions) usual.now }
    ensures { OnOk result (AreAdded (AreLinesIf (user_named old.entry.0.now new.entry.1.user.now.user) new.entry.1.user.now) all.old.items all.new.items) }
{
    let name = new.1.user.user.as_slice();
    match old.1.named(name) {
        None => Ok(()),
        Some(before) => {
            let pair = Pair {
                old: (old.0, before),
                new,
            };
            let mut lines = lines_for(alloc, &pair, usual)?;
            all.append(&mut lines)?;
            Ok(())
        }
    }
}

/// Returns what a user gains and loses.
fn lines_for<'a>(
    alloc: Global,
    pair: &Pair<'a>,
    usual: &[MessageChange],
) -> Result<Vec<ListChange<'a>>, NoMemory>
    requires old { IsMember pair.now.old.0.now pair.now.old.1 }
    requires new { IsMember pair.now.new.0.now pair.now.new.1 }
    requires usual { AreBetween (lists_with pair.now.old.0.now.default_permissions) (lists_with pair.now.new.0.now.default_permissions) usual.now }
    ensures { IfOk result (λ lines. AreLines (user_of pair.now.old.1) (user_of pair.now.new.1) lines.items) }
{
    if pair.old.1.has_own || pair.new.1.has_own {
        return own_lines(alloc, pair);
    }
    lines_by(alloc, pair, usual)
}

/// Returns what a user gains and loses, by its own lists.
fn own_lines<'a>(alloc: Global, pair: &Pair<'a>) -> Result<Vec<ListChange<'a>>, NoMemory>
    ensures { IfOk result (λ lines. AreLines (user_of pair.now.old.1) (user_of pair.now.new.1) lines.items) }
{
    let (old, new) = (&pair.old.1.user.rules, &pair.new.1.user.rules);
    let found = between(alloc, old, new)?;
    lines_by(alloc, pair, found.as_slice())
}

/// Returns the lines of what a user gains and loses.
fn lines_by<'a>(
    alloc: Global,
    pair: &Pair<'a>,
    found: &[MessageChange],
) -> Result<Vec<ListChange<'a>>, NoMemory>
    requires { AreBetween (user_of pair.now.old.1).rules (user_of pair.now.new.1).rules found.now }
    ensures { IfOk result (λ lines. AreLines (user_of pair.now.old.1) (user_of pair.now.new.1) lines.items) }
{
    let lines = lines_of(alloc, pair, found)?;
    Ok(lines)
}

/// Returns what was found of a user.
fn lines_of<'a>(
    alloc: Global,
    pair: &Pair<'a>,
    found: &[MessageChange],
) -> Result<Vec<ListChange<'a>>, NoMemory>
    requires { AreChanges (user_of pair.now.old.1).rules (user_of pair.now.new.1).rules found.now }
    ensures each { IfOk result (λ lines. map line_of lines.items ≡ map line_by found.now) }
    ensures verdicts { IfOk result (λ lines. All (IsLine (user_of pair.now.old.1) (user_of pair.now.new.1)) lines.items) }
{
    let mut lines = Vec::with_capacity(alloc, found.len())?;
    for change in found {
        let line = line_of(alloc, pair, change)?;
        lines.push(line)?;
    }
    Ok(lines)
}

/// Returns what was found of a user, with the verdicts of both policies.
fn line_of<'a>(
    alloc: Global,
    pair: &Pair<'a>,
    change: &MessageChange,
) -> Result<ListChange<'a>, NoMemory>
    requires { AreAsked (user_of pair.now.old.1).rules (user_of pair.now.new.1).rules change.now }
    ensures same { IfOk result (λ line. line_of line ≡ line_by change.now) }
    ensures verdicts { IfOk result (IsLine (user_of pair.now.old.1) (user_of pair.now.new.1)) }
{
    let asked = copy_of(alloc, &change.asked)?;
    let old = judged(alloc, pair.old, change)?;
    let new = judged(alloc, pair.new, change)?;
    let user = pair.new.1.user;
    Ok(ListChange {
        account: user.account.as_slice(),
        user: user.user.as_slice(),
        kind: change.kind,
        is_gain: change.is_gain,
        asked,
        old,
        new,
    })
}

/// Returns a question again.
fn copy_of(alloc: Global, asked: &Asked) -> Result<Asked, NoMemory>
    ensures subject { IfOk result (λ same. same.subject.items ≡ asked.now.subject.items) }
    ensures queue { IfOk result (λ same. same.queue ≡ asked.now.queue) }
{
    let queue = match &asked.queue {
        None => None,
        Some(queue) => Some(queue.copy(alloc)?),
    };
    Ok(Asked {
        subject: Vec::from_slice(alloc, asked.subject.as_slice())?,
        queue,
    })
}

/// Returns the verdict of a policy on a question, with the entry that it names.
fn judged<'a>(
    alloc: Global,
    side: (&'a PolicyFile, Member<'a>),
    change: &MessageChange,
) -> Result<Judged<'a>, NoMemory>
    requires { is_some (verdict_if change.now.kind (user_of side.1).rules (tokens_of change.now.asked.subject.items) change.now.asked.queue) ≡ true }
    ensures { IfOk result (λ judged. verdict_if change.now.kind (user_of side.entry.1).rules (tokens_of change.now.asked.subject.items) change.now.asked.queue ≡ Some judged.verdict) }
{
    let (file, member) = side;
    let rules = &member.user.rules;
    let verdict = verdict_of(alloc, rules, change)?;
    let account = member.user.account.as_slice();
    let place = file.place_of_entry(alloc, account, member.row, change.kind, verdict)?;
    Ok(Judged {
        verdict,
        entry: entry_of(change.kind, rules, verdict),
        place,
    })
}

/// Returns the verdict of lists on a question, which is one.
fn verdict_of(alloc: Global, rules: &Compiled, change: &MessageChange) -> Result<Verdict, NoMemory>
    requires { is_some (verdict_if change.now.kind rules.now (tokens_of change.now.asked.subject.items) change.now.asked.queue) ≡ true }
    ensures { IfOk result (λ verdict. verdict_if change.now.kind rules.now (tokens_of change.now.asked.subject.items) change.now.asked.queue ≡ Some verdict) }
{
    let text = change.asked.subject.as_slice();
    match verdict_on(alloc, change.kind, rules, text, change.asked.queue.as_ref())? {
        None => unreachable!(),
        Some(verdict) => Ok(verdict),
    }
}

/// Returns the entry that a verdict names, if it names one.
fn entry_of(kind: MessageKind, rules: &Compiled, verdict: Verdict) -> Option<&PermEntry> {
    let rules = kind.rules_of(rules)?;
    match verdict {
        Verdict::Allowed(By::Index(index)) | Verdict::NoQueueAllow(index) => {
            allow_entry(rules, index)
        }
        Verdict::DeniedBy(index) => rules.deny.as_slice().get(index),
        _ => None,
    }
}

/// Returns the allow entry at an index, if there is one.
fn allow_entry(rules: &Direction, index: usize) -> Option<&PermEntry> {
    rules.allow.as_ref()?.as_slice().get(index)
}
