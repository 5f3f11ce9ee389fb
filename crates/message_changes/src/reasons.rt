//! The search for a question that one user's lists allow and another's refuse.
ghost use Rattle.std.specs.Prelude.{◌≡◌, ◌++◌, ◌∷◌, [], cond, false, map, true, IfOk, OnOk, is_some};
ghost use Rattle.std.specs.List.{list_any};
ghost use Rattle.std.specs.Option.{option_copied};
ghost use Rattle.subjects.specs.Subject.{is_literal};
ghost use Rattle.pattern_sets.specs.Judging.{IsFound};
ghost use Rattle.pattern_sets.specs.Laws.{has_token};
ghost use Rattle.message_changes.specs.Judging.{differs};
ghost use Rattle.message_changes.specs.Exact.{AreAllAlike};
ghost use Rattle.message_changes.specs.Reasons.{all_entries, allowing_view, entries_in, entries_of, first_of, has_list, is_for_queues, is_reason, listed, most_in_queues, parts_of, reason_of, reasons, reasons_by_entries, reasons_without, rules_by, rules_of, second_of, subject_of, with_part, IsRefusing, IsSearch};

use crate::MessageKind;
use crate::form::Form;
use crate::judging::TwoLists;
use crate::refusing::{Refusing, refusing_of};
use base::{Alike, NoMemory};
use pattern_sets::{Allowing, Asked, Reason, Search, fresh_token, most_tokens};
use permissions::Compiled;
use policy_doc::permission_doc::{Direction, PermEntry};
use std::alloc::Global;
use subjects::Pattern;

/// The lists of two users that decide questions of a kind.
#[derive(Clone, Copy, Debug)]
pub(crate) struct TwoRules<'a> {
    pub kind: MessageKind,
    /// The lists that are to allow, if there are some.
    pub one: Option<&'a Direction>,
    /// The lists that are to refuse, if there are some.
    pub other: Option<&'a Direction>,
    /// The pattern `>`.
    pub any: &'a Pattern,
}

/// Returns a question of a kind that one user's lists allow and another's refuse: a concrete one with the fewest
/// tokens, or else, of subscriptions, one that ends in `>` with the fewest. `None` exactly where there is none.
/// `NoMemory` where memory could not be had.
pub fn first_between(
    alloc: Global,
    kind: MessageKind,
    one: &Compiled,
    other: &Compiled,
) -> Result<Option<Asked>, NoMemory>
    ensures found { IfOk result (IsFound (differs kind one.now other.now)) }
    ensures none { IfOk result (λ found. is_some found ≡ false → AreAllAlike kind one.now other.now) }
{
    let own = kind.rules_of(one);
    let others = kind.rules_of(other);
    if are_alike(own, others) {
        return Ok(None);
    }
    let any = any_pattern(alloc)?;
    let rules = TwoRules {
        kind,
        one: own,
        other: others,
        any: &any,
    };
    let lists = TwoLists { kind, one, other };
    let found = first_by(alloc, rules, &lists)?;
    Ok(found)
}

/// Returns the pattern `>`.
fn any_pattern(alloc: Global) -> Result<Pattern, NoMemory>
    ensures { IfOk result (λ any. any ≡ (62 ∷ []) ∷ []) }
{
    match Pattern::parse(alloc, b">") {
        Ok(any) => Ok(any),
        Err(_) => Err(NoMemory),
    }
}

/// Returns the first sample that the lists judge so.
fn first_by(
    alloc: Global,
    rules: TwoRules<'_>,
    lists: &TwoLists<'_>,
) -> Result<Option<Asked>, NoMemory>
    requires kind { rules.kind ≡ lists.now.kind }
    requires one { first_of rules ≡ rules_of lists.now.kind lists.now.one.now }
    requires other { second_of rules ≡ rules_of lists.now.kind lists.now.other.now }
    requires any { rules.any.now ≡ (62 ∷ []) ∷ [] }
    ensures found { IfOk result (IsFound (differs lists.now.kind lists.now.one.now lists.now.other.now)) }
    ensures none { IfOk result (λ found. is_some found ≡ false → AreAllAlike lists.now.kind lists.now.one.now lists.now.other.now) }
{
    let token = token_of(alloc, rules)?;
    let fresh = token.as_slice();
    let search = search_of(alloc, rules, fresh)?;
    let found = search.first(alloc, false, lists)?;
    if found.is_some() {
        return Ok(found);
    }
    if !rules.kind.has_tails() {
        return Ok(found);
    }
    let tailed = search.first(alloc, true, lists)?;
    Ok(tailed)
}

/// Returns a token that no entry has.
fn token_of(alloc: Global, rules: TwoRules<'_>) -> Result<Vec<u8>, NoMemory>
    ensures literal { IfOk result (λ token. is_literal token.items ≡ true) }
    ensures fresh { IfOk result (λ token. list_any (has_token token.items) (map subject_of (all_entries (first_of rules.entry) (second_of rules.entry)) ++ parts_of (all_entries (first_of rules.entry) (second_of rules.entry))) ≡ false) }
{
    let mut all = subjects_of(alloc, rules)?;
    let queues = queues_of(alloc, rules)?;
    let parts = queues.as_slice();
    all.extend_from_slice(parts)?;
    let patterns = all.as_slice();
    let token = fresh_token(alloc, patterns)?;
    Ok(token)
}

/// Returns the search for a question that the first lists allow and the second refuse.
fn search_of<'a>(
    alloc: Global,
    rules: TwoRules<'a>,
    token: &'a [u8],
) -> Result<Search<'a>, NoMemory>
    requires literal { is_literal token.now ≡ true }
    requires fresh { list_any (has_token token.now) (map subject_of (all_entries (first_of rules) (second_of rules)) ++ parts_of (all_entries (first_of rules) (second_of rules))) ≡ false }
    ensures { IfOk result (IsSearch rules.entry.kind rules.entry.any.now (first_of rules.entry) (second_of rules.entry)) }
{
    let refusing = refusing_of(alloc, rules)?;
    let allowing = allowing_of(alloc, rules, &refusing)?;
    let subjects = subjects_of(alloc, rules)?;
    let patterns = subjects.as_slice();
    let most = most_tokens(patterns);
    let most_of_queues = most_of_queues(alloc, rules)?;
    let search = Search {
        allowing,
        refusing: refusing.reasons,
        token,
        most,
        most_of_queues,
    };
    Ok(search)
}

/// Returns how many tokens of a queue are enough to be asked about, where a queue is.
fn most_of_queues(alloc: Global, rules: TwoRules<'_>) -> Result<Option<usize>, NoMemory>
    ensures { IfOk result (λ most. most ≡ most_in_queues rules.entry.kind (first_of rules.entry) (second_of rules.entry)) }
{
    if !rules.kind.has_queue() {
        return Ok(None);
    }
    let queues = queues_of(alloc, rules)?;
    let patterns = queues.as_slice();
    let most = most_tokens(patterns);
    Ok(Some(most))
}

/// Whether two users' lists are the same.
fn are_alike(one: Option<&Direction>, other: Option<&Direction>) -> bool
    ensures { result ≡ true → rules_by (option_copied one.entry) ≡ rules_by (option_copied other.entry) }
{
    match one {
        None => other.is_none(),
        Some(one) => match other {
            None => false,
            Some(other) => one.is_like(other),
        },
    }
}

/// Returns the patterns of all entries.
fn subjects_of<'a>(alloc: Global, rules: TwoRules<'a>) -> Result<Vec<&'a Pattern>, NoMemory>
    ensures { IfOk result (λ all. map (λ p. p.now) all.items ≡ map subject_of (all_entries (first_of rules.entry) (second_of rules.entry))) }
{
    let mut all = Vec::new(alloc);
    add_subjects_of(&mut all, rules.one)?;
    add_subjects_of(&mut all, rules.other)?;
    Ok(all)
}

/// Returns the queue parts of all entries.
fn queues_of<'a>(alloc: Global, rules: TwoRules<'a>) -> Result<Vec<&'a Pattern>, NoMemory>
    ensures { IfOk result (λ all. map (λ p. p.now) all.items ≡ parts_of (all_entries (first_of rules.entry) (second_of rules.entry))) }
{
    let mut all = Vec::new(alloc);
    add_queues_of(&mut all, rules.one)?;
    add_queues_of(&mut all, rules.other)?;
    Ok(all)
}

/// Appends the patterns of a direction's entries.
fn add_subjects_of<'a>(
    all: &mut Vec<&'a Pattern>,
    rules: Option<&'a Direction>,
) -> Result<(), NoMemory>
    ensures { OnOk result (map (λ p. p.now) all.new.items ≡ map (λ p. p.now) all.old.items ++ map subject_of (entries_in (rules_by (option_copied rules.entry)))) }
{
    let allow = allow_of(rules);
    add_subjects(all, allow)?;
    let deny = deny_of(rules);
    add_subjects(all, deny)?;
    Ok(())
}

/// Appends the queue parts of a direction's entries.
fn add_queues_of<'a>(
    all: &mut Vec<&'a Pattern>,
    rules: Option<&'a Direction>,
) -> Result<(), NoMemory>
    ensures { OnOk result (map (λ p. p.now) all.new.items ≡ map (λ p. p.now) all.old.items ++ parts_of (entries_in (rules_by (option_copied rules.entry)))) }
{
    let allow = allow_of(rules);
    add_queues(all, allow)?;
    let deny = deny_of(rules);
    add_queues(all, deny)?;
    Ok(())
}

/// Appends the patterns of entries.
fn add_subjects<'a>(all: &mut Vec<&'a Pattern>, entries: &'a [PermEntry]) -> Result<(), NoMemory>
    ensures { OnOk result (map (λ p. p.now) all.new.items ≡ map (λ p. p.now) all.old.items ++ map subject_of entries.now) }
{
    for entry in entries {
        all.push(&entry.subject)?;
    }
    Ok(())
}

/// Appends the queue parts of entries.
fn add_queues<'a>(all: &mut Vec<&'a Pattern>, entries: &'a [PermEntry]) -> Result<(), NoMemory>
    ensures { OnOk result (map (λ p. p.now) all.new.items ≡ map (λ p. p.now) all.old.items ++ parts_of entries.now) }
{
    for entry in entries {
        add_queue(all, entry)?;
    }
    Ok(())
}

/// Appends an entry's queue part, if it has one.
fn add_queue<'a>(all: &mut Vec<&'a Pattern>, entry: &'a PermEntry) -> Result<(), NoMemory>
    ensures { OnOk result (map (λ p. p.now) all.new.items ≡ map (λ p. p.now) all.old.items ++ with_part entry.now.queue []) }
{
    match &entry.queue {
        None => Ok(()),
        Some(queue) => {
            all.push(queue)?;
            Ok(())
        }
    }
}

/// Returns the allow entries of a direction.
pub(crate) fn allow_of(rules: Option<&Direction>) -> &[PermEntry]
    ensures { result.now ≡ entries_of (rules_by (option_copied rules.entry)).allow }
{
    match rules {
        None => &[],
        Some(rules) => match &rules.allow {
            None => &[],
            Some(entries) => entries.as_slice(),
        },
    }
}

/// Returns the deny entries of a direction.
pub(crate) fn deny_of(rules: Option<&Direction>) -> &[PermEntry]
    ensures { result.now ≡ (rules_by (option_copied rules.entry)).deny }
{
    match rules {
        None => &[],
        Some(rules) => rules.deny.as_slice(),
    }
}

/// Whether allow entries decide.
pub(crate) fn has_allow_list(kind: MessageKind, rules: Option<&Direction>) -> bool
    ensures { result ≡ has_list kind (rules_by (option_copied rules.entry)) }
{
    match rules {
        None => false,
        Some(rules) => kind.has_allow() && rules.allow.is_some(),
    }
}

/// Returns the allow entries that decide.
pub(crate) fn listed_of(kind: MessageKind, rules: Option<&Direction>) -> &[PermEntry]
    ensures { result.now ≡ listed kind (rules_by (option_copied rules.entry)) }
{
    if has_allow_list(kind, rules) {
        allow_of(rules)
    } else {
        &[]
    }
}

/// Returns the reasons by which the first lists allow, but those that they refuse whole.
fn allowing_of<'a>(
    alloc: Global,
    rules: TwoRules<'a>,
    refusing: &Refusing<'a>,
) -> Result<Vec<Allowing<'a>>, NoMemory>
    requires { IsRefusing rules.kind rules.any.now (first_of rules) (second_of rules) refusing.now }
    ensures { IfOk result (λ all. map allowing_view all.items ≡ reasons rules.entry.kind rules.entry.any.now (first_of rules.entry) (second_of rules.entry)) }
{
    if has_allow_list(rules.kind, rules.one) {
        let all = by_entries(alloc, rules, allow_of(rules.one), refusing)?;
        Ok(all)
    } else {
        let all = without_entries(alloc, rules, refusing)?;
        Ok(all)
    }
}

/// Returns the allow entries that are looked at as reasons, but those that the same lists refuse whole.
fn by_entries<'a>(
    alloc: Global,
    rules: TwoRules<'a>,
    entries: &'a [PermEntry],
    refusing: &Refusing<'a>,
) -> Result<Vec<Allowing<'a>>, NoMemory>
    requires { IsRefusing rules.kind rules.any.now (first_of rules) (second_of rules) refusing.now }
    ensures { IfOk result (λ all. map allowing_view all.items ≡ reasons_by_entries rules.entry.kind rules.entry.any.now (first_of rules.entry) (second_of rules.entry) entries.now) }
{
    let mut all = Vec::new(alloc);
    for entry in entries {
        add_if_reason(&mut all, rules, entry, refusing)?;
    }
    Ok(all)
}

/// Appends an allow entry as a reason, if it is looked at and no denial of its lists has all of it.
fn add_if_reason<'a>(
    all: &mut Vec<Allowing<'a>>,
    rules: TwoRules<'a>,
    entry: &'a PermEntry,
    refusing: &Refusing<'a>,
) -> Result<(), NoMemory>
    requires { IsRefusing rules.kind rules.any.now (first_of rules) (second_of rules) refusing.now }
    ensures { OnOk result (map allowing_view all.new.items ≡ map allowing_view all.old.items
        ++ cond (is_reason rules.entry.kind rules.entry.any.now (first_of rules.entry) entry.now) (reason_of rules.entry.kind rules.entry.any.now (first_of rules.entry) (second_of rules.entry) entry.now ∷ []) []) }
{
    if !is_reason(rules, entry, refusing) {
        return Ok(());
    }
    let reason = allowing_by(rules, entry, refusing);
    all.push(reason)?;
    Ok(())
}

/// Whether an allow entry is looked at, and no denial of its lists has all of it.
fn is_reason<'a>(rules: TwoRules<'a>, entry: &'a PermEntry, refusing: &Refusing<'a>) -> bool
    requires { IsRefusing rules.kind rules.any.now (first_of rules) (second_of rules) refusing.now }
    ensures { result ≡ is_reason rules.entry.kind rules.entry.any.now (first_of rules.entry) entry.now }
{
    let form = Form::Whole(rules.kind);
    let reason = form.reason(entry, rules.any);
    let is_refused = refusing.own.has(&reason);
    let is_looked_at = rules.kind.looks_at(entry);
    is_looked_at && !is_refused
}

/// Returns an allow entry as a reason, with its reach.
fn allowing_by<'a>(
    rules: TwoRules<'a>,
    entry: &'a PermEntry,
    refusing: &Refusing<'a>,
) -> Allowing<'a>
    requires { IsRefusing rules.kind rules.any.now (first_of rules) (second_of rules) refusing.now }
    ensures { allowing_view result ≡ reason_of rules.entry.kind rules.entry.any.now (first_of rules.entry) (second_of rules.entry) entry.now }
{
    let form = Form::Whole(rules.kind);
    let reason = form.reason(entry, rules.any);
    let is_queued = is_for_queues(rules.kind, entry);
    let reach = refusing.reach_of(&reason, is_queued);
    Allowing { reason, reach }
}

/// Whether an entry is for queues, and a queue is asked about.
fn is_for_queues(kind: MessageKind, entry: &PermEntry) -> bool
    ensures { result ≡ is_for_queues kind entry.now }
{
    kind.has_queue() && entry.queue.is_some()
}

/// Returns each question as a reason, unless a denial of the same lists has them all.
fn without_entries<'a>(
    alloc: Global,
    rules: TwoRules<'a>,
    refusing: &Refusing<'a>,
) -> Result<Vec<Allowing<'a>>, NoMemory>
    requires { IsRefusing rules.kind rules.any.now (first_of rules) (second_of rules) refusing.now }
    ensures { IfOk result (λ all. map allowing_view all.items ≡ reasons_without rules.entry.kind rules.entry.any.now (first_of rules.entry) (second_of rules.entry)) }
{
    let mut all = Vec::new(alloc);
    let reason = Reason {
        subject: rules.any,
        queue: rules.any,
    };
    let is_refused = refusing.own.has(&reason);
    if is_refused {
        return Ok(all);
    }
    let reach = refusing.reach_of(&reason, false);
    all.push(Allowing { reason, reach })?;
    Ok(all)
}
