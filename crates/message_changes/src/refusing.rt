//! The reasons by which lists refuse what others allow, in the order in which they are asked.
ghost use Rattle.std.specs.Prelude.{◌≡◌, ◌++◌, ◌∷◌, [], cond, false, map, IfOk, OnOk};
ghost use Rattle.std.specs.List.{filter};
ghost use Rattle.std.specs.Option.{option_copied};
ghost use Rattle.message_changes.specs.Reasons.{denials, first_of, is_parted, late, own, queued_of, reason_view, rules_by, second_of, views, with_any, IsRefusing};

use crate::MessageKind;
use crate::form::{Form, reasons_of};
use crate::reasons::{TwoRules, deny_of, has_allow_list, listed_of};
use base::NoMemory;
use pattern_sets::{Cover, Reason};
use policy_doc::permission_doc::{Direction, PermEntry};
use std::alloc::Global;
use subjects::Pattern;

/// The reasons to refuse: the deny entries; with a queue, the allow entries for queues, by their patterns alone, of
/// which those come first that the allowing lists have no allow entry for queues around; between the two parts, that
/// no allow entry has it.
#[derive(Drop)]
pub(crate) struct Refusing<'a> {
    pub reasons: Vec<Reason<'a>>,
    /// How many are of deny entries.
    pub denials: usize,
    /// How many are of deny entries and of the first part of the allow entries.
    pub fresh: usize,
    /// How many those are, with that no allow entry has it.
    pub plain: usize,
    /// The allowing lists' own denials.
    pub own: Cover<'a>,
    /// The subjects of the refusing lists' allow entries.
    pub allowed: Cover<'a>,
    /// The refusing lists' allow entries for queues.
    pub queued: Cover<'a>,
}

impl<'a> Refusing<'a> {
    ghost use Rattle.std.specs.Prelude.{◌≡◌, false, true, List};
    ghost use Rattle.subjects.specs.Subject.{Token};
    ghost use Rattle.permissions.specs.Lists.{Rules};
    ghost use Rattle.message_changes.specs.Reasons.{reach_of, reason_view, IsRefusing};
    ghost use Rattle.message_changes.specs.declared.kind.MessageKind.{MessageKind};

    /// Returns how many of the reasons, from the first on, may refuse what this reason allows. What an allow entry
    /// for queues has whole isn't refused for lack of one; a plain entry allows nothing that one for queues has.
    pub(crate) fn reach_of(&self, reason: &Reason<'_>, is_queued: bool) -> usize
        ensures { (kind : MessageKind) (any : List Token) (one other : Rules) → IsRefusing kind any one other self.now → result ≡ reach_of kind any one other (reason_view reason.now) is_queued }
    {
        if is_queued {
            self.queued_reach(reason)
        } else {
            self.plain_reach(reason)
        }
    }

    fn queued_reach(&self, reason: &Reason<'_>) -> usize
        ensures { (kind : MessageKind) (any : List Token) (one other : Rules) → IsRefusing kind any one other self.now → result ≡ reach_of kind any one other (reason_view reason.now) true }
    {
        let is_had = self.queued.has(reason);
        if is_had {
            self.denials
        } else {
            self.reasons.len()
        }
    }

    fn plain_reach(&self, reason: &Reason<'_>) -> usize
        ensures { (kind : MessageKind) (any : List Token) (one other : Rules) → IsRefusing kind any one other self.now → result ≡ reach_of kind any one other (reason_view reason.now) false }
    {
        let is_had = self.allowed.has(reason);
        if is_had { self.fresh } else { self.plain }
    }
}

/// Returns the reasons by which the second lists refuse.
pub(crate) fn refusing_of<'a>(alloc: Global, rules: TwoRules<'a>) -> Result<Refusing<'a>, NoMemory>
    ensures { IfOk result (IsRefusing rules.entry.kind rules.entry.any.now (first_of rules.entry) (second_of rules.entry)) }
{
    let denied = deny_of(rules.one);
    let own = cover_of(alloc, Form::Whole(rules.kind), denied, rules.any)?;
    let listed = listed_of(rules.kind, rules.other);
    let allowed = cover_of(alloc, Form::Subjects(rules.kind), listed, rules.any)?;
    let queued = cover_of(alloc, Form::Queued, listed, rules.any)?;
    let mut reasons = denials_beside(alloc, rules, &own)?;
    let denials = reasons.len();
    let late = add_queued(alloc, &mut reasons, rules)?;
    let fresh = reasons.len();
    add_any(&mut reasons, rules)?;
    let plain = reasons.len();
    let last = late.as_slice();
    reasons.extend_from_slice(last)?;
    let refusing = Refusing {
        reasons,
        denials,
        fresh,
        plain,
        own,
        allowed,
        queued,
    };
    Ok(refusing)
}

/// Returns the second lists' denials, but those that the first refuse whole.
fn denials_beside<'a>(
    alloc: Global,
    rules: TwoRules<'a>,
    around: &Cover<'a>,
) -> Result<Vec<Reason<'a>>, NoMemory>
    requires { map reason_view around.now ≡ own rules.kind rules.any.now (first_of rules) }
    ensures { IfOk result (λ all. map reason_view all.items ≡ denials rules.entry.kind rules.entry.any.now (first_of rules.entry) (second_of rules.entry)) }
{
    let denied = deny_of(rules.other);
    let others = reasons_of(alloc, Form::Whole(rules.kind), denied, rules.any)?;
    let reasons = others.as_slice();
    let all = parted(alloc, reasons, around, false)?;
    Ok(all)
}

/// Appends the patterns of the second lists' allow entries for queues, where a queue is asked about, and returns
/// those that an allow entry for queues of the first is around.
fn add_queued<'a>(
    alloc: Global,
    reasons: &mut Vec<Reason<'a>>,
    rules: TwoRules<'a>,
) -> Result<Vec<Reason<'a>>, NoMemory>
    ensures fresh { OnOk result (map reason_view reasons.new.items ≡ map reason_view reasons.old.items
        ++ filter (is_parted false (queued_of rules.entry.kind rules.entry.any.now (first_of rules.entry))) (queued_of rules.entry.kind rules.entry.any.now (second_of rules.entry))) }
    ensures late { IfOk result (λ rest. map reason_view rest.items ≡ late rules.entry.kind rules.entry.any.now (first_of rules.entry) (second_of rules.entry)) }
{
    let own = queued_of(alloc, rules.kind, rules.one, rules.any)?;
    let around = Cover::of(alloc, own)?;
    let queued = queued_of(alloc, rules.kind, rules.other, rules.any)?;
    let all = queued.as_slice();
    let fresh = parted(alloc, all, &around, false)?;
    let first = fresh.as_slice();
    reasons.extend_from_slice(first)?;
    let late = parted(alloc, all, &around, true)?;
    Ok(late)
}

/// Appends that no allow entry has a question, where allow entries decide.
fn add_any<'a>(reasons: &mut Vec<Reason<'a>>, rules: TwoRules<'a>) -> Result<(), NoMemory>
    ensures { OnOk result (map reason_view reasons.new.items ≡ with_any rules.entry.kind rules.entry.any.now (second_of rules.entry) (map reason_view reasons.old.items)) }
{
    if !has_allow_list(rules.kind, rules.other) {
        return Ok(());
    }
    let reason = Reason {
        subject: rules.any,
        queue: rules.any,
    };
    reasons.push(reason)?;
    Ok(())
}

/// Returns the patterns of the allow entries for queues, as reasons of each queue, where a queue is asked about.
fn queued_of<'a>(
    alloc: Global,
    kind: MessageKind,
    rules: Option<&'a Direction>,
    any: &'a Pattern,
) -> Result<Vec<Reason<'a>>, NoMemory>
    ensures { IfOk result (λ all. map reason_view all.items ≡ queued_of kind any.now (rules_by (option_copied rules.entry))) }
{
    if !kind.has_queue() {
        return Ok(Vec::new(alloc));
    }
    let listed = listed_of(kind, rules);
    let all = reasons_of(alloc, Form::QueuedSubjects, listed, any)?;
    Ok(all)
}

/// Returns those of some reasons that one of others has all of, or those that none has.
fn parted<'a>(
    alloc: Global,
    reasons: &[Reason<'a>],
    others: &Cover<'_>,
    is_had: bool,
) -> Result<Vec<Reason<'a>>, NoMemory>
    ensures { IfOk result (λ all. map reason_view all.items ≡ filter (is_parted is_had (map reason_view others.now)) (map reason_view reasons.now)) }
{
    let mut all = Vec::new(alloc);
    for reason in reasons {
        add_if_parted(&mut all, reason, others, is_had)?;
    }
    Ok(all)
}

/// Appends a reason, if one of others has all of it, or if none has.
fn add_if_parted<'a>(
    all: &mut Vec<Reason<'a>>,
    reason: &Reason<'a>,
    others: &Cover<'_>,
    is_had: bool,
) -> Result<(), NoMemory>
    ensures { OnOk result (map reason_view all.new.items ≡ map reason_view all.old.items ++ cond (is_parted is_had (map reason_view others.now) (reason_view reason.now)) (reason_view reason.now ∷ []) []) }
{
    if !is_parted(reason, others, is_had) {
        return Ok(());
    }
    all.push(*reason)?;
    Ok(())
}

/// Whether one of some reasons has all of another, or none has.
fn is_parted(reason: &Reason<'_>, others: &Cover<'_>, is_had: bool) -> bool
    ensures { result ≡ is_parted is_had (map reason_view others.now) (reason_view reason.now) }
{
    let found = others.has(reason);
    if is_had { found } else { !found }
}

/// Returns the index of the entries that are taken, as reasons.
fn cover_of<'a>(
    alloc: Global,
    form: Form,
    entries: &'a [PermEntry],
    any: &'a Pattern,
) -> Result<Cover<'a>, NoMemory>
    ensures { IfOk result (λ cover. map reason_view cover ≡ views form any.now entries.now) }
{
    let reasons = reasons_of(alloc, form, entries, any)?;
    let cover = Cover::of(alloc, reasons)?;
    Ok(cover)
}
