//! Why a grant answers no more. It decides nothing: it is for who tells an operator.
use crate::grant_table::GrantTable;
use crate::subject_key::SubjectKey;
use crate::terms::{is_below, is_within};
use policy_doc::permission_doc::Terms;
use subjects::SubjectRef;

/// Why a grant answers no more.
#[derive(Clone, Copy, Debug, PartialEq, Eq)]
pub enum GrantEnd {
    /// As many answers have passed on it as may.
    UsedUp,
    /// It is older than it may be.
    Expired,
}

/// Returns why the subject's grant answers no more under these terms, where it doesn't and that is still known: a grant
/// that was dropped is, until it is removed.
pub(crate) fn end_of(
    table: &GrantTable,
    subject: &SubjectRef<'_>,
    now: u64,
    terms: Terms,
) -> Option<GrantEnd> {
    let granted = table.get(SubjectKey::of(subject))?;
    if !is_below(terms.max, granted.count) {
        Some(GrantEnd::UsedUp)
    } else if !is_within(terms.expires, now.saturating_sub(granted.noted)) {
        Some(GrantEnd::Expired)
    } else {
        None
    }
}
