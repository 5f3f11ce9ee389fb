//! On what terms users may answer requests.
use crate::Change;
use crate::members::Members;
use base::{Alike, NoMemory};

/// Appends the users that may answer requests on other terms.
pub(crate) fn add_answers<'a>(
    changes: &mut Vec<Change<'a>>,
    old: &Members<'a>,
    new: &Members<'a>,
) -> Result<(), NoMemory> {
    for member in new.by_account.as_slice() {
        let user = member.user;
        if let Some(before) = old.named(user.user.as_slice()) {
            let (was, now) = (before.user.rules.terms(), user.rules.terms());
            if !was.is_like(&now) {
                changes.push(Change::Answers {
                    account: user.account.as_slice(),
                    user: user.user.as_slice(),
                    old: was,
                    new: now,
                })?;
            }
        }
    }
    Ok(())
}
