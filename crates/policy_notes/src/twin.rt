//! The user that has the name of another already.
ghost use Rattle.std.specs.Prelude.{◌≡◌, IfOk};
ghost use Rattle.std.specs.Option.{option_copied};
ghost use Rattle.policy_notes.specs.Twins.{first_path, named_first, twin_path, user_in};

use crate::paths::user_path;
use base::NoMemory;
use policy_doc::{Place, PolicyDoc, PolicyFault, UserDoc};
use policy_text::account_config::read_policy;
use policy_text::reload::ReloadFault;
use policy_walk::Path;
use std::alloc::Global;

/// Returns the path of the name of the first user that has the name of the user with a fault, if that is the fault.
pub(crate) fn twin_path(
    alloc: Global,
    text: &str,
    fault: &ReloadFault,
) -> Result<Option<Path>, NoMemory>
    ensures { IfOk result (λ path. path ≡ twin_path text.now fault.now) }
{
    match fault {
        ReloadFault::Config(_) => Ok(None),
        ReloadFault::Policy { fault, .. } => match fault {
            PolicyFault::DuplicateUser(place) => first_path(alloc, text, *place),
            PolicyFault::UnknownAccount(_)
            | PolicyFault::SelfImport(_)
            | PolicyFault::PrefixAndTo(_)
            | PolicyFault::BadMapping(_)
            | PolicyFault::ImportNotExported(_)
            | PolicyFault::NoMemory => Ok(None),
        },
    }
}

/// Returns the path of the name of the first user of a text that has the name of the user in this row.
fn first_path(alloc: Global, text: &str, row: Place) -> Result<Option<Path>, NoMemory>
    ensures { IfOk result (λ path. path ≡ first_path text.now row) }
{
    match read_policy(alloc, text.as_bytes()) {
        Ok(doc) => named_first(alloc, &doc, row),
        // (a text with a fault in its rows has a document)
        Err(_) => Err(NoMemory),
    }
}

/// Returns the path of the name of a document's first user that has the name of the user in this row.
fn named_first(alloc: Global, doc: &PolicyDoc, row: Place) -> Result<Option<Path>, NoMemory>
    ensures { IfOk result (λ path. path ≡ named_first doc.now row) }
{
    match user_in(doc, row) {
        None => Ok(None),
        Some(user) => match user_path(alloc, doc, user.user.as_slice())? {
            None => Ok(None),
            Some(path) => Ok(Some(path.key(alloc, "user")?)),
        },
    }
}

/// Returns the user in this row, if there is one.
fn user_in(doc: &PolicyDoc, row: Place) -> Option<&UserDoc>
    ensures { option_copied result ≡ user_in doc.now row }
{
    match doc.accounts.as_slice().get(row.account) {
        None => None,
        Some(named) => named.account.users.as_slice().get(row.row),
    }
}
