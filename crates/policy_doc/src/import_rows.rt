//! Whether the import rows of a document hold.
ghost use Rattle.std.specs.Prelude.{◌≡◌, ◌&&◌, Some, is_some};
ghost use Rattle.std.specs.Option.{option_map};
ghost use Rattle.policy_doc.specs.Imports.{cause_of, cause_with, export_of, fault_at, fault_in_imports, fault_in_rows, mapping_fault};

use crate::exports::may_import;
use crate::{Accounts, ImportDoc, NamedAccount, Place, PolicyFault};
use bytes::Bytes;
use mapping::templates::{count_tokens, is_longer, template_fault};

/// Why an import row doesn't hold.
#[derive(Clone, Copy, Debug)]
pub(crate) enum ImportFault {
    /// It names an account that isn't there.
    UnknownAccount,
    /// It names its own account.
    SelfImport,
    /// It has both a prefix and a template.
    PrefixAndTo,
    /// It has no mapping.
    BadMapping,
    /// The account that it names has no export for it.
    NotExported,
}

impl ImportFault {
    /// Returns the fault of a document whose row at this place doesn't hold.
    fn at(self, place: Place) -> PolicyFault
        ensures { result ≡ fault_at place self }
    {
        match self {
            ImportFault::UnknownAccount => PolicyFault::UnknownAccount(place),
            ImportFault::SelfImport => PolicyFault::SelfImport(place),
            ImportFault::PrefixAndTo => PolicyFault::PrefixAndTo(place),
            ImportFault::BadMapping => PolicyFault::BadMapping(place),
            ImportFault::NotExported => PolicyFault::ImportNotExported(place),
        }
    }
}

/// Returns the fault of the first import row, by account and row, that doesn't hold.
pub(crate) fn fault_in_imports(accounts: &Accounts) -> Option<PolicyFault>
    ensures { result ≡ fault_in_imports accounts.now 0 accounts.now }
{
    for (account, named) in accounts.as_slice().iter().enumerate() {
        match fault_in_rows(accounts, account, named) {
            Some(fault) => return Some(fault),
            None => {}
        }
    }
    None
}

/// Returns the fault of the first import row of an account that doesn't hold.
fn fault_in_rows(accounts: &Accounts, account: usize, named: &NamedAccount) -> Option<PolicyFault>
    ensures { result ≡ fault_in_rows accounts.now named.now.name account 0 named.now.account.imports }
{
    for (row, import) in named.account.imports.as_slice().iter().enumerate() {
        match import_fault(accounts, &named.name, import, Place { account, row }) {
            Some(fault) => return Some(fault),
            None => {}
        }
    }
    None
}

/// Returns the fault of a row of the importer in this place, if it doesn't hold.
pub fn import_fault(
    accounts: &Accounts,
    importer: &Bytes,
    import: &ImportDoc,
    place: Place,
) -> Option<PolicyFault>
    ensures { result ≡ option_map (fault_at place) (cause_of accounts.now importer.now import.now) }
{
    match cause_of(accounts, importer, import) {
        None => None,
        Some(cause) => Some(cause.at(place)),
    }
}

/// Returns why a row of the importer doesn't hold.
fn cause_of(accounts: &Accounts, importer: &Bytes, import: &ImportDoc) -> Option<ImportFault>
    ensures { result ≡ cause_of accounts.now importer.now import.now }
{
    match accounts.get(&import.account) {
        None => Some(ImportFault::UnknownAccount),
        Some(exporter) => cause_with(importer, import, exporter),
    }
}

/// Returns why a row doesn't hold that imports from this account.
fn cause_with(importer: &Bytes, import: &ImportDoc, exporter: &NamedAccount) -> Option<ImportFault>
    ensures { result ≡ cause_with importer.now import.now (Some exporter.now) }
{
    if import.account == *importer {
        Some(ImportFault::SelfImport)
    } else if has_prefix_and_template(import) {
        Some(ImportFault::PrefixAndTo)
    } else if has_no_mapping(import) {
        Some(ImportFault::BadMapping)
    } else if has_export(importer, import, exporter) {
        None
    } else {
        Some(ImportFault::NotExported)
    }
}

fn has_prefix_and_template(import: &ImportDoc) -> bool
    ensures { result ≡ is_some import.now.prefix && is_some import.now.to }
{
    import.prefix.is_some() && import.to.is_some()
}

/// Whether a row has no mapping. The mapping isn't made, so it takes no memory.
fn has_no_mapping(import: &ImportDoc) -> bool
    ensures { result ≡ is_some (mapping_fault import.now) }
{
    match (&import.to, &import.prefix) {
        (Some(template), _) => template_fault(&import.subject, template.as_slice()).is_some(),
        (None, Some(prefix)) => is_longer(prefix.tokens(), 512 - count_tokens(&import.subject)),
        (None, None) => false,
    }
}

/// Whether an account has an export for a row.
fn has_export(importer: &Bytes, import: &ImportDoc, exporter: &NamedAccount) -> bool
    ensures { result ≡ is_some (export_of importer.now import.now exporter.now) }
{
    let exports = exporter.account.exports.as_slice();
    may_import(exports, importer, import.kind, &import.subject).is_some()
}
