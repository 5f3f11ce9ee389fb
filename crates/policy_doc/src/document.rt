use crate::Accounts;
use crate::exports::{ExportDoc, Kind};
use crate::permission_doc::PermDoc;
use account_mappings::AccountMap;
use base::{Copying, Items, NoMemory};
use bytes::Bytes;
use mapping::{Mapping, MappingError};
use std::alloc::Global;
use subjects::{Pattern, Subject};

/// What an operator writes down: the accounts by name. It may be invalid; a `Policy` is not.
#[derive(Debug)]
pub struct PolicyDoc {
    /// The accounts, each name once.
    pub accounts: Accounts,
    /// The version of the format in which it is written.
    pub version: Version,
    /// The permissions of each user that has none of its own, or none.
    pub default_permissions: Option<PermDoc>,
}

impl Drop for PolicyDoc {
    fn drop(self) {
        let Self {
            accounts: _,
            version: _,
            default_permissions: _,
        } = self;
    }
}

/// A version of the format of policies.
#[derive(Clone, Copy, Debug, PartialEq, Eq)]
pub enum Version {
    /// Without default permissions and mappings.
    One,
    /// With both.
    Two,
}

impl PolicyDoc {
    ghost use Rattle.std.specs.Prelude.{◌≡◌};
    ghost use Rattle.policy_doc.specs.Document.{counts_of};

    /// How many users, exports, imports and mapped sources the accounts have together.
    pub fn counts(&self) -> Counts
        ensures { result ≡ counts_of self.now.accounts }
    {
        counts_of(self.accounts.as_slice())
    }
}

/// How many users, exports, imports and mapped sources there are. A number has 128 bits, since no list of lists has more elements.
#[derive(Clone, Copy, Debug, PartialEq, Eq)]
pub struct Counts {
    /// The users.
    pub users: u128,
    /// The exports.
    pub exports: u128,
    /// The imports.
    pub imports: u128,
    /// The sources of mappings.
    pub mappings: u128,
}

ghost use Rattle.std.specs.Prelude.{◌≡◌};
ghost use Rattle.policy_doc.specs.Document.{counts_of};

fn counts_of(accounts: &[NamedAccount]) -> Counts
    ensures { result ≡ counts_of accounts.now }
{
    let mut users: u128 = 0;
    let mut exports: u128 = 0;
    let mut imports: u128 = 0;
    let mut mappings: u128 = 0;
    for named in accounts {
        users += named.account.users.len() as u128;
        exports += named.account.exports.len() as u128;
        imports += named.account.imports.len() as u128;
        mappings += named.account.mappings.len() as u128;
    }
    Counts {
        users,
        exports,
        imports,
        mappings,
    }
}

/// An account beside its name.
#[derive(Debug, Drop)]
pub struct NamedAccount {
    /// The bytes of its name.
    pub name: Bytes,
    /// What it has.
    pub account: AccountDoc,
}

/// What one account has: its users, exports and imports, each in the order in which they are written, and its mappings in the
/// order of their sources' bytes.
#[derive(Debug)]
pub struct AccountDoc {
    /// The users; a valid document has each name once over all accounts.
    pub users: Items<UserDoc>,
    /// What it offers to other accounts.
    pub exports: Items<ExportDoc>,
    /// What it takes of other accounts.
    pub imports: Items<ImportDoc>,
    /// Under which subjects its users' messages are sent on.
    pub mappings: Items<AccountMap>,
}

impl Drop for AccountDoc {
    fn drop(self) {
        let Self {
            users: _,
            exports: _,
            imports: _,
            mappings: _,
        } = self;
    }
}

/// What an account takes of another: the subjects of a pattern, under the names that it has for them.
#[derive(Debug)]
pub struct ImportDoc {
    /// Whether it is a stream or a service.
    pub kind: Kind,
    /// The name of the exporting account.
    pub account: Bytes,
    /// The pattern of the subjects, as the exporter has them.
    pub subject: Pattern,
    /// The template of the importer's subjects, or none. Any text may stand here; a valid document has a template.
    pub to: Option<Bytes>,
    /// What the importer's subjects have before those of the exporter, or nothing. A valid document has it or `to`,
    /// or neither.
    pub prefix: Option<Subject>,
}

impl ImportDoc {
    ghost use Rattle.mapping.specs.Fault.{IsMade};
    ghost use Rattle.policy_doc.specs.Imports.{mapping_fault, mapping_of};

    /// Returns how the importer's subjects are paired with the exporter's: by the template, else by the prefix, else each
    /// is its own; or the fault of that (docs/POLICY.md, "Exports and imports").
    pub fn mapping(&self, alloc: Global) -> Result<Mapping, MappingError>
        ensures { IsMade (mapping_of self.now) (mapping_fault self.now) result }
    {
        match (&self.to, &self.prefix) {
            (Some(template), _) => Mapping::with_to(alloc, &self.subject, template.as_slice()),
            (None, Some(prefix)) => Mapping::with_prefix(alloc, &self.subject, prefix),
            (None, None) => Mapping::identity(alloc, &self.subject),
        }
    }
}

impl Drop for ImportDoc {
    fn drop(self) {
        let Self {
            kind: _,
            account: _,
            subject: _,
            to: _,
            prefix: _,
        } = self;
    }
}

/// A user with its password. Without permissions it has the default ones, and without those it may do everything in its account.
#[derive(Debug)]
pub struct UserDoc {
    /// The bytes of its name.
    pub user: Bytes,
    /// The bytes of its password, in clear.
    pub password: Bytes,
    /// Its permission lists, or none.
    pub permissions: Option<PermDoc>,
}

impl Drop for UserDoc {
    fn drop(self) {
        let Self {
            user: _,
            password: _,
            permissions: _,
        } = self;
    }
}

impl Copying for PolicyDoc {
    fn copy(&self, alloc: Global) -> Result<PolicyDoc, NoMemory> {
        let default_permissions = match &self.default_permissions {
            Some(permissions) => Some(permissions.copy(alloc)?),
            None => None,
        };
        Ok(PolicyDoc {
            accounts: self.accounts.copy(alloc)?,
            version: self.version,
            default_permissions,
        })
    }
}

impl Copying for NamedAccount {
    fn copy(&self, alloc: Global) -> Result<NamedAccount, NoMemory> {
        Ok(NamedAccount {
            name: self.name.clone()?,
            account: self.account.copy(alloc)?,
        })
    }
}

impl Copying for AccountDoc {
    fn copy(&self, alloc: Global) -> Result<AccountDoc, NoMemory> {
        Ok(AccountDoc {
            users: self.users.copy(alloc)?,
            exports: self.exports.copy(alloc)?,
            imports: self.imports.copy(alloc)?,
            mappings: self.mappings.copy(alloc)?,
        })
    }
}

impl Copying for ImportDoc {
    fn copy(&self, alloc: Global) -> Result<ImportDoc, NoMemory> {
        let to = match &self.to {
            Some(text) => Some(text.clone()?),
            None => None,
        };
        let prefix = match &self.prefix {
            Some(prefix) => Some(prefix.copy(alloc)?),
            None => None,
        };
        Ok(ImportDoc {
            kind: self.kind,
            account: self.account.clone()?,
            subject: self.subject.copy(alloc)?,
            to,
            prefix,
        })
    }
}

impl Copying for UserDoc {
    fn copy(&self, alloc: Global) -> Result<UserDoc, NoMemory> {
        let permissions = match &self.permissions {
            Some(permissions) => Some(permissions.copy(alloc)?),
            None => None,
        };
        Ok(UserDoc {
            user: self.user.clone()?,
            password: self.password.clone()?,
            permissions,
        })
    }
}
