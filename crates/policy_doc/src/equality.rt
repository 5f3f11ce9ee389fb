//! Whether two documents are equal, part by part.
use crate::{AccountDoc, ImportDoc, NamedAccount, PolicyDoc, UserDoc};
use base::{Alike, are_alike};

impl Alike for PolicyDoc {
    fn is_like(&self, other: &PolicyDoc) -> bool {
        are_alike(self.accounts.as_slice(), other.accounts.as_slice())
            && self.version == other.version
            && self.default_permissions.is_like(&other.default_permissions)
    }
}

impl Alike for NamedAccount {
    fn is_like(&self, other: &NamedAccount) -> bool {
        self.name.is_like(&other.name) && self.account.is_like(&other.account)
    }
}

impl Alike for AccountDoc {
    fn is_like(&self, other: &AccountDoc) -> bool {
        self.users.is_like(&other.users)
            && self.exports.is_like(&other.exports)
            && self.imports.is_like(&other.imports)
            && self.mappings.is_like(&other.mappings)
    }
}

impl Alike for ImportDoc {
    fn is_like(&self, other: &ImportDoc) -> bool {
        self.kind.is_like(&other.kind)
            && self.account.is_like(&other.account)
            && self.subject.is_like(&other.subject)
            && self.to.is_like(&other.to)
            && self.prefix.is_like(&other.prefix)
    }
}

impl Alike for UserDoc {
    fn is_like(&self, other: &UserDoc) -> bool {
        self.user.is_like(&other.user)
            && self.password.is_like(&other.password)
            && self.permissions.is_like(&other.permissions)
    }
}
