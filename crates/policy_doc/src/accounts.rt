ghost use Rattle.std.specs.Prelude.{◌≡◌, find, MatchResult};
ghost use Rattle.std.specs.Option.{option_copied};
ghost use Rattle.policy_doc.specs.Accounts.{IsByName, IsGapFor, IsPlaceOf, has_name};

use crate::{AccountDoc, NamedAccount};
use base::{Copying, Items, NoMemory};
use bytes::Bytes;
use std::alloc::Global;
use std::marker::Model;

/// The accounts of a document, each name once. A clause sees them in the order of their names' bytes.
#[derive(Debug)]
pub struct Accounts {
    accounts: Vec<NamedAccount>,
}

impl Drop for Accounts {
    fn drop(self) {
        let Self { accounts: _ } = self;
    }
}

impl Model for Accounts {
    ghost use Rattle.std.specs.Prelude.{List};
    ghost use Rattle.policy_doc.specs.declared.document.NamedAccount.{NamedAccount};

    ghost Value = { List NamedAccount };

    ghost use Rattle.policy_doc.specs.Accounts.{IsByName};

    ghost view = { λ a. a.accounts.items };

    ghost invariant = { λ a. IsByName a.accounts.items };
}

impl Accounts {
    ghost use Rattle.std.specs.Prelude.{◌≡◌, [], OnOk, OnErr, find};
    ghost use Rattle.std.specs.Option.{option_copied};
    ghost use Rattle.policy_doc.specs.Accounts.{IsByName, has_name, with_account};

    /// No account.
    pub fn new(alloc: Global) -> Accounts
        ensures { result ≡ [] }
    {
        Accounts {
            accounts: Vec::new(alloc),
        }
    }

    /// The accounts in the order of their names' bytes.
    pub fn as_slice(&self) -> &[NamedAccount]
        ensures accounts { result.now ≡ self.now }
        ensures order { IsByName self.now }
    {
        self.accounts.as_slice()
    }

    /// The account of a name, found by halves; `None` where there is none.
    pub fn get(&self, name: &Bytes) -> Option<&NamedAccount>
        ensures { option_copied result ≡ find (has_name name.now) self.now }
    {
        named_in(self.accounts.as_slice(), name)
    }

    /// Adds an account. One that stands under the same name is replaced, as by a key that a JSON
    /// object has twice. `NoMemory` where memory could not be had; the accounts are then unchanged.
    pub fn insert(&mut self, name: Bytes, account: AccountDoc) -> Result<(), NoMemory>
        ensures ok { OnOk result (self.new ≡ with_account name account self.old) }
        ensures err { OnErr result (self.new ≡ self.old) }
    {
        match searched(self.accounts.as_slice(), &name) {
            Ok(place) => self.accounts[place] = NamedAccount { name, account },
            Err(place) => self.accounts.insert(place, NamedAccount { name, account })?,
        }
        Ok(())
    }
}

/// The account of a name among accounts in the order of their names.
fn named_in<'a>(accounts: &'a [NamedAccount], name: &Bytes) -> Option<&'a NamedAccount>
    requires { IsByName accounts.now }
    ensures { option_copied result ≡ find (has_name name.now) accounts.now }
{
    match searched(accounts, name) {
        Ok(place) => Some(&accounts[place]),
        Err(_) => None,
    }
}

/// Where the account of a name stands among accounts in the order of their names, or else where it belongs. It is looked
/// for by halves.
fn searched(accounts: &[NamedAccount], name: &Bytes) -> Result<usize, usize>
    requires { IsByName accounts.now }
    ensures { MatchResult result (IsPlaceOf name.now accounts.now) (IsGapFor name.now accounts.now) }
{
    accounts.binary_search_by(|a| a.name.cmp(name))
}

impl Copying for Accounts {
    fn copy(&self, alloc: Global) -> Result<Accounts, NoMemory> {
        let mut copies = Vec::with_capacity(alloc, self.accounts.len())?;
        for account in self.accounts.as_slice() {
            copies.push(account.copy(alloc)?)?;
        }
        Ok(Accounts { accounts: copies })
    }
}
