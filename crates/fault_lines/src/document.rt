//! Every fault of a document as a policy.
ghost use Rattle.std.specs.Prelude.{◌≡◌, ◌++◌, [], IfOk, OnOk};
ghost use Rattle.policy_doc.specs.Document.{users_of};
ghost use Rattle.fault_lines.specs.Documents.{faults_of_document, with_causes, with_fault, with_import_faults, with_twin, with_twin_faults, with_twins};

use base::NoMemory;
use bytes::Bytes;
use policy_doc::{
    Accounts, NamedAccount, Place, PolicyDoc, PolicyFault, UserDoc, import_fault, stands_before,
};
use std::alloc::Global;

/// Returns every fault of a document as a policy, in the order of `PolicyFault`: each user whose name an earlier one
/// has, and each import that doesn't hold. `NoMemory` where memory could not be had.
pub fn faults_of_document(alloc: Global, doc: &PolicyDoc) -> Result<Vec<PolicyFault>, NoMemory>
    ensures { IfOk result (λ faults. faults.items ≡ faults_of_document doc.now) }
{
    let mut faults = Vec::new(alloc);
    push_twins(doc.accounts.as_slice(), &mut faults)?;
    push_imports(&doc.accounts, &mut faults)?;
    Ok(faults)
}

/// Appends each user of these accounts whose name an earlier one has.
#[tactic(auto, unfolding(crate::specs::Documents::with_twin_faults))]
fn push_twins(accounts: &[NamedAccount], faults: &mut Vec<PolicyFault>) -> Result<(), NoMemory>
    ensures { OnOk result (faults.new.items ≡ with_twin_faults [] 0 accounts.now faults.old.items) }
{
    for (account, named) in accounts.iter().enumerate() {
        let users = named.account.users.as_slice();
        push_twins_in(&accounts[..account], account, users, faults)?;
    }
    Ok(())
}

/// Appends each user of an account whose name an earlier one has, there or in an earlier account.
#[tactic(auto, unfolding(crate::specs::Documents::with_twins))]
fn push_twins_in(
    earlier: &[NamedAccount],
    account: usize,
    users: &[UserDoc],
    faults: &mut Vec<PolicyFault>,
) -> Result<(), NoMemory>
    ensures { OnOk result (faults.new.items ≡ with_twins (users_of earlier.now) account 0 users.now faults.old.items) }
{
    for (row, user) in users.iter().enumerate() {
        push_twin(
            earlier,
            &users[..row],
            &user.user,
            Place { account, row },
            faults,
        )?;
    }
    Ok(())
}

/// Appends a user in this place whose name an earlier one has: of these accounts, or these users.
fn push_twin(
    earlier: &[NamedAccount],
    users: &[UserDoc],
    name: &Bytes,
    place: Place,
    faults: &mut Vec<PolicyFault>,
) -> Result<(), NoMemory>
    ensures { OnOk result (faults.new.items ≡ with_twin (users_of earlier.now ++ users.now) name.now place faults.old.items) }
{
    if stands_before(earlier, users, name) {
        faults.push(PolicyFault::DuplicateUser(place))?;
    }
    Ok(())
}

/// Appends the fault of each import that doesn't hold.
#[tactic(auto, unfolding(crate::specs::Documents::with_import_faults))]
fn push_imports(accounts: &Accounts, faults: &mut Vec<PolicyFault>) -> Result<(), NoMemory>
    ensures { OnOk result (faults.new.items ≡ with_import_faults accounts.now 0 accounts.now faults.old.items) }
{
    for (account, named) in accounts.as_slice().iter().enumerate() {
        push_imports_of(accounts, account, named, faults)?;
    }
    Ok(())
}

/// Appends the fault of each import of an account that doesn't hold.
#[tactic(auto, unfolding(crate::specs::Documents::with_causes))]
fn push_imports_of(
    accounts: &Accounts,
    account: usize,
    named: &NamedAccount,
    faults: &mut Vec<PolicyFault>,
) -> Result<(), NoMemory>
    ensures { OnOk result (faults.new.items ≡ with_causes accounts.now named.now.name account 0 named.now.account.imports faults.old.items) }
{
    for (row, import) in named.account.imports.as_slice().iter().enumerate() {
        let fault = import_fault(accounts, &named.name, import, Place { account, row });
        push_if(fault, faults)?;
    }
    Ok(())
}

/// Appends a fault, if there is one.
fn push_if(fault: Option<PolicyFault>, faults: &mut Vec<PolicyFault>) -> Result<(), NoMemory>
    ensures { OnOk result (faults.new.items ≡ with_fault fault faults.old.items) }
{
    match fault {
        None => Ok(()),
        Some(fault) => {
            faults.push(fault)?;
            Ok(())
        }
    }
}
