//! The users of a policy, by their names.
ghost use Rattle.std.specs.Prelude.{◌≡◌, ◌<◌, ◌++◌, IfOk, OnOk, length, map};
ghost use Rattle.std.specs.List.Sorted.{IsPermutation, IsSortedByKey};
ghost use Rattle.std.specs.Ordering.{nat_cmp};
ghost use Rattle.std.specs.Cmp.Lexicographic.{slice_cmp};
ghost use Rattle.compare.specs.Members.{member_owns, name_of, owns, owns_of, row_owns, user_of, IsFoundIn, IsPlaceIn};

use crate::PolicyFile;
use base::NoMemory;
use policy_doc::{PolicyDoc, UserDoc};
use policy_ready::User;
use std::alloc::Global;
use std::cmp::Ordering;

/// A user, with its place among the users of its account.
#[derive(Clone, Copy)]
pub(crate) struct Member<'a> {
    pub user: &'a User,
    pub row: usize,
    /// Whether it has permissions of its own.
    pub has_own: bool,
}

/// The users of a policy in two orders.
#[derive(Drop)]
pub(crate) struct Members<'a> {
    /// By their accounts' names, then by their own.
    pub by_account: Vec<Member<'a>>,
    /// By their own names.
    by_name: Vec<Member<'a>>,
}

impl<'a> Members<'a> {
    ghost use Rattle.std.specs.Prelude.{IfOk};
    ghost use Rattle.policy_doc.specs.declared.document.PolicyDoc.{PolicyDoc};
    ghost use Rattle.compare.specs.Members.{AreMembers, IsNamed};

    /// Returns the users of a policy. `NoMemory` where memory could not be had.
    pub(crate) fn of(alloc: Global, file: &'a PolicyFile) -> Result<Members<'a>, NoMemory>
        ensures { IfOk result (AreMembers file.now) }
    {
        let doc = file.doc();
        let rows = rows_of(alloc, doc)?;
        let users = file.users();
        let all = members_of(alloc, users, rows.as_slice())?;
        let by_name = by_name(alloc, all.as_slice())?;
        let by_account = by_account(alloc, all.as_slice())?;
        Ok(Members {
            by_account,
            by_name,
        })
    }

    /// Returns the user of a name, if there is one.
    pub(crate) fn named(&self, name: &[u8]) -> Option<Member<'a>>
        ensures { (doc : PolicyDoc) → AreMembers doc self.now → IsNamed doc name.now result }
    {
        named_in(self.by_name.as_slice(), name)
    }
}

/// Returns users in the order of their names.
fn by_name<'a>(alloc: Global, members: &[Member<'a>]) -> Result<Vec<Member<'a>>, NoMemory>
    ensures all { IfOk result (λ sorted. IsPermutation members.now sorted.items) }
    ensures sorted { IfOk result (λ sorted. IsSortedByKey name_of (slice_cmp nat_cmp) sorted.items) }
{
    let mut sorted = Vec::from_slice(alloc, members)?;
    sorted.sort_unstable_by(|one, other| name_of(one).cmp(name_of(other)));
    Ok(sorted)
}

/// Returns users by their accounts' names, then by their own.
fn by_account<'a>(alloc: Global, members: &[Member<'a>]) -> Result<Vec<Member<'a>>, NoMemory>
    ensures { IfOk result (λ sorted. IsPermutation members.now sorted.items) }
{
    let mut sorted = Vec::from_slice(alloc, members)?;
    sorted.sort_unstable_by(|one, other| order_of(one, other));
    Ok(sorted)
}

/// Returns the user of a name among users in the order of their names.
fn named_in<'a>(members: &[Member<'a>], name: &[u8]) -> Option<Member<'a>>
    ensures { IsSortedByKey name_of (slice_cmp nat_cmp) members.now → IsFoundIn members.now name.now result }
{
    match place_in(members, name) {
        Err(_) => None,
        Ok(at) => Some(members[at]),
    }
}

/// Returns where the user of a name stands among users in the order of their names. It is looked for by halves.
fn place_in(members: &[Member<'_>], name: &[u8]) -> Result<usize, usize>
    ensures within { IfOk result (λ at. at < length members.now) }
    ensures place { IsSortedByKey name_of (slice_cmp nat_cmp) members.now → IsPlaceIn members.now name.now result }
{
    members.binary_search_by(|member| name_of(member).cmp(name))
}

/// A user's place among those of its account, and whether it has permissions of its own.
#[derive(Clone, Copy)]
struct Row {
    at: usize,
    has_own: bool,
}

/// Returns the place of each user of a document.
fn rows_of(alloc: Global, doc: &PolicyDoc) -> Result<Vec<Row>, NoMemory>
    ensures { IfOk result (λ rows. map row_owns rows.items ≡ owns_of doc.now) }
{
    let mut rows = Vec::new(alloc);
    for named in doc.accounts.as_slice() {
        add_rows(&mut rows, named.account.users.as_slice())?;
    }
    Ok(rows)
}

/// Appends the places of an account's users.
fn add_rows(rows: &mut Vec<Row>, users: &[UserDoc]) -> Result<(), NoMemory>
    ensures { OnOk result (map row_owns rows.new.items ≡ map row_owns rows.old.items ++ map owns users.now) }
{
    let mut at: usize = 0;
    for user in users {
        let has_own = user.permissions.is_some();
        rows.push(Row { at, has_own })?;
        at = at.saturating_add(1);
    }
    Ok(())
}

/// Returns users with their places.
fn members_of<'a>(
    alloc: Global,
    users: &'a [User],
    rows: &[Row],
) -> Result<Vec<Member<'a>>, NoMemory>
    requires { length rows.now ≡ length users.now }
    ensures users { IfOk result (λ members. map user_of members.items ≡ users.now) }
    ensures owns { IfOk result (λ members. map member_owns members.items ≡ map row_owns rows.now) }
{
    let mut members = Vec::with_capacity(alloc, users.len())?;
    for at in 0..users.len() {
        let row = rows[at];
        let member = member_of(&users[at], row);
        members.push(member)?;
    }
    Ok(members)
}

/// Returns a user with its place.
fn member_of<'a>(user: &'a User, row: Row) -> Member<'a>
    ensures same { user_of result ≡ user.now }
    ensures owns { member_owns result ≡ row_owns row }
{
    Member {
        user,
        row: row.at,
        has_own: row.has_own,
    }
}

fn name_of<'a>(member: &Member<'a>) -> &'a [u8]
    ensures { result.now ≡ name_of member.now }
{
    member.user.user.as_slice()
}

/// Which of two users comes first, by account and then by name.
fn order_of(one: &Member<'_>, other: &Member<'_>) -> Ordering {
    let (account, others) = (one.user.account.as_slice(), other.user.account.as_slice());
    account.cmp(others).then(name_of(one).cmp(name_of(other)))
}
