//! Where a published message is sent on and seen.
ghost use Rattle.std.specs.Prelude.{◌≡◌, IfOk, Some, map};
ghost use Rattle.std.specs.Option.{option_copied};
ghost use Rattle.account_mappings.specs.Drawing.{source_of};
ghost use Rattle.policy_ready.specs.imports.Views.{rows_of};
ghost use Rattle.explain.specs.Fault.{Answers};
ghost use Rattle.explain.specs.Path.{account_named, left_by, path_of, share_of, share_to, shares_by, unsent};
ghost use Rattle.explain.specs.declared.fault.ExplainFault.TheVariants as fault;

use crate::view::seen;
use crate::{ExplainFault, View};
use account_mappings::{AccountMap, Destination, Mapped, source_of};
use base::{Items, NoMemory};
use bytes::Bytes;
use policy_doc::{NamedAccount, Policy};
use policy_ready::imports::Rows;
use std::alloc::Global;
use subjects::Subject;

/// Where a share of the messages on a subject goes.
#[derive(Debug, Drop)]
pub struct PathShare {
    /// How many of a hundred messages they are.
    pub weight: u64,
    /// Under which subject they are sent on.
    pub sent: SentAs,
    /// Where they are seen.
    pub views: Items<View>,
}

/// Under which subject messages are sent on.
#[derive(Debug, Drop)]
pub enum SentAs {
    /// The one on which they were published, which no mapping has.
    Same,
    /// The one with this text: a destination's, or the published one of those that no destination takes.
    To(Items<u8>),
    /// None, since a destination's would have more than 512 tokens.
    TooLong,
}

/// Returns where the messages go that are published on a subject in an account: a share for each destination of the source that
/// has the subject, and last one of those that no destination takes, unless they are dropped; or one share of all where no source
/// has the subject. What the weights of the shares leave of a hundred is dropped. Each has its views: where it is seen, under
/// which subject, and by which import row; and the rows that don't take it, since its subject would be too long there.
///
/// `NoSuchAccount` where no account has the name, else `NoMemory` where memory could not be had.
pub fn explain_path(
    alloc: Global,
    policy: &Policy,
    account: &[u8],
    subject: &Subject,
) -> Result<Items<PathShare>, ExplainFault>
    ensures { Answers fault.NoSuchAccount (path_of policy.now account.now subject.now) result }
{
    match account_named(policy.doc().accounts.as_slice(), account) {
        None => Err(ExplainFault::NoSuchAccount),
        Some(named) => {
            let shares = shares_in(alloc, policy, named, subject)?;
            Ok(shares)
        }
    }
}

/// Returns the account of a name, if there is one.
fn account_named<'a>(accounts: &'a [NamedAccount], name: &[u8]) -> Option<&'a NamedAccount>
    ensures { option_copied result ≡ account_named accounts.now name.now }
{
    accounts.iter().find(|named| named.name.as_slice() == name)
}

/// Returns the shares of the messages on a subject in an account.
fn shares_in(
    alloc: Global,
    policy: &Policy,
    named: &NamedAccount,
    subject: &Subject,
) -> Result<Items<PathShare>, NoMemory>
    ensures { IfOk result (λ shares. shares ≡ shares_by (rows_of policy.now) named.now.name subject.now (source_of named.now.account.mappings subject.now)) }
{
    let rows = Rows::of(alloc, policy)?;
    let source = source_of(named.account.mappings.as_slice(), &subject.lend());
    let shares = shares_by(alloc, &rows, &named.name, source, subject)?;
    Ok(shares)
}

/// Returns the shares of the messages on a subject, by the source that has it, if one has.
fn shares_by(
    alloc: Global,
    rows: &Rows,
    account: &Bytes,
    source: Option<&AccountMap>,
    subject: &Subject,
) -> Result<Items<PathShare>, NoMemory>
    ensures { IfOk result (λ shares. shares ≡ shares_by rows.now account.now subject.now (option_copied source.entry)) }
{
    match source {
        None => {
            let mut shares = Vec::new(alloc);
            shares.push(PathShare {
                weight: 100,
                sent: SentAs::Same,
                views: seen(alloc, rows, account, subject)?,
            })?;
            Ok(Items::from_vec(shares))
        }
        Some(map) => shares_from(alloc, rows, account, map, subject),
    }
}

/// Returns the shares of the messages on a subject of a source.
fn shares_from(
    alloc: Global,
    rows: &Rows,
    account: &Bytes,
    map: &AccountMap,
    subject: &Subject,
) -> Result<Items<PathShare>, NoMemory>
    ensures { IfOk result (λ shares. shares ≡ shares_by rows.now account.now subject.now (Some map.now)) }
{
    let mut shares = taken(alloc, rows, account, map.destinations(), subject)?;
    let left = left_by(shares.as_slice());
    if left == 0 || map.is_dropped() {
        return Ok(Items::from_vec(shares));
    }
    shares.push(share_to(alloc, rows, account, left, subject)?)?;
    Ok(Items::from_vec(shares))
}

/// Returns the shares that destinations take.
fn taken(
    alloc: Global,
    rows: &Rows,
    account: &Bytes,
    destinations: &[Destination],
    subject: &Subject,
) -> Result<Vec<PathShare>, NoMemory>
    ensures { IfOk result (λ shares. shares.items ≡ map (share_of rows.now account.now subject.now) destinations.now) }
{
    let mut shares = Vec::with_capacity(alloc, destinations.len())?;
    for destination in destinations {
        shares.push(share_of(alloc, rows, account, destination, subject)?)?;
    }
    Ok(shares)
}

/// Returns the share that a destination takes.
fn share_of(
    alloc: Global,
    rows: &Rows,
    account: &Bytes,
    destination: &Destination,
    subject: &Subject,
) -> Result<PathShare, NoMemory>
    ensures { IfOk result (λ share. share ≡ share_of rows.now account.now subject.now destination.now) }
{
    let weight = destination.percent();
    match destination.reached(alloc, 0, &subject.lend())? {
        Mapped::Same => share_to(alloc, rows, account, weight, subject),
        Mapped::To(onward) => share_to(alloc, rows, account, weight, &onward),
        Mapped::Unmapped => Ok(unsent(alloc, weight)),
        Mapped::TooLong(_) => Ok(unsent(alloc, weight)),
    }
}

/// Returns the share of messages that are sent on under a subject.
fn share_to(
    alloc: Global,
    rows: &Rows,
    account: &Bytes,
    weight: u64,
    subject: &Subject,
) -> Result<PathShare, NoMemory>
    ensures { IfOk result (λ share. share ≡ share_to rows.now account.now weight subject.now) }
{
    Ok(PathShare {
        weight,
        sent: SentAs::To(Items::from_vec(Vec::from_slice(alloc, subject.bytes())?)),
        views: seen(alloc, rows, account, subject)?,
    })
}

/// Returns the share of messages whose subject would be too long.
fn unsent(alloc: Global, weight: u64) -> PathShare
    ensures { result ≡ unsent weight }
{
    PathShare {
        weight,
        sent: SentAs::TooLong,
        views: Items::new(alloc),
    }
}

/// Returns how many of a hundred messages aren't among these shares.
pub(crate) fn left_by(shares: &[PathShare]) -> u64
    ensures { result ≡ left_by shares.now }
{
    let mut left: u64 = 100;
    for share in shares {
        left = left.saturating_sub(share.weight);
    }
    left
}
