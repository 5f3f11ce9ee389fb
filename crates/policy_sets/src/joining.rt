//! The first account of each account's set, found row by row.
ghost use Rattle.std.specs.Prelude.{◌≡◌, ◌<◌, All, IfOk, IsTrue, length, map};
ghost use Rattle.std.specs.List.{list_any, range_with_len, slice_index};
ghost use Rattle.policy_doc.specs.Accounts.{IsByName, Name, has_name};
ghost use Rattle.policy_doc.specs.Imports.{AreValidImports};
ghost use Rattle.policy_doc.specs.declared.document.ImportDoc.{ImportDoc};
ghost use Rattle.policy_sets.specs.Sets.{ends_at, first_of, joined_by, names_of};
ghost use Rattle.policy_sets.specs.Firsts.{AreFirsts, exchanged_place, lesser_place, name_at};

use base::NoMemory;
use bytes::Bytes;
use policy_doc::{ImportDoc, NamedAccount};
use std::alloc::Global;

/// Returns for each account the place of the first one of its smallest closed set. It takes a step for each account
/// whenever a row joins two sets, so at most the square of their number.
pub(crate) fn firsts_of(alloc: Global, accounts: &[NamedAccount]) -> Result<Vec<usize>, NoMemory>
    requires order { IsByName accounts.now }
    requires rows { AreValidImports accounts.now accounts.now }
    ensures { IfOk result (λ firsts. AreFirsts (names_of accounts.now) (first_of accounts.now) firsts.items) }
{
    let mut firsts = places(alloc, accounts.len())?;
    for (place, named) in accounts.iter().enumerate() {
        join_rows(
            accounts,
            place,
            named.account.imports.as_slice(),
            firsts.as_mut_slice(),
        );
    }
    Ok(firsts)
}

/// Returns the places of so many elements.
fn places(alloc: Global, count: usize) -> Result<Vec<usize>, NoMemory>
    ensures { IfOk result (λ places. places.items ≡ range_with_len 0 count) }
{
    let mut places = Vec::with_capacity(alloc, count)?;
    for place in 0..count {
        places.push(place)?;
    }
    Ok(places)
}

/// Joins the sets that the import rows of the account at a place join.
fn join_rows(accounts: &[NamedAccount], place: usize, imports: &[ImportDoc], firsts: &mut [usize])
    requires order { IsByName accounts.now }
    requires place { place < length accounts.now }
    requires firsts { length firsts.old ≡ length accounts.now }
    requires there { All (λ (i : ImportDoc). IsTrue (list_any (has_name i.account) accounts.now)) imports.now }
    ensures { (first : Name → Name) → AreFirsts (names_of accounts.now) first firsts.old →
        AreFirsts (names_of accounts.now) (joined_by first (map (ends_at (name_at (names_of accounts.now) place)) imports.now)) firsts.new }
{
    for import in imports {
        join(firsts, place, place_of(accounts, &import.account));
    }
}

/// Returns the place of the account that has a name, found by halves.
fn place_of(accounts: &[NamedAccount], name: &Bytes) -> usize
    requires order { IsByName accounts.now }
    requires there { IsTrue (list_any (has_name name.now) accounts.now) }
    ensures within { result < length accounts.now }
    ensures named { name_at (names_of accounts.now) result ≡ name.now }
{
    match accounts.binary_search_by(|a| a.name.cmp(name)) {
        Ok(place) => place,
        Err(_) => unreachable!(),
    }
}

/// Joins the sets of the accounts at two places.
fn join(firsts: &mut [usize], importer: usize, exporter: usize)
    requires importer { importer < length firsts.old }
    requires exporter { exporter < length firsts.old }
    ensures { firsts.new ≡ map (lesser_place (slice_index firsts.old importer) (slice_index firsts.old exporter)) firsts.old }
{
    let one = firsts[importer];
    let other = firsts[exporter];
    if one < other {
        exchange(firsts, other, one);
    } else if other < one {
        exchange(firsts, one, other);
    }
}

/// Puts a new place for an old one, wherever that stands.
fn exchange(places: &mut [usize], old: usize, new: usize)
    ensures { places.new ≡ map (exchanged_place old new) places.old }
{
    for place in places.iter_mut() {
        *place = exchanged_place(old, new, *place);
    }
}

/// Returns the new place for the old one; any other stays.
fn exchanged_place(old: usize, new: usize, place: usize) -> usize
    ensures { result ≡ exchanged_place old new place }
{
    if place == old { new } else { place }
}
