//! The import rows of a policy, made.
ghost use Rattle.std.specs.Prelude.{◌≡◌, ◌++◌, All, false, flat_map, IfOk, None, OnOk};
ghost use Rattle.std.specs.Str.{bytes_eq};
ghost use Rattle.policy_doc.specs.Imports.{mapping_of, mapping_fault, AreValidImports, IsValidImport};
ghost use Rattle.policy_doc.specs.declared.document.NamedAccount.{NamedAccount};
ghost use Rattle.policy_ready.specs.imports.Views.{row_at, rows_in};
ghost use Rattle.policy_ready.specs.imports.Rows.{IsRow, hashes_of, row_hash};

use crate::imports::ImportRow;
use crate::imports::crossing::{entrance_of, source_of};
use base::{Items, NoMemory, Shared};
use bytes::Bytes;
use mapping::Mapping;
use policy_doc::exports::Row;
use policy_doc::{ImportDoc, NamedAccount};
use std::alloc::Global;
use subjects::pattern_groups::{Groups, hash_under};

/// Returns the import rows of accounts, by account and index.
#[tactic(auto, using(crate::proofs::imports::Appended::one_account))]
pub(crate) fn rows_of(alloc: Global, accounts: &[NamedAccount]) -> Result<Vec<ImportRow>, NoMemory>
    requires { AreValidImports accounts.now accounts.now }
    ensures rows { IfOk result (λ rows. rows.items ≡ flat_map rows_in accounts.now) }
    ensures hold { IfOk result (λ rows. All IsRow rows.items) }
{
    let mut rows = Vec::new(alloc);
    for named in accounts {
        add_rows(alloc, accounts, named, &mut rows)?;
    }
    Ok(rows)
}

/// Appends the import rows of an account.
fn add_rows(
    alloc: Global,
    _accounts: &[NamedAccount],
    named: &NamedAccount,
    rows: &mut Vec<ImportRow>,
) -> Result<(), NoMemory>
    requires valid { All (IsValidImport _accounts.now named.now.name) named.now.account.imports }
    requires hold { All IsRow rows.old.items }
    ensures rows { OnOk result (rows.new.items ≡ rows.old.items ++ rows_in named.now) }
    ensures hold { OnOk result (All IsRow rows.new.items) }
{
    for (index, import) in named.account.imports.as_slice().iter().enumerate() {
        rows.push(row_at(alloc, &named.name, index, import)?)?;
    }
    Ok(())
}

/// Returns the row of an account's import at an index.
fn row_at(
    alloc: Global,
    importer: &Bytes,
    index: usize,
    import: &ImportDoc,
) -> Result<ImportRow, NoMemory>
    requires mapped { mapping_fault import.now ≡ None }
    requires other { bytes_eq import.now.account importer.now ≡ false }
    ensures row { IfOk result (λ row. row ≡ row_at importer.now index import.now) }
    ensures holds { IfOk result IsRow }
{
    let mapping = mapping_of(alloc, import)?;
    mapping.prove_invariant();
    let importer = importer.clone()?;
    Ok(ImportRow {
        row: Shared::new(alloc, Row { importer, index })?,
        kind: import.kind,
        exporter: import.account.clone()?,
        mapping,
    })
}

/// Returns the mapping of an import that has one.
fn mapping_of(alloc: Global, import: &ImportDoc) -> Result<Mapping, NoMemory>
    requires { mapping_fault import.now ≡ None }
    ensures { IfOk result (λ mapping. mapping ≡ mapping_of import.now) }
{
    match import.mapping(alloc) {
        Ok(mapping) => Ok(mapping),
        Err(_) => Err(NoMemory),
    }
}

/// Returns the groups of rows, by the accounts whose messages cross them and the tokens that these messages begin with.
pub(crate) fn groups_of(alloc: Global, rows: &[ImportRow]) -> Result<Groups, NoMemory>
    ensures { IfOk result (λ groups. groups ≡ hashes_of rows.now) }
{
    let mut hashes = Vec::with_capacity(alloc, rows.len())?;
    for row in rows {
        hashes.push(hash_of(row))?;
    }
    let groups = Groups::of(alloc, hashes)?;
    Ok(groups)
}

fn hash_of(row: &ImportRow) -> u32
    ensures { result ≡ row_hash row.now }
{
    hash_under(source_of(row), entrance_of(row))
}
