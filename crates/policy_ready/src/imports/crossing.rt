//! What an import row gives of a message, and the views across several rows.
ghost use Rattle.std.specs.Prelude.{◌≡◌, ◌<◌, ℕ, All, IfOk, OnOk, Some, length};
ghost use Rattle.std.specs.List.{filter_map, list_any};
ghost use Rattle.policy_ready.specs.imports.Across.{across, crossing, entrance_of, source_of, target_of, way_of};
ghost use Rattle.policy_ready.specs.imports.Views.{first_of_each, is_at, is_route, is_same};
ghost use Rattle.policy_ready.specs.imports.Rows.{is_crossed, hashes_of, row_by, rows_at, with_crossing};
ghost use Rattle.mapping.specs.Pairs.{IsMapped};

use crate::imports::{ImportRow, ViewItem, Way};
use base::NoMemory;
use bytes::Bytes;
use mapping::MapError;
use policy_doc::exports::Kind;
use std::alloc::Global;
use subjects::pattern_groups::{Groups, Patterns};
use subjects::{Pattern, Subject, SubjectRef};

/// Returns whether a subject begins with the token `_R_`.
pub(crate) fn is_route(subject: &SubjectRef<'_>) -> bool
    ensures { result ≡ is_route subject.now }
{
    let mut tokens = subject.tokens();
    match tokens.next_piece() {
        None => false,
        Some(token) => token == b"_R_".as_slice(),
    }
}

/// Rows that are asked whether a message of an account crosses them.
#[derive(Drop)]
struct Asked<'a, 'b> {
    rows: &'a [ImportRow],
    account: &'a [u8],
    subject: &'a SubjectRef<'b>,
}

impl<'a, 'b> Patterns for Asked<'a, 'b> {
    ghost count = { λ a. length a.rows.now };

    ghost passes = { λ a i. is_crossed a.account.now a.subject.now (row_by a.rows.now i) };

    fn passes(&self, index: usize) -> bool {
        is_crossed(&self.rows[index], self.account, self.subject)
    }
}

/// Returns the views of an account's message across rows. Only those are asked that the account's messages cross and whose pattern
/// begins as the subject does. It takes no memory where the message crosses none.
pub(crate) fn crossings(
    alloc: Global,
    rows: &[ImportRow],
    groups: &Groups,
    account: &[u8],
    subject: &SubjectRef<'_>,
) -> Result<Vec<ViewItem>, NoMemory>
    requires { groups.now ≡ hashes_of rows.now }
    ensures { IfOk result (λ views. views.items ≡ first_of_each (filter_map (crossing account.now subject.now) rows.now)) }
{
    let _ = subject.tokens();
    let asked = Asked {
        rows,
        account,
        subject,
    };
    let places = groups.all_under(alloc, account, subject.bytes(), &asked)?;
    let views = crossings_at(alloc, rows, places.as_slice(), account, subject)?;
    Ok(views)
}

/// Returns the views of an account's message across the rows at these places.
fn crossings_at(
    alloc: Global,
    rows: &[ImportRow],
    places: &[usize],
    account: &[u8],
    subject: &SubjectRef<'_>,
) -> Result<Vec<ViewItem>, NoMemory>
    requires { All (λ i. i < length rows.now) places.now }
    ensures { IfOk result (λ views. views.items ≡ first_of_each (filter_map (crossing account.now subject.now) (rows_at rows.now places.now))) }
{
    let mut views = Vec::new(alloc);
    for place in places {
        add_crossing(alloc, &mut views, &rows[*place], account, subject)?;
    }
    Ok(views)
}

/// Appends what a row gives, unless a view of the same account and subject stands.
fn add_crossing(
    alloc: Global,
    views: &mut Vec<ViewItem>,
    row: &ImportRow,
    account: &[u8],
    subject: &SubjectRef<'_>,
) -> Result<(), NoMemory>
    ensures { OnOk result (views.new.items ≡ with_crossing views.old.items (crossing account.now subject.now row.now)) }
{
    let view = crossing(alloc, row, account, subject)?;
    add_if_new(views, view)?;
    Ok(())
}

/// Appends a view, if there is one, unless one of the same account and subject stands.
pub(crate) fn add_if_new(views: &mut Vec<ViewItem>, view: Option<ViewItem>) -> Result<(), NoMemory>
    ensures { OnOk result (views.new.items ≡ with_crossing views.old.items view) }
{
    match view {
        None => Ok(()),
        Some(view) => {
            add_new(views, view)?;
            Ok(())
        }
    }
}

/// Appends a view, unless one of the same account and subject stands.
fn add_new(views: &mut Vec<ViewItem>, view: ViewItem) -> Result<(), NoMemory>
    ensures { OnOk result (views.new.items ≡ with_crossing views.old.items (Some view)) }
{
    if is_seen(views.as_slice(), &view) {
        Ok(())
    } else {
        views.push(view)?;
        Ok(())
    }
}

/// Returns what a row gives of an account's message.
fn crossing(
    alloc: Global,
    row: &ImportRow,
    account: &[u8],
    subject: &SubjectRef<'_>,
) -> Result<Option<ViewItem>, NoMemory>
    ensures { IfOk result (λ view. view ≡ crossing account.now subject.now row.now) }
{
    if source_of(row) != account {
        return Ok(None);
    }
    match across(alloc, row, subject) {
        Ok(None) => Ok(None),
        Ok(Some(beyond)) => Ok(Some(ViewItem::At {
            account: target_of(row).clone()?,
            subject: beyond,
            way: way_of(row)?,
        })),
        Err(MapError::TooLong) => Ok(Some(ViewItem::TooLong(row.row.again()?))),
        Err(MapError::NoMemory) => Err(NoMemory),
    }
}

/// Returns the subject that a message has beyond a row.
fn across(
    alloc: Global,
    row: &ImportRow,
    subject: &SubjectRef<'_>,
) -> Result<Option<Subject>, MapError>
    ensures { IsMapped (across row.now subject.now) result }
{
    match row.kind {
        Kind::Stream => row.mapping.forward(alloc, subject),
        Kind::Service => row.mapping.back(alloc, subject),
    }
}

/// Returns the name of the account whose messages cross a row.
pub(crate) fn source_of(row: &ImportRow) -> &[u8]
    ensures { result.now ≡ source_of row.now }
{
    match row.kind {
        Kind::Stream => row.exporter.as_slice(),
        Kind::Service => row.row.get().importer.as_slice(),
    }
}

/// Returns the name of the account in which they are seen.
fn target_of(row: &ImportRow) -> &Bytes
    ensures { result.now ≡ target_of row.now }
{
    match row.kind {
        Kind::Stream => &row.row.get().importer,
        Kind::Service => &row.exporter,
    }
}

/// Returns the pattern of the subjects that cross a row.
pub(crate) fn entrance_of(row: &ImportRow) -> &Pattern
    ensures { result.now ≡ entrance_of row.now }
{
    match row.kind {
        Kind::Stream => row.mapping.outer(),
        Kind::Service => row.mapping.local(),
    }
}

/// Returns how a message comes across a row.
fn way_of(row: &ImportRow) -> Result<Way, NoMemory>
    ensures { IfOk result (λ way. way ≡ way_of row.now) }
{
    match row.kind {
        Kind::Stream => Ok(Way::Stream(row.row.again()?)),
        Kind::Service => Ok(Way::Service(row.row.again()?)),
    }
}

/// Returns whether a message of the account crosses the row.
fn is_crossed(row: &ImportRow, account: &[u8], subject: &SubjectRef<'_>) -> bool
    ensures { result ≡ is_crossed account.now subject.now row.now }
{
    source_of(row) == account && entrance_of(row).matches(subject)
}

/// Returns whether a view of the same account and subject is among these.
fn is_seen(views: &[ViewItem], view: &ViewItem) -> bool
    ensures { result ≡ list_any (λ earlier. is_same earlier view.now) views.now }
{
    views.iter().any(|earlier| is_same(earlier, view))
}

/// Returns whether two views are of the same account and subject.
fn is_same(one: &ViewItem, other: &ViewItem) -> bool
    ensures { result ≡ is_same one.now other.now }
{
    match one {
        ViewItem::At {
            account,
            subject,
            way: _,
        } => is_at(other, account, subject),
        ViewItem::TooLong(_) => false,
    }
}

/// Returns whether a view is of this account and subject.
fn is_at(view: &ViewItem, account: &Bytes, subject: &Subject) -> bool
    ensures { result ≡ is_at account.now subject.now view.now }
{
    match view {
        ViewItem::At {
            account: other_account,
            subject: other_subject,
            way: _,
        } => *account == *other_account && *subject == *other_subject,
        ViewItem::TooLong(_) => false,
    }
}
