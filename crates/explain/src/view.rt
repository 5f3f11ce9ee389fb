//! The accounts in which a message is seen.
ghost use Rattle.std.specs.Prelude.{◌≡◌, map, IfOk};
ghost use Rattle.explain.specs.Path.{kind_of, seen, view_of};

use base::{Items, NoMemory};
use bytes::Bytes;
use policy_ready::imports::{Rows, ViewItem, Way};
use std::alloc::Global;
use subjects::Subject;

/// An account in which a message is seen, and under which subject; or why it isn't seen there.
#[derive(Debug, Drop)]
pub enum View {
    /// The message is seen in an account.
    At {
        /// The account's name.
        account: Items<u8>,
        /// The text of the subject that the message has there.
        subject: Items<u8>,
        /// How it comes there.
        kind: ViewKind,
    },
    /// An import doesn't take the message, since its subject would have more than 512 tokens there.
    TooLong {
        /// The name of the importing account.
        importer: Items<u8>,
        /// The index of the import.
        row: usize,
    },
}

/// How a message comes into an account. A row is an index of the importing account's imports.
#[derive(Clone, Copy, Debug, PartialEq, Eq)]
pub enum ViewKind {
    /// It was published there.
    Own,
    /// By the import of a stream.
    Stream(usize),
    /// By the import of a service.
    Service(usize),
}

/// Returns where a message of an account is seen that is sent on under a subject.
pub(crate) fn seen(
    alloc: Global,
    rows: &Rows,
    account: &Bytes,
    subject: &Subject,
) -> Result<Items<View>, NoMemory>
    ensures { IfOk result (λ found. found ≡ seen rows.now account.now subject.now) }
{
    let items = rows.views(alloc, account, subject, None)?;
    let found = views_of(alloc, items.as_slice())?;
    Ok(found)
}

/// Returns these views, as they are told.
fn views_of(alloc: Global, items: &[ViewItem]) -> Result<Items<View>, NoMemory>
    ensures { IfOk result (λ found. found ≡ map view_of items.now) }
{
    let mut found = Vec::with_capacity(alloc, items.len())?;
    for item in items {
        found.push(view_of(alloc, item)?)?;
    }
    Ok(Items::from_vec(found))
}

/// Returns a view, as it is told.
fn view_of(alloc: Global, item: &ViewItem) -> Result<View, NoMemory>
    ensures { IfOk result (λ view. view ≡ view_of item.now) }
{
    match item {
        ViewItem::At {
            account,
            subject,
            way,
        } => Ok(View::At {
            account: Items::from_vec(Vec::from_slice(alloc, account.as_slice())?),
            subject: Items::from_vec(Vec::from_slice(alloc, subject.bytes())?),
            kind: kind_of(way),
        }),
        ViewItem::TooLong(row) => Ok(View::TooLong {
            importer: Items::from_vec(Vec::from_slice(alloc, row.get().importer.as_slice())?),
            row: row.get().index,
        }),
    }
}

/// Returns how a view comes about, as it is told.
fn kind_of(way: &Way) -> ViewKind
    ensures { result ≡ kind_of way.now }
{
    match way {
        Way::Own => ViewKind::Own,
        Way::Stream(row) => ViewKind::Stream(row.get().index),
        Way::Service(row) => ViewKind::Service(row.get().index),
        Way::Response(row) => ViewKind::Service(row.get().index),
    }
}
