//! A message addressed in its views one after the other, and the import rows that are reported between its deliveries.
ghost use Rattle.std.specs.Prelude.{◌≡◌, ◌++◌, ◌-◌, None, All, IfOk, OnOk, take, drop};
ghost use Rattle.events.specs.Sendings.{named};
ghost use Rattle.receivers.specs.views.Marked.{AreMarked};
ghost use Rattle.world_views.specs.Changing.{IsNotedAt};
ghost use Rattle.world_views.specs.Occasions.{in_each, in_view, reports_in_each, reports_in_view, seen_in, so_far};
ghost use Rattle.world_views.specs.Viewing.{item_of, with_reports};

use crate::addressing::{Receivers, Seen, Sending};
use crate::changing::Opening;
use crate::request::{Request, address_request};
use base::{NoMemory, Shared};
use bytes::Bytes;
use events::{Item, Said};
use permissions::deny_marks::DenyMarks;
use policy_ready::CompiledPolicy;
use policy_ready::imports::{ViewItem, Way};
use service_routes::{Routes, Row};
use std::alloc::Global;
use subjects::Subject;
use world_sessions::Sessions;
use world_subscriptions::Subscriptions;

/// Why a message isn't seen across an import row.
#[derive(Clone, Copy, Debug, PartialEq, Eq)]
pub enum Cause {
    /// Its subject there would be too long.
    TooLong,
    /// It is a request, and the exporter has as many response routes as it may have.
    RouteFull,
}

/// An import row across which a message isn't seen.
#[derive(Drop)]
pub struct Report {
    /// How many deliveries are before it.
    pub at: usize,
    /// Why it isn't.
    pub cause: Cause,
    /// The row.
    pub row: Shared<Row>,
}

/// What is found beside deliveries, where a message is addressed in its views.
#[derive(Drop)]
pub(crate) struct Found {
    /// The rows across which it isn't seen.
    pub reports: Vec<Report>,
    /// The response routes that are to be opened.
    pub openings: Vec<Opening>,
}

/// A message, and the tables in which it is addressed at a moment.
#[derive(Clone, Copy)]
pub(crate) struct Occasion<'a> {
    pub alloc: Global,
    pub sessions: &'a Sessions,
    pub subscriptions: &'a Subscriptions,
    pub marks: &'a DenyMarks,
    pub ready: &'a CompiledPolicy,
    pub sending: Sending<'a>,
    pub now: u64,
}

/// Appends the deliveries of a message in one more view to those of the receivers, and what is found beside them. `NoMemory` where
/// memory could not be had: then some may be appended.
fn address_one(
    occasion: Occasion<'_>,
    receivers: &mut Receivers,
    routes: &mut Routes,
    view: &ViewItem,
    found: &mut Found,
) -> Result<(), NoMemory>
    requires marked { AreMarked occasion.sessions.now occasion.subscriptions.now occasion.marks.now }
    requires noted { All (IsNotedAt occasion.now) found.old.openings.items }
    ensures all { OnOk result (so_far receivers.new found.new
        ≡ in_view occasion.entry routes.old.exporters (so_far receivers.old found.old) view.now) }
    ensures reports { OnOk result (found.new.reports.items ≡ found.old.reports.items
        ++ reports_in_view occasion.entry routes.old.exporters (so_far receivers.old found.old) view.now) }
    ensures noted { OnOk result (All (IsNotedAt occasion.entry.now) found.new.openings.items) }
    ensures cached { receivers.new.cache ≡ receivers.old.cache }
    ensures routes { routes.new.exporters ≡ routes.old.exporters }
{
    match view {
        ViewItem::At {
            account,
            subject,
            way: Way::Own,
        } => address_in(occasion, receivers, account, subject, Said::AsPublished),
        ViewItem::At {
            account,
            subject,
            way: Way::Stream(_),
        } => address_in(occasion, receivers, account, subject, Said::AsPublished),
        ViewItem::At {
            account,
            subject,
            way: Way::Response(_),
        } => address_in(occasion, receivers, account, subject, Said::Nothing),
        ViewItem::At {
            account,
            subject,
            way: Way::Service(row),
        } => match occasion.sending.message.reply() {
            None => address_in(occasion, receivers, account, subject, Said::AsPublished),
            Some(reply) => {
                let request = Request {
                    exporter: account,
                    subject,
                    row,
                    reply: &reply,
                };
                address_request(occasion, receivers, routes, request, found)?;
                Ok(())
            }
        },
        ViewItem::TooLong(row) => {
            let report = Report {
                at: receivers.deliveries().len(),
                cause: Cause::TooLong,
                row: row.again()?,
            };
            found.reports.push(report)?;
            Ok(())
        }
    }
}

/// Appends the deliveries of a message in an account, under a subject and with the reply that is said there.
pub(crate) fn address_in(
    occasion: Occasion<'_>,
    receivers: &mut Receivers,
    account: &Bytes,
    subject: &Subject,
    reply: Said,
) -> Result<(), NoMemory>
    requires marked { AreMarked occasion.sessions.now occasion.subscriptions.now occasion.marks.now }
    ensures all { OnOk result (receivers.new.deliveries.items ≡ receivers.old.deliveries.items
        ++ seen_in occasion.entry receivers.old.deliveries.items
        (named (record { subject = subject.now; reply = reply }) occasion.entry.sending.message.now) account.now) }
    ensures cached { receivers.new.cache ≡ receivers.old.cache }
{
    let seen = Seen {
        account,
        subject,
        reply,
    };
    receivers.address_seen(
        occasion.sessions,
        occasion.subscriptions,
        occasion.marks,
        occasion.sending,
        seen,
    )?;
    Ok(())
}

/// Appends the deliveries of a message in more views to those of the receivers, and what is found beside them. `NoMemory` where
/// memory could not be had: then some may be appended.
pub(crate) fn address_each(
    occasion: Occasion<'_>,
    receivers: &mut Receivers,
    routes: &mut Routes,
    views: &[ViewItem],
    found: &mut Found,
) -> Result<(), NoMemory>
    requires marked { AreMarked occasion.sessions.now occasion.subscriptions.now occasion.marks.now }
    requires noted { All (IsNotedAt occasion.now) found.old.openings.items }
    ensures all { OnOk result (so_far receivers.new found.new
        ≡ in_each occasion.entry routes.old.exporters (so_far receivers.old found.old) views.now) }
    ensures reports { OnOk result (found.new.reports.items ≡ found.old.reports.items
        ++ reports_in_each occasion.entry routes.old.exporters (so_far receivers.old found.old) views.now) }
    ensures noted { OnOk result (All (IsNotedAt occasion.entry.now) found.new.openings.items) }
    ensures cached { receivers.new.cache ≡ receivers.old.cache }
    ensures routes { routes.new.exporters ≡ routes.old.exporters }
{
    for view in views {
        address_one(occasion, receivers, routes, view, found)?;
    }
    Ok(())
}

/// Returns the same item. What it names has one more owner.
fn item_again(item: &Item) -> Result<Item, NoMemory>
    ensures { IfOk result (λ same. same ≡ item.now) }
{
    match item {
        Item::Entered { conn, sid } => Ok(Item::Entered {
            conn: *conn,
            sid: sid.again()?,
        }),
        Item::Full { conn, sid } => Ok(Item::Full {
            conn: *conn,
            sid: sid.again()?,
        }),
        Item::RouteFull(row) => Ok(Item::RouteFull(row.again()?)),
        Item::MapTooLong(row) => Ok(Item::MapTooLong(row.again()?)),
        Item::Unmapped => Ok(Item::Unmapped),
        Item::MappedTooLong(index) => Ok(Item::MappedTooLong(*index)),
    }
}

/// Returns what is told of a row across which a message isn't seen.
fn reported(report: &Report) -> Result<Item, NoMemory>
    ensures { IfOk result (λ item. item ≡ item_of report.now.cause report.now.row) }
{
    let row = report.row.again()?;
    match report.cause {
        Cause::TooLong => Ok(Item::MapTooLong(row)),
        Cause::RouteFull => Ok(Item::RouteFull(row)),
    }
}

/// Appends copies of items. `NoMemory` where memory could not be had: then some may be appended.
fn add_items(items: &[Item], all: &mut Vec<Item>) -> Result<(), NoMemory>
    ensures { OnOk result (all.new.items ≡ all.old.items ++ items.now) }
{
    for item in items {
        all.push(item_again(item)?)?;
    }
    Ok(())
}

/// Appends the items between two places. There are no items behind the last one.
fn add_between(items: &[Item], from: usize, to: usize, all: &mut Vec<Item>) -> Result<(), NoMemory>
    ensures { OnOk result (all.new.items ≡ all.old.items ++ take (to - from) (drop from items.now)) }
{
    let end = to.min(items.len());
    if end <= from {
        return Ok(());
    }
    add_items(&items[from..end], all)?;
    Ok(())
}

/// Returns what deliveries met, with the reports in their places between them.
pub fn with_reports(
    alloc: Global,
    items: &[Item],
    reports: &[Report],
) -> Result<Vec<Item>, NoMemory>
    ensures { IfOk result (λ all. all.items ≡ with_reports 0 items.now reports.now) }
{
    let mut all = Vec::new(alloc);
    let mut next = 0;
    for report in reports {
        add_between(items, next, report.at, &mut all)?;
        all.push(reported(report)?)?;
        next = report.at;
    }
    add_between(items, next, items.len(), &mut all)?;
    Ok(all)
}
