//! A request that is seen across an import row of a service, and wants a response.
ghost use Rattle.std.specs.Prelude.{◌≡◌, ◌++◌, ◌∷◌, [], All, IfOk, OnOk, length, if◌then◌else◌};
ghost use Rattle.service_exporter.specs.service_subjects.Names.{route_subject};
ghost use Rattle.receivers.specs.views.Marked.{AreMarked};
ghost use Rattle.world_views.specs.Changing.{IsNotedAt};
ghost use Rattle.world_views.specs.Occasions.{after_request, is_in_vain, opening_of, reports_of_request, seen_on_route, so_far};
ghost use Rattle.world_views.specs.Viewing.{report};
ghost use Rattle.world_views.specs.declared.viewing.Cause.TheVariants as cause;

use crate::addressing::{Receivers, Seen};
use crate::changing::{Opening, count_of};
use crate::viewing::{Cause, Found, Occasion, Report};
use base::{NoMemory, Shared};
use bytes::Bytes;
use events::Said;
use service_routes::service_rows::terms_of;
use service_routes::{Route, RouteError, Routes, Row, route_subject};
use subjects::{Subject, SubjectRef};

/// Where a request is seen.
#[derive(Clone, Copy)]
pub(crate) struct Request<'a> {
    /// The exporting account.
    pub exporter: &'a Bytes,
    /// The subject that the request has there.
    pub subject: &'a Subject,
    /// The import row that it crosses.
    pub row: &'a Shared<Row>,
    /// The subject on which the requester waits for the response.
    pub reply: &'a SubjectRef<'a>,
}

/// Addresses a request with the subject of a route in place of its reply, and notes that this route is to be opened, if anybody
/// may be sent the request. `RouteFull` stands in its place where the exporter has as many routes as it may have. `NoMemory` where
/// memory could not be had: then some may be appended.
pub(crate) fn address_request(
    occasion: Occasion<'_>,
    receivers: &mut Receivers,
    routes: &mut Routes,
    request: Request<'_>,
    found: &mut Found,
) -> Result<(), NoMemory>
    requires marked { AreMarked occasion.sessions.now occasion.subscriptions.now occasion.marks.now }
    requires noted { All (IsNotedAt occasion.now) found.old.openings.items }
    ensures all { OnOk result (so_far receivers.new found.new
        ≡ after_request occasion.entry routes.old.exporters (so_far receivers.old found.old) request.entry) }
    ensures reports { OnOk result (found.new.reports.items ≡ found.old.reports.items
        ++ reports_of_request occasion.entry routes.old.exporters (so_far receivers.old found.old) request.entry) }
    ensures noted { OnOk result (All (IsNotedAt occasion.entry.now) found.new.openings.items) }
    ensures cached { receivers.new.cache ≡ receivers.old.cache }
    ensures routes { routes.new.exporters ≡ routes.old.exporters }
{
    let count = count_of(found.openings.as_slice(), request.exporter) as u64;
    if count == u64::MAX {
        return Err(NoMemory);
    }
    match routes.reserve(request.exporter, count + 1, occasion.now) {
        Ok(next) => {
            address_on_route(occasion, receivers, request, next + count, found)?;
            Ok(())
        }
        Err(RouteError::RouteFull) => {
            report_full(occasion, receivers, request, found)?;
            Ok(())
        }
        Err(RouteError::NoMemory) => Err(NoMemory),
    }
}

/// Addresses a request with the subject of the exporter's route of a number in place of its reply, and notes that the route is to be
/// opened, if anybody may be sent the request.
fn address_on_route(
    occasion: Occasion<'_>,
    receivers: &mut Receivers,
    request: Request<'_>,
    number: u64,
    found: &mut Found,
) -> Result<(), NoMemory>
    requires marked { AreMarked occasion.sessions.now occasion.subscriptions.now occasion.marks.now }
    ensures all { OnOk result (receivers.new.deliveries.items
        ≡ (if is_in_vain occasion.entry receivers.old.deliveries.items request.entry
        then receivers.old.deliveries.items
        else receivers.old.deliveries.items
        ++ seen_on_route occasion.entry receivers.old.deliveries.items request.entry number)) }
    ensures openings { OnOk result (found.new.openings.items
        ≡ (if is_in_vain occasion.entry receivers.old.deliveries.items request.entry
        then found.old.openings.items
        else found.old.openings.items ++ opening_of occasion.entry request.entry ∷ [])) }
    ensures reports { found.new.reports ≡ found.old.reports }
    ensures cached { receivers.new.cache ≡ receivers.old.cache }
{
    let subject = route_subject(occasion.alloc, occasion.sending.word, number)?;
    let seen = Seen {
        account: request.exporter,
        subject: request.subject,
        reply: Said::Other(subject),
    };
    if receivers.address_seen(
        occasion.sessions,
        occasion.subscriptions,
        occasion.marks,
        occasion.sending,
        seen,
    )? {
        return Ok(());
    }
    found.openings.push(opening(occasion, request)?)?;
    Ok(())
}

/// Returns the route of a request, which is to be opened.
fn opening(occasion: Occasion<'_>, request: Request<'_>) -> Result<Opening, NoMemory>
    ensures { IfOk result (λ opening. opening ≡ opening_of occasion.entry request.entry) }
{
    let row = request.row.get();
    let own = Row {
        importer: row.importer.clone()?,
        index: row.index,
    };
    let terms = terms_of(occasion.ready.policy().doc(), row);
    let route = Route::new(
        occasion.alloc,
        occasion.sending.word,
        own,
        request.reply,
        occasion.now,
        terms,
    )?;
    Ok(Opening {
        exporter: request.exporter.clone()?,
        route,
    })
}

/// Reports the row of a request whose exporter has as many routes as it may have, if anybody may be sent the request. To find that out
/// it addresses the request, and takes the deliveries back.
fn report_full(
    occasion: Occasion<'_>,
    receivers: &mut Receivers,
    request: Request<'_>,
    found: &mut Found,
) -> Result<(), NoMemory>
    requires marked { AreMarked occasion.sessions.now occasion.subscriptions.now occasion.marks.now }
    ensures all { OnOk result (receivers.new.deliveries.items ≡ receivers.old.deliveries.items) }
    ensures openings { found.new.openings ≡ found.old.openings }
    ensures reports { OnOk result (found.new.reports.items
        ≡ (if is_in_vain occasion.entry receivers.old.deliveries.items request.entry
        then found.old.reports.items
        else found.old.reports.items
        ++ report (length receivers.old.deliveries.items) cause.RouteFull request.entry.row.now ∷ [])) }
    ensures cached { receivers.new.cache ≡ receivers.old.cache }
{
    let before = receivers.deliveries().len();
    let seen = Seen {
        account: request.exporter,
        subject: request.subject,
        reply: Said::AsPublished,
    };
    let nobody = receivers.address_seen(
        occasion.sessions,
        occasion.subscriptions,
        occasion.marks,
        occasion.sending,
        seen,
    )?;
    receivers.take_back(before);
    if !nobody {
        found.reports.push(Report {
            at: before,
            cause: Cause::RouteFull,
            row: request.row.again()?,
        })?;
    }
    Ok(())
}
