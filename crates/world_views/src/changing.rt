//! The response routes that a publish opens, or the one that it ends.
ghost use Rattle.std.specs.Prelude.{◌≡◌, ◌≤◌, ◌<◌, ◌+◌, ℕ, List, All, OnOk, OnErr, drop, false, if◌then◌else◌};
ghost use Rattle.service_exporter.specs.Limit.{is_full};
ghost use Rattle.service_routes.specs.Routes.{Name, exporter_of, opened, pruned, room_for, same_name};
ghost use Rattle.world_views.specs.Changing.{changed_by, count_of, opened_each, AreNoted, HaveRoom, IsNotedAt};

use base::NoMemory;
use bytes::Bytes;
use events::Message;
use service_routes::{Route, Routes};
use subjects::Subject;

/// A response route that is to be opened.
#[derive(Drop)]
pub struct Opening {
    /// The exporter whose service the request is to.
    pub exporter: Bytes,
    /// What its response needs of the request.
    pub route: Route,
}

/// What becomes of response routes by a publish.
#[derive(Drop)]
pub enum RouteChange {
    /// These are opened, in turn.
    Opened(Vec<Opening>),
    /// It is a response, and ends the route of its subject, if that is for a single one.
    Answered {
        /// The account whose service has published it.
        exporter: Bytes,
        /// The response.
        message: Message,
    },
    /// The same of a response that its account's mappings send on under another subject.
    AnsweredUnder {
        /// The account whose service has published it.
        exporter: Bytes,
        /// The subject under which it is sent on.
        subject: Subject,
    },
}

/// Returns how many of these routes are an exporter's.
pub(crate) fn count_of(openings: &[Opening], exporter: &Bytes) -> usize
    ensures count { result ≡ count_of exporter.now openings.now }
{
    let mut count = 0;
    for opening in openings {
        if opening.exporter == *exporter {
            count += 1;
        }
    }
    count
}

/// Makes room for routes that are to be opened. Nothing else changes. `NoMemory` where it could not be had.
fn make_room(routes: &mut Routes, openings: &[Opening], now: u64) -> Result<(), NoMemory>
    ensures same { routes.new.exporters ≡ routes.old.exporters }
    ensures room { OnOk result (HaveRoom now openings.now routes.new) }
{
    let mut left = openings.len();
    while 0 < left {
        left -= 1;
        make_room_for(routes, &openings[left..], now)?;
    }
    Ok(())
}

/// Makes room for the first of these routes, where there is room for those behind it.
fn make_room_for(routes: &mut Routes, openings: &[Opening], now: u64) -> Result<(), NoMemory>
    requires { HaveRoom now (drop 1 openings.now) routes.old }
    ensures same { routes.new.exporters ≡ routes.old.exporters }
    ensures room { OnOk result (HaveRoom now openings.now routes.new) }
{
    match openings {
        [] => Ok(()),
        [first, ..] => {
            let count = count_of(openings, &first.exporter);
            match routes.reserve(&first.exporter, count as u64, now) {
                Ok(_) => Ok(()),
                Err(_) => Err(NoMemory),
            }
        }
    }
}

/// Opens a route. It takes no memory.
fn open(routes: &mut Routes, opening: Opening, now: u64)
    requires room { 0 < room_for opening.exporter routes.old }
    requires within { is_full 1 now (exporter_of opening.exporter routes.old.exporters) ≡ false }
    requires noted { IsNotedAt now opening }
    ensures exporters { pruned now routes.new.exporters ≡ pruned now (opened opening.exporter opening.route routes.old.exporters) }
    ensures room { (other : Name) → room_for other routes.old ≤ room_for other routes.new + (if same_name opening.exporter other then 1 else 0) }
{
    let Opening { exporter, route } = opening;
    routes.open_route(&exporter, route);
    routes.drop_dead(&exporter, now);
}

/// Opens routes in turn. It takes no memory.
fn open_each(routes: &mut Routes, openings: Vec<Opening>, now: u64)
    requires room { HaveRoom now openings.items routes.old }
    requires noted { All (IsNotedAt now) openings.items }
    ensures { pruned now routes.new.exporters ≡ opened_each openings.items (pruned now routes.old.exporters) }
{
    for opening in openings {
        open(routes, opening, now);
    }
}

/// Opens or ends the routes of a publish. Of each exporter that opens one, dead ones are let go. `NoMemory` where memory could not
/// be had: then nothing has changed.
pub fn change_routes(routes: &mut Routes, change: RouteChange, now: u64) -> Result<(), NoMemory>
    requires noted { AreNoted now change }
    ensures ok { OnOk result (pruned now routes.new.exporters ≡ changed_by change (pruned now routes.old.exporters)) }
    ensures err { OnErr result (routes.new.exporters ≡ routes.old.exporters) }
{
    match change {
        RouteChange::Opened(openings) => {
            make_room(routes, openings.as_slice(), now)?;
            open_each(routes, openings, now);
            Ok(())
        }
        RouteChange::Answered { exporter, message } => {
            routes.spend(&exporter, &message.subject());
            Ok(())
        }
        RouteChange::AnsweredUnder { exporter, subject } => {
            routes.spend(&exporter, &subject.lend());
            Ok(())
        }
    }
}
