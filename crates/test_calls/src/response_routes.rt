ghost use Rattle.std.specs.Prelude.{◌≡◌, IfOk};

use bytes::Bytes;
use service_routes::{ResponseTerms, Route, RouteError, Routes, Row, route_subject};
use std::alloc::Global;
use std::test::Fail;
use subjects::Subject;

/// A route of word 255 to `inbox.1`, noted at a moment, for two minutes and a single response.
fn route(alloc: Global, now: u64) -> Result<Route, Fail>
    ensures { IfOk result (λ route. route.noted ≡ now) }
{
    let reply = Subject::parse(alloc, b"inbox.1")?;
    let row = Row {
        importer: Bytes::copy_from_slice(alloc, b"R")?,
        index: 0,
    };
    let terms = ResponseTerms {
        ttl: 120_000,
        single: true,
    };
    let route = Route::new(alloc, 255, row, &reply.lend(), now, terms)?;
    Ok(route)
}

#[test]
fn a_response_finds_its_route_once(rt: HostRuntime) -> Result<(), Fail> {
    let alloc = rt.alloc();
    let exporter = Bytes::copy_from_slice(alloc, b"Q")?;
    let subject = route_subject(alloc, 255, 1)?;
    assert_eq!(rt; subject.bytes(), b"_R_.00000000000000ff.1".as_slice());
    let mut all = Routes::new(alloc);
    assert_eq!(rt; all.reserve(&exporter, 1, 0)?, 1);
    all.open_route(&exporter, route(alloc, 0)?);
    match all.find(&exporter, &subject.lend()) {
        None => assert!(rt; false),
        Some(route) => assert_eq!(rt; route.reply().bytes(), b"inbox.1".as_slice()),
    }
    all.spend(&exporter, &subject.lend());
    assert!(rt; all.find(&exporter, &subject.lend()).is_none());
    assert_eq!(rt; all.reserve(&exporter, 1, 0)?, 2);
    Ok(())
}

#[test]
fn a_route_lives_until_its_time(rt: HostRuntime) -> Result<(), Fail> {
    let alloc = rt.alloc();
    let exporter = Bytes::copy_from_slice(alloc, b"Q")?;
    let subject = route_subject(alloc, 255, 1)?;
    let mut all = Routes::new(alloc);
    all.reserve(&exporter, 1, 0)?;
    all.open_route(&exporter, route(alloc, 0)?);
    let subject = subject.lend();
    assert!(rt; all.find_living(&exporter, &subject, 120_000).is_some());
    assert!(rt; all.find_living(&exporter, &subject, 120_001).is_none());
    assert!(rt; all.find(&exporter, &subject).is_some());
    Ok(())
}

#[test]
fn no_more_than_65536_routes_live(rt: HostRuntime) -> Result<(), Fail> {
    let alloc = rt.alloc();
    let exporter = Bytes::copy_from_slice(alloc, b"Q")?;
    let other = Bytes::copy_from_slice(alloc, b"S")?;
    let mut all = Routes::new(alloc);
    for _opened in 0..65_536 {
        all.reserve(&exporter, 1, 0)?;
        all.open_route(&exporter, route(alloc, 0)?);
    }
    assert!(rt; all.reserve(&exporter, 1, 120_000) == Err(RouteError::RouteFull));
    assert_eq!(rt; all.reserve(&other, 1, 120_000)?, 1);
    assert_eq!(rt; all.reserve(&exporter, 1, 120_001)?, 65_537);
    Ok(())
}
