use base::{Items, NoMemory, Shared};
use bytes::Bytes;
use policy_doc::{
    AccountDoc, Accounts, ExportDoc, ImportDoc, Kind, Policy, PolicyDoc, ResponseTerms, Row,
    Version,
};
use policy_ready::imports::{Rows, ViewItem, Way};
use std::alloc::Global;
use std::test::Fail;
use subjects::{Pattern, Subject};

/// An import of A's subjects under a prefix.
fn import(alloc: Global, subject: &[u8], prefix: &[u8]) -> Option<ImportDoc> {
    Some(ImportDoc {
        kind: Kind::Stream,
        account: Bytes::from_static(b"A"),
        subject: Pattern::parse(alloc, subject).ok()?,
        to: None,
        prefix: Some(Subject::parse(alloc, prefix).ok()?),
    })
}

/// An import of B's service, under a name of its own.
fn service(alloc: Global, subject: &[u8], to: &'static [u8]) -> Option<ImportDoc> {
    Some(ImportDoc {
        kind: Kind::Service,
        account: Bytes::from_static(b"B"),
        subject: Pattern::parse(alloc, subject).ok()?,
        to: Some(Bytes::from_static(to)),
        prefix: None,
    })
}

/// All subjects of an account, offered to every other.
fn export(alloc: Global, kind: Kind) -> Option<ExportDoc> {
    Some(ExportDoc {
        kind,
        subject: Pattern::parse(alloc, b">").ok()?,
        accounts: None,
        response: ResponseTerms {
            ttl: 120_000,
            single: true,
        },
    })
}

/// An account that offers all of its subjects, as a stream or a service.
fn account(alloc: Global, kind: Kind, imports: Vec<ImportDoc>) -> Option<AccountDoc> {
    let mut exports = Vec::new(alloc);
    exports.push(export(alloc, kind)?).ok()?;
    Some(AccountDoc {
        users: Items::new(alloc),
        exports: Items::from_vec(exports),
        imports: Items::from_vec(imports),
        mappings: Items::new(alloc),
    })
}

/// The rows of A, which imports two services of B; of B, two for one subject; and of C.
fn rows(alloc: Global) -> Option<Rows> {
    let mut services = Vec::new(alloc);
    services
        .push(service(alloc, b"swap.*.*", b"call.$2.$1")?)
        .ok()?;
    services.push(service(alloc, b"time", b"clock")?).ok()?;
    let mut two = Vec::new(alloc);
    two.push(import(alloc, b"puba.>", b"from_a")?).ok()?;
    two.push(import(alloc, b"puba.x", b"from_a")?).ok()?;
    let mut all = Vec::new(alloc);
    all.push(import(alloc, b">", b"p")?).ok()?;
    let mut accounts = Accounts::new(alloc);
    accounts
        .insert(
            Bytes::from_static(b"A"),
            account(alloc, Kind::Stream, services)?,
        )
        .ok()?;
    accounts
        .insert(
            Bytes::from_static(b"B"),
            account(alloc, Kind::Service, two)?,
        )
        .ok()?;
    accounts
        .insert(Bytes::from_static(b"C"), account(alloc, Kind::Stream, all)?)
        .ok()?;
    let doc = PolicyDoc {
        accounts,
        version: Version::One,
        default_permissions: None,
    };
    let policy = Policy::check(alloc, doc).ok()?;
    Rows::of(alloc, &policy).ok()
}

/// Where a message of A is seen: a line each.
fn lines(alloc: Global, rows: &Rows, subject: &[u8]) -> Option<Vec<u8>> {
    lines_with(alloc, rows, subject, None)
}

fn lines_with(
    alloc: Global,
    rows: &Rows,
    subject: &[u8],
    response: Option<ViewItem>,
) -> Option<Vec<u8>> {
    let subject = Subject::parse(alloc, subject).ok()?;
    let account = Bytes::from_static(b"A");
    let views = rows.views(alloc, &account, &subject, response).ok()?;
    let mut out = Vec::new(alloc);
    for view in views.as_slice() {
        write_line(&mut out, view).ok()?;
    }
    Some(out)
}

fn write_line(out: &mut Vec<u8>, view: &ViewItem) -> Result<(), NoMemory> {
    match view {
        ViewItem::At {
            account,
            subject,
            way: _,
        } => {
            out.extend_from_slice(account.as_slice())?;
            out.push(b' ')?;
            out.extend_from_slice(subject.bytes())?;
        }
        ViewItem::TooLong(row) => out.extend_from_slice(row.get().importer.as_slice())?,
    }
    out.push(b'\n')?;
    Ok(())
}

/// A subject of 512 tokens.
fn longest(alloc: Global) -> Option<Vec<u8>> {
    let mut text = Vec::from_slice(alloc, b"a").ok()?;
    for _more in 1..512 {
        text.extend_from_slice(b".a").ok()?;
    }
    Some(text)
}

#[test]
fn a_message_is_seen_across_rows(rt: HostRuntime) -> Result<(), Fail> {
    let alloc = rt.alloc();
    let rows = rows(alloc).expect(&rt, "rows");
    let both = lines(alloc, &rows, b"puba.x").expect(&rt, "views");
    assert_eq!(rt;
        both.as_slice(),
        b"A puba.x\nB from_a.puba.x\nC p.puba.x\n".as_slice()
    );
    let route = lines(alloc, &rows, b"_R_").expect(&rt, "views");
    assert_eq!(rt; route.as_slice(), b"A _R_\n".as_slice());
    let other = lines(alloc, &rows, b"_R_x").expect(&rt, "views");
    assert_eq!(rt; other.as_slice(), b"A _R_x\nC p._R_x\n".as_slice());
    let swapped = lines(alloc, &rows, b"call.x.y").expect(&rt, "views");
    assert_eq!(rt;
        swapped.as_slice(),
        b"A call.x.y\nB swap.y.x\nC p.call.x.y\n".as_slice()
    );
    let clock = lines(alloc, &rows, b"clock").expect(&rt, "views");
    assert_eq!(rt;
        clock.as_slice(),
        b"A clock\nB time\nC p.clock\n".as_slice()
    );
    let longest = longest(alloc).expect(&rt, "a text");
    let long = lines(alloc, &rows, longest.as_slice()).expect(&rt, "views");
    assert_eq!(rt; long.len(), 1_028);
    Ok(())
}

/// What a response to a request of C gives: it is seen there under the request's reply.
fn response(alloc: Global, reply: &[u8]) -> Option<ViewItem> {
    let row = Row {
        importer: Bytes::from_static(b"C"),
        index: 0,
    };
    Some(ViewItem::At {
        account: Bytes::from_static(b"C"),
        subject: Subject::parse(alloc, reply).ok()?,
        way: Way::Response(Shared::new(alloc, row).ok()?),
    })
}

#[test]
fn a_response_is_seen_where_its_request_was_made(rt: HostRuntime) -> Result<(), Fail> {
    let alloc = rt.alloc();
    let rows = rows(alloc).expect(&rt, "rows");
    let response = response(alloc, b"inbox.1").expect(&rt, "a response");
    let both = lines_with(alloc, &rows, b"_R_.0.1", Some(response)).expect(&rt, "views");
    assert_eq!(rt; both.as_slice(), b"A _R_.0.1\nC inbox.1\n".as_slice());
    Ok(())
}
