use base::{Shared, SharedText};
use events::{Delivery, DeliveryRef, Names, Said, Sent};
use session_plan::pending::write_delivery;
use std::alloc::Global;
use std::test::Fail;
use subjects::Subject;
use test_samples::message;

/// What a view's subscribers see as the reply.
#[derive(Clone, Copy, Debug)]
enum Reply {
    AsPublished,
    Nothing,
    Other(&'static str),
}

fn said(alloc: Global, reply: Reply) -> Option<Said> {
    match reply {
        Reply::AsPublished => Some(Said::AsPublished),
        Reply::Nothing => Some(Said::Nothing),
        Reply::Other(text) => Some(Said::Other(Subject::parse(alloc, text.as_bytes()).ok()?)),
    }
}

/// Returns what is sent of a message that was published on a.b, with r.1 to answer on.
fn sent(alloc: Global, names: Option<(&str, Reply)>) -> Option<Sent> {
    let message = message(alloc, "a.b r.1hello".as_bytes(), 3, 3)?;
    match names {
        None => Some(Sent::own(message)),
        Some((subject, reply)) => {
            let subject = Subject::parse(alloc, subject.as_bytes()).ok()?;
            let reply = said(alloc, reply)?;
            let names = Shared::new(alloc, Names { subject, reply }).ok()?;
            Some(Sent::under(message, names))
        }
    }
}

/// Returns the text of a delivery of it to subscription 7.
fn text_of(alloc: Global, names: Option<(&str, Reply)>) -> Option<Vec<u8>> {
    let delivery = Delivery {
        message: sent(alloc, names)?,
        sid: SharedText::of(alloc, "7".as_bytes()).ok()?,
    };
    let mut out = Vec::new(alloc);
    write_delivery(&mut out, true, &DeliveryRef::of(&delivery)).ok()?;
    Some(out)
}

#[test]
fn a_view_is_sent_the_payload_under_its_names(rt: HostRuntime) -> Result<(), Fail> {
    for (names, want) in [
        (None, "MSG a.b 7 r.1 5\r\nhello\r\n"),
        (
            Some(("x.a.b", Reply::AsPublished)),
            "MSG x.a.b 7 r.1 5\r\nhello\r\n",
        ),
        (
            Some(("x.a.b", Reply::Nothing)),
            "MSG x.a.b 7 5\r\nhello\r\n",
        ),
        (
            Some(("x", Reply::Other("_R_.k.1"))),
            "MSG x 7 _R_.k.1 5\r\nhello\r\n",
        ),
    ] {
        let text = text_of(rt.alloc(), names).ok_or("no memory")?;
        assert_eq!(rt; text.as_slice(), want.as_bytes(), "{names:?}");
    }
    Ok(())
}
