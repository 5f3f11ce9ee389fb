// The text of a delivery.
ghost use Rattle.std.specs.Prelude.{◌≡◌, ◌++◌, OnOk, OnErr, option_copied};
ghost use Rattle.session_plan.specs.pending.Texts.{delivery_text, payload_text, whole_text, reply_subject_text};

use base::NoMemory;
use events::DeliveryRef;
use subjects::SubjectRef;
use wire_write::{write_hmsg, write_msg};

/// The text of the reply subject, if there is one.
#[inline(always)]
fn reply_subject_text<'a>(reply: &'a Option<SubjectRef<'_>>) -> Option<&'a [u8]>
    ensures { option_copied result ≡ reply_subject_text reply.now }
{
    match reply {
        None => None,
        Some(subject) => Some(subject.bytes()),
    }
}

/// The text of a delivery. A client that has not declared headers is sent the payload alone.
#[inline(always)]
pub fn write_delivery(
    out: &mut Vec<u8>,
    headers: bool,
    delivery: &DeliveryRef<'_>,
) -> Result<(), NoMemory>
    ensures ok { OnOk result (out.new.items ≡ out.old.items ++ delivery_text headers delivery.now) }
    ensures err { OnErr result (out.new.items ≡ out.old.items) }
{
    if headers && !delivery.head.is_empty() {
        write_with_head(out, delivery)?;
    } else {
        write_without_head(out, delivery)?;
    }
    Ok(())
}

/// The text of a delivery, its payload alone.
#[inline(always)]
fn write_without_head(out: &mut Vec<u8>, delivery: &DeliveryRef<'_>) -> Result<(), NoMemory>
    ensures ok { OnOk result (out.new.items ≡ out.old.items ++ payload_text delivery.now) }
    ensures err { OnErr result (out.new.items ≡ out.old.items) }
{
    let reply_subject = reply_subject_text(&delivery.reply);
    write_msg(
        out,
        delivery.subject.bytes(),
        delivery.sid,
        reply_subject,
        delivery.payload,
    )
}

/// The text of a delivery with its header block. It is apart from the others, which are most, so that these don't
/// need its locals.
#[inline(never)]
fn write_with_head(out: &mut Vec<u8>, delivery: &DeliveryRef<'_>) -> Result<(), NoMemory>
    ensures ok { OnOk result (out.new.items ≡ out.old.items ++ whole_text delivery.now) }
    ensures err { OnErr result (out.new.items ≡ out.old.items) }
{
    let reply_subject = reply_subject_text(&delivery.reply);
    let subject = delivery.subject.bytes();
    write_hmsg(
        out,
        subject,
        delivery.sid,
        reply_subject,
        delivery.head,
        delivery.payload,
    )
}
