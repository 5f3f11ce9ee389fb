// The lines of a reload (docs/SCRIPT.md, "A reload").
ghost use Rattle.std.specs.Prelude.{◌≡◌, ◌++◌, flat_map, OnOk};
ghost use Rattle.lines.specs.reload_lines.Reloads.{epoch_line, gone_line, refusal_words, removed_line, reload_text};

use crate::reload_lines::shown::{append, write_bytes};
use base::NoMemory;
use events::{Entry, Outcome, Removed};
use itoa::Buffer;
use permissions::Verdict;

/// Appends the lines of a reload, by its entry: its epoch, then the connections whose sessions are gone, then the
/// subscriptions that are removed. Of any other entry it appends nothing.
pub fn write_reload(out: &mut Vec<u8>, entry: &Entry) -> Result<(), NoMemory>
    ensures { OnOk result (out.new.items ≡ out.old.items ++ reload_text entry.now) }
{
    match &entry.outcome {
        Outcome::Reloaded { gone, removed } => {
            write_epoch(out, entry.epoch)?;
            write_gone(out, gone.as_slice())?;
            write_removed(out, removed.as_slice())?;
            Ok(())
        }
        Outcome::Connected
        | Outcome::AuthViolation
        | Outcome::Subscribed
        | Outcome::SameSid
        | Outcome::SubLimit
        | Outcome::Unsubscribed
        | Outcome::Closed => Ok(()),
        Outcome::Denied(_) => Ok(()),
        Outcome::Published(_, _) => Ok(()),
        Outcome::Taken(_, _) => Ok(()),
    }
}

/// Appends the line of an epoch.
fn write_epoch(out: &mut Vec<u8>, epoch: u128) -> Result<(), NoMemory>
    ensures { OnOk result (out.new.items ≡ out.old.items ++ epoch_line epoch) }
{
    let mut digits = Buffer::new();
    append(out, b"epoch ", digits.format(epoch).as_bytes(), b"\n")
}

/// Appends a line for each of these connections.
fn write_gone(out: &mut Vec<u8>, gone: &[u64]) -> Result<(), NoMemory>
    ensures { OnOk result (out.new.items ≡ out.old.items ++ flat_map gone_line gone.now) }
{
    for conn in gone {
        let mut digits = Buffer::new();
        append(out, b"gone ", digits.format(*conn).as_bytes(), b"\n")?;
    }
    Ok(())
}

/// Appends a line for each of these subscriptions.
fn write_removed(out: &mut Vec<u8>, removed: &[Removed]) -> Result<(), NoMemory>
    ensures { OnOk result (out.new.items ≡ out.old.items ++ flat_map removed_line removed.now) }
{
    for one in removed {
        write_removal(out, one)?;
    }
    Ok(())
}

/// Appends the line of a subscription that is removed.
fn write_removal(out: &mut Vec<u8>, removed: &Removed) -> Result<(), NoMemory>
    ensures { OnOk result (out.new.items ≡ out.old.items ++ removed_line removed.now) }
{
    let mut digits = Buffer::new();
    let number = digits.format(removed.conn).as_bytes();
    append(out, b"removed ", number, b" ")?;
    write_bytes(out, removed.sid.as_slice())?;
    out.extend_from_slice(b" ")?;
    write_refusal(out, removed.verdict)?;
    out.extend_from_slice(b"\n")?;
    Ok(())
}

/// Appends why a subscription is refused.
fn write_refusal(out: &mut Vec<u8>, verdict: Verdict) -> Result<(), NoMemory>
    ensures { OnOk result (out.new.items ≡ out.old.items ++ refusal_words verdict) }
{
    match verdict {
        Verdict::Allowed(_) => Ok(()),
        Verdict::DeniedBy(index) => {
            let mut digits = Buffer::new();
            append(out, b"denied ", digits.format(index).as_bytes(), b"")
        }
        Verdict::NoAllow => Ok(out.extend_from_slice(b"no allow")?),
        Verdict::NoQueueAllow(index) => {
            let mut digits = Buffer::new();
            append(
                out,
                b"no queue allow ",
                digits.format(index).as_bytes(),
                b"",
            )
        }
    }
}
