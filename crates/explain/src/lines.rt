//! The lines that tell where a message is sent on and seen.
ghost use Rattle.std.specs.Prelude.{◌≡◌, ◌++◌, flat_map, IfOk, OnOk};
ghost use Rattle.explain.specs.Lines.{dropped_line, kind_words, path_text, sent_line, share_lines, view_line};

use crate::explanation::write_counted;
use crate::path::left_by;
use crate::{PathShare, SentAs, View, ViewKind};
use base::NoMemory;
use std::alloc::Global;

/// Returns the lines of the shares of the messages on a subject: for each a line `mapped` with its weight and its subject, but
/// where all go on as they were published, and a line for each view; last a line of those that are dropped, if there are any.
/// `NoMemory` where memory could not be had.
pub fn path_lines(alloc: Global, shares: &[PathShare]) -> Result<Vec<u8>, NoMemory>
    ensures { IfOk result (λ lines. lines.items ≡ path_text shares.now) }
{
    let mut out = Vec::new(alloc);
    write_shares(&mut out, shares)?;
    write_dropped(&mut out, left_by(shares))?;
    Ok(out)
}

/// Appends the lines of shares.
fn write_shares(out: &mut Vec<u8>, shares: &[PathShare]) -> Result<(), NoMemory>
    ensures { OnOk result (out.new.items ≡ out.old.items ++ flat_map share_lines shares.now) }
{
    for share in shares {
        write_share(out, share)?;
    }
    Ok(())
}

/// Appends the lines of a share.
fn write_share(out: &mut Vec<u8>, share: &PathShare) -> Result<(), NoMemory>
    ensures { OnOk result (out.new.items ≡ out.old.items ++ share_lines share.now) }
{
    write_sent(out, share.weight, &share.sent)?;
    write_views(out, share.views.as_slice())?;
    Ok(())
}

/// Appends the line of how many messages go under which subject.
fn write_sent(out: &mut Vec<u8>, weight: u64, sent: &SentAs) -> Result<(), NoMemory>
    ensures { OnOk result (out.new.items ≡ out.old.items ++ sent_line weight sent.now) }
{
    match sent {
        SentAs::Same => Ok(()),
        SentAs::To(subject) => {
            write_counted(out, b"mapped ", weight)?;
            out.push(b' ')?;
            out.extend_from_slice(subject.as_slice())?;
            out.push(b'\n')?;
            Ok(())
        }
        SentAs::TooLong => {
            write_counted(out, b"mapped too long ", weight)?;
            out.push(b'\n')?;
            Ok(())
        }
    }
}

/// Appends the line of how many messages are dropped, if any are.
fn write_dropped(out: &mut Vec<u8>, left: u64) -> Result<(), NoMemory>
    ensures { OnOk result (out.new.items ≡ out.old.items ++ dropped_line left) }
{
    if left == 0 {
        return Ok(());
    }
    write_counted(out, b"unmapped ", left)?;
    out.push(b'\n')?;
    Ok(())
}

/// Appends the lines of views.
fn write_views(out: &mut Vec<u8>, views: &[View]) -> Result<(), NoMemory>
    ensures { OnOk result (out.new.items ≡ out.old.items ++ flat_map view_line views.now) }
{
    for view in views {
        write_view(out, view)?;
    }
    Ok(())
}

/// Appends the line of a view.
fn write_view(out: &mut Vec<u8>, view: &View) -> Result<(), NoMemory>
    ensures { OnOk result (out.new.items ≡ out.old.items ++ view_line view.now) }
{
    match view {
        View::At {
            account,
            subject,
            kind,
        } => {
            out.extend_from_slice(b"view ")?;
            out.extend_from_slice(account.as_slice())?;
            out.push(b' ')?;
            out.extend_from_slice(subject.as_slice())?;
            out.push(b' ')?;
            write_kind(out, *kind)?;
            out.push(b'\n')?;
            Ok(())
        }
        View::TooLong { importer, row } => {
            out.extend_from_slice(b"too long ")?;
            out.extend_from_slice(importer.as_slice())?;
            write_counted(out, b" ", *row as u64)?;
            out.push(b'\n')?;
            Ok(())
        }
    }
}

/// Appends how a view came about.
fn write_kind(out: &mut Vec<u8>, kind: ViewKind) -> Result<(), NoMemory>
    ensures { OnOk result (out.new.items ≡ out.old.items ++ kind_words kind) }
{
    match kind {
        ViewKind::Own => Ok(out.extend_from_slice(b"own")?),
        ViewKind::Stream(row) => write_counted(out, b"stream ", row as u64),
        ViewKind::Service(row) => write_counted(out, b"service ", row as u64),
    }
}
