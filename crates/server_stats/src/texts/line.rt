//! The line.
ghost use Rattle.std.specs.Prelude.{◌≡◌, ◌++◌, IfOk, OnOk};
ghost use Rattle.server_stats.specs.texts.Line.{account_object, account_objects, account_members, count, line_of, members_of, text, totals_of, IsWritten};

use crate::counts::Account;
use crate::texts::report::Report;
use base::NoMemory;
use json::Writer;
use std::alloc::Global;

/// Returns the line that tells what a server has counted: one JSON object, and LF. `NoMemory` where memory could not be had.
pub fn line_of(alloc: Global, report: &Report<'_>) -> Result<Vec<u8>, NoMemory>
    ensures { IfOk result (λ line. line.items ≡ line_of report.now) }
{
    let mut out = Writer::new(Vec::new(alloc));
    out.begin_object()?;
    put_members(alloc, &mut out, report)?;
    out.end_object()?;
    let mut line = out.into_inner();
    line.push(b'\n')?;
    Ok(line)
}

/// Writes the members of a report.
fn put_members(alloc: Global, out: &mut Writer, report: &Report<'_>) -> Result<(), NoMemory>
    ensures { OnOk result (IsWritten out.old out.new (members_of report.now)) }
{
    put_totals(alloc, out, report)?;
    out.key("accounts")?;
    out.begin_array()?;
    put_accounts(alloc, out, report.accounts)?;
    out.end_array()?;
    Ok(())
}

/// Writes the members that are no account's.
fn put_totals(alloc: Global, out: &mut Writer, report: &Report<'_>) -> Result<(), NoMemory>
    ensures { OnOk result (IsWritten out.old out.new (totals_of report.now)) }
{
    put_count(out, "at", report.at)?;
    put_text(alloc, out, "event", b"stats")?;
    put_text(alloc, out, "level", b"info")?;
    put_count(out, "connections", report.connections)?;
    put_count(out, "held", report.others.held)?;
    put_count(out, "waiting_bytes", report.others.bytes)?;
    put_count(out, "history_entries", report.hub.entries)?;
    put_count(out, "history_bytes", report.history_bytes)?;
    put_count(out, "rotations", report.rotations)?;
    put_count(out, "epoch", report.hub.epoch)?;
    Ok(())
}

/// Writes accounts, in order.
fn put_accounts(alloc: Global, out: &mut Writer, accounts: &[Account]) -> Result<(), NoMemory>
    ensures { OnOk result (IsWritten out.old out.new (account_objects accounts.now)) }
{
    for account in accounts {
        put_account(alloc, out, account)?;
    }
    Ok(())
}

/// Writes what is counted of an account, as an object.
fn put_account(alloc: Global, out: &mut Writer, account: &Account) -> Result<(), NoMemory>
    ensures { OnOk result (IsWritten out.old out.new (account_object account.now)) }
{
    out.begin_object()?;
    put_account_members(alloc, out, account)?;
    out.end_object()?;
    Ok(())
}

/// Writes the members of an account's object.
fn put_account_members(alloc: Global, out: &mut Writer, account: &Account) -> Result<(), NoMemory>
    ensures { OnOk result (IsWritten out.old out.new (account_members account.now)) }
{
    put_text(alloc, out, "account", account.name.as_slice())?;
    put_count(out, "sessions", account.counts.sessions)?;
    put_count(out, "subscriptions", account.counts.subscriptions)?;
    put_count(out, "waiting", account.counts.waiting)?;
    put_count(out, "received", account.counts.received)?;
    put_count(out, "sent", account.counts.sent)?;
    put_count(out, "slow_consumers", account.counts.slow)?;
    Ok(())
}

/// Writes a name and a text. What isn't UTF-8 is replaced by U+FFFD.
fn put_text(alloc: Global, out: &mut Writer, name: &str, bytes: &[u8]) -> Result<(), NoMemory>
    ensures { OnOk result (IsWritten out.old out.new (text name.now bytes.now)) }
{
    let shown = String::from_utf8_lossy(alloc, bytes)?;
    out.key(name)?;
    out.string(shown.as_str())?;
    Ok(())
}

/// Writes a name and a number.
fn put_count(out: &mut Writer, name: &str, number: u64) -> Result<(), NoMemory>
    ensures { OnOk result (IsWritten out.old out.new (count name.now number)) }
{
    out.key(name)?;
    out.u64(number)?;
    Ok(())
}
