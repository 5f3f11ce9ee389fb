//! The metrics of Prometheus, in its text format (Prometheus documentation, "Exposition formats").
ghost use Rattle.std.specs.Prelude.{◌≡◌, ◌++◌, IfOk, OnOk};
ghost use Rattle.server_stats.specs.texts.Metrics.{account_metrics, escaped, escaped_byte, family, header, metrics_of, own_metrics, sample, sample_of, samples, single};

use crate::counts::Account;
use crate::texts::metric::{Metric, help_of, kind_of, name_of, number_of};
use crate::texts::report::Report;
use base::NoMemory;
use itoa::Buffer;
use std::alloc::Global;

/// Returns the metrics of what a server has counted, each with its header. `NoMemory` where memory could not be had.
pub fn metrics_of(alloc: Global, report: &Report<'_>) -> Result<Vec<u8>, NoMemory>
    ensures { IfOk result (λ text. text.items ≡ metrics_of report.now) }
{
    let mut out = Vec::new(alloc);
    put_own(&mut out, report)?;
    put_families(&mut out, report.accounts)?;
    Ok(out)
}

/// Writes the metrics that are no account's.
fn put_own(out: &mut Vec<u8>, report: &Report<'_>) -> Result<(), NoMemory>
    ensures { OnOk result (out.new.items ≡ out.old.items ++ own_metrics report.now) }
{
    put_single(out, Metric::Connections, report.connections)?;
    put_single(out, Metric::Held, report.others.held)?;
    put_single(out, Metric::WaitingBytes, report.others.bytes)?;
    put_single(out, Metric::HistoryEntries, report.hub.entries)?;
    put_single(out, Metric::HistoryBytes, report.history_bytes)?;
    put_single(out, Metric::Rotations, report.rotations)?;
    put_single(out, Metric::Epoch, report.hub.epoch)?;
    Ok(())
}

/// Writes the metrics of accounts.
fn put_families(out: &mut Vec<u8>, accounts: &[Account]) -> Result<(), NoMemory>
    ensures { OnOk result (out.new.items ≡ out.old.items ++ account_metrics accounts.now) }
{
    put_family(out, Metric::Sessions, accounts)?;
    put_family(out, Metric::Subscriptions, accounts)?;
    put_family(out, Metric::Waiting, accounts)?;
    put_family(out, Metric::Received, accounts)?;
    put_family(out, Metric::Sent, accounts)?;
    put_family(out, Metric::Slow, accounts)?;
    Ok(())
}

/// Writes a metric with one number.
#[tactic(auto, unfolding(crate::specs::texts::Metrics::single))]
fn put_single(out: &mut Vec<u8>, metric: Metric, number: u64) -> Result<(), NoMemory>
    ensures { OnOk result (out.new.items ≡ out.old.items ++ single metric number) }
{
    put_header(out, metric)?;
    put_sample(out, metric, number)?;
    Ok(())
}

/// Writes a metric with a number for each account.
#[tactic(auto, unfolding(crate::specs::texts::Metrics::family))]
fn put_family(out: &mut Vec<u8>, metric: Metric, accounts: &[Account]) -> Result<(), NoMemory>
    ensures { OnOk result (out.new.items ≡ out.old.items ++ family metric accounts.now) }
{
    put_header(out, metric)?;
    put_samples(out, metric, accounts)?;
    Ok(())
}

/// Writes the lines that say what a metric means and what type it has.
fn put_header(out: &mut Vec<u8>, metric: Metric) -> Result<(), NoMemory>
    ensures { OnOk result (out.new.items ≡ out.old.items ++ header metric) }
{
    put(out, "# HELP ")?;
    put(out, name_of(metric))?;
    put(out, " ")?;
    put(out, help_of(metric))?;
    put(out, "\n# TYPE ")?;
    put(out, name_of(metric))?;
    put(out, " ")?;
    put(out, kind_of(metric))?;
    put(out, "\n")?;
    Ok(())
}

/// Writes the line of a metric's only number.
fn put_sample(out: &mut Vec<u8>, metric: Metric, number: u64) -> Result<(), NoMemory>
    ensures { OnOk result (out.new.items ≡ out.old.items ++ sample metric number) }
{
    put(out, name_of(metric))?;
    put_number(out, number)?;
    Ok(())
}

/// Writes the lines of a metric's numbers, one for each account, in order.
fn put_samples(out: &mut Vec<u8>, metric: Metric, accounts: &[Account]) -> Result<(), NoMemory>
    ensures { OnOk result (out.new.items ≡ out.old.items ++ samples metric accounts.now) }
{
    for account in accounts {
        put_sample_of(out, metric, account)?;
    }
    Ok(())
}

/// Writes the line of a metric's number of an account, whose name is a label.
fn put_sample_of(out: &mut Vec<u8>, metric: Metric, account: &Account) -> Result<(), NoMemory>
    ensures { OnOk result (out.new.items ≡ out.old.items ++ sample_of metric account.now) }
{
    put(out, name_of(metric))?;
    put(out, "{account=\"")?;
    put_escaped(out, account.name.as_slice())?;
    put(out, "\"}")?;
    put_number(out, number_of(metric, account.counts))?;
    Ok(())
}

/// Writes a label's value: a backslash, a quote and a line feed are escaped.
fn put_escaped(out: &mut Vec<u8>, value: &[u8]) -> Result<(), NoMemory>
    ensures { OnOk result (out.new.items ≡ out.old.items ++ escaped value.now) }
{
    for byte in value {
        put_byte(out, *byte)?;
    }
    Ok(())
}

/// Writes a byte of a label's value.
fn put_byte(out: &mut Vec<u8>, byte: u8) -> Result<(), NoMemory>
    ensures { OnOk result (out.new.items ≡ out.old.items ++ escaped_byte byte) }
{
    match byte {
        b'\\' => put(out, "\\\\"),
        b'"' => put(out, "\\\""),
        b'\n' => put(out, "\\n"),
        _ => {
            out.push(byte)?;
            Ok(())
        }
    }
}

ghost use Rattle.std.specs.Prelude.{◌∷◌, [], codes, decimal};

/// Writes a number behind a space, and LF.
fn put_number(out: &mut Vec<u8>, number: u64) -> Result<(), NoMemory>
    ensures { OnOk result (out.new.items ≡ out.old.items ++ codes " " ++ decimal number ++ codes "\n") }
{
    let mut digits = Buffer::new();
    put(out, " ")?;
    put(out, digits.format(number))?;
    put(out, "\n")?;
    Ok(())
}

/// Writes a text.
fn put(out: &mut Vec<u8>, text: &str) -> Result<(), NoMemory>
    ensures { OnOk result (out.new.items ≡ out.old.items ++ text.now) }
{
    out.extend_from_slice(text.as_bytes())?;
    Ok(())
}
