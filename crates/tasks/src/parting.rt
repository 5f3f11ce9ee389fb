// `natsd check --sets`: which accounts of a policy exchange messages (docs/POLICY.md, "Tenants that exchange nothing").
ghost use Rattle.std.specs.Prelude.{◌≡◌, ◌≢◌, ◌<◌, ◌||◌, Err, List, ℕ, length, IfOk, OnErr, IfSome};
ghost use Rattle.std.specs.Io.KnownBytes.{Appends};
ghost use Rattle.devices.specs.Device.{AppendsFront};
ghost use Rattle.policy_sets.specs.Lines.{lines_of};
ghost use Rattle.policy_sets.specs.Sets.{sets_of};
ghost use Rattle.tasks.specs.Check.{sets_of_text};
ghost use Rattle.tasks.specs.Fault.{is_read_failed, is_write_failed};

use crate::check::{MOST_READS, Report, fault_line, report_too_large};
use crate::fault::TaskFault;
use base::{Items, NoMemory};
use devices::{Sink, Source, read_within, write_all};
use policy_doc::Policy;
use policy_sets::{closed_sets, lines_of};
use policy_text::account_config::MOST_BYTES;
use policy_text::reload::read_valid_policy;
use std::alloc::Global;

/// Returns the report on the sets of the policy of a text.
fn report_on_sets(alloc: Global, text: &[u8]) -> Result<Report, NoMemory>
    ensures text { IfOk result (λ report. report.text ≡ (sets_of_text text.now).text) }
    ensures status { IfOk result (λ report. report.status ≡ (sets_of_text text.now).status) }
{
    match read_valid_policy(alloc, text) {
        Ok(policy) => Ok(Report {
            text: sets_lines(alloc, &policy)?,
            status: 0,
        }),
        Err(fault) => Ok(Report {
            text: fault_line(alloc, &fault)?,
            status: 1,
        }),
    }
}

/// Returns the lines of the smallest closed sets of a policy's accounts.
fn sets_lines(alloc: Global, policy: &Policy) -> Result<Items<u8>, NoMemory>
    ensures { IfOk result (λ lines. lines ≡ lines_of (sets_of policy.now.accounts)) }
{
    let sets = closed_sets(alloc, policy)?;
    let lines = lines_of(alloc, sets.as_slice())?;
    Ok(lines)
}

/// Says which accounts of a policy exchange messages: reads the source to its end, or until the text is too large for a
/// policy, and writes the smallest closed sets of its accounts, each on a line, or the line of its first fault. Returns the
/// status, 0 or 1.
///
/// `ReadFailed` and `WriteFailed` come where the device failed in this call, `NoMemory` where memory could not be had. What
/// was written then is a front of the lines.
pub fn tell_sets<R: Source, W: Sink>(
    alloc: Global,
    source: &mut R,
    sink: &mut W,
) -> Result<u8, TaskFault>
    ensures meaning { IfOk result (λ status. IfSome (R.remaining source.old) (λ text.
        Appends (W.contents sink.old) (W.contents sink.new) (sets_of_text text).text
        × (status ≡ (sets_of_text text).status))) }
    ensures prefix { OnErr result (IfSome (R.remaining source.old) (λ text.
        AppendsFront (W.contents sink.old) (W.contents sink.new) (sets_of_text text).text)) }
    ensures read_failed { R.failed source.new ≡ (R.failed source.old || is_read_failed result) }
    ensures write_failed { W.failed sink.new ≡ (W.failed sink.old || is_write_failed result) }
    ensures long { result ≢ Err TaskFault.ScriptTooLong }
{
    let report = match read_within(alloc, source, MOST_BYTES, MOST_READS)? {
        Some(text) => report_on_sets(alloc, text.as_slice())?,
        None => no_sets_of_large(alloc)?,
    };
    match write_all(sink, report.text.as_slice()) {
        Ok(()) => Ok(report.status),
        Err(_) => Err(TaskFault::WriteFailed),
    }
}

/// Returns the report on a text that is longer than a policy's may be.
fn no_sets_of_large(alloc: Global) -> Result<Report, NoMemory>
    ensures text { (text : List ℕ) → 1048576 < length text → IfOk result (λ report. report.text ≡ (sets_of_text text).text) }
    ensures status { (text : List ℕ) → 1048576 < length text → IfOk result (λ report. report.status ≡ (sets_of_text text).status) }
{
    let report = report_too_large(alloc)?;
    Ok(report)
}
