// `natsd check`: what a policy comes to (docs/POLICY.md, "Checking a policy").
ghost use Rattle.std.specs.Prelude.{◌≡◌, ◌≢◌, ◌<◌, ◌||◌, ◌++◌, Err, false, codes, decimal, List, ℕ, length, IfOk, OnErr, OnOk, IfSome};
ghost use Rattle.std.specs.Io.KnownBytes.{Appends};
ghost use Rattle.devices.specs.Device.{AppendsFront};
ghost use Rattle.policy_text.specs.reload.Fault.{fault_line, is_memory};
ghost use Rattle.tasks.specs.Check.{counts_line, report_of, sources_word};
ghost use Rattle.tasks.specs.Fault.{is_read_failed, is_write_failed};

use crate::fault::TaskFault;
use base::{Items, NoMemory};
use devices::{Sink, Source, read_within, write_all};
use itoa::Buffer;
use policy_doc::{Policy, Version};
use policy_text::account_config::MOST_BYTES;
use policy_text::reload::{ReloadFault, read_valid_policy};
use policy_walk::ConfigFault;
use std::alloc::Global;

/// The most reads that bring a policy, with the one that finds its end.
pub(crate) const MOST_READS: usize = MOST_BYTES + 1;

/// What is said of a policy.
#[derive(Debug, Drop)]
pub(crate) struct Report {
    /// The lines that are printed.
    pub text: Items<u8>,
    /// 0 where it is a policy that answers, else 1.
    pub status: u8,
}

/// The report on the text of a policy.
fn report_of(alloc: Global, text: &[u8]) -> Result<Report, NoMemory>
    ensures text { IfOk result (λ report. report.text ≡ (report_of text.now).text) }
    ensures status { IfOk result (λ report. report.status ≡ (report_of text.now).status) }
{
    match read_valid_policy(alloc, text) {
        Ok(policy) => Ok(Report {
            text: counts_line(alloc, &policy)?,
            status: 0,
        }),
        Err(fault) => Ok(Report {
            text: fault_line(alloc, &fault)?,
            status: 1,
        }),
    }
}

/// The report on a text that is longer than a policy's may be.
pub(crate) fn report_too_large(alloc: Global) -> Result<Report, NoMemory>
    ensures text { (text : List ℕ) → 1048576 < length text → IfOk result (λ report. report.text ≡ (report_of text).text) }
    ensures status { (text : List ℕ) → 1048576 < length text → IfOk result (λ report. report.status ≡ (report_of text).status) }
{
    Ok(Report {
        text: fault_line(alloc, &ReloadFault::Config(ConfigFault::TooLarge))?,
        status: 1,
    })
}

/// The line that says how much a policy has, with its LF: `ok`, then how many accounts, users, exports and imports, and in
/// version 2 how many sources of mappings.
fn counts_line(alloc: Global, policy: &Policy) -> Result<Items<u8>, NoMemory>
    ensures { IfOk result (λ line. line ≡ counts_line policy.now) }
{
    let doc = policy.doc();
    let counts = doc.counts();
    let mut line = Vec::from_slice(alloc, b"ok")?;
    write_number(&mut line, doc.accounts.as_slice().len() as u128)?;
    write_number(&mut line, counts.users)?;
    write_number(&mut line, counts.exports)?;
    write_number(&mut line, counts.imports)?;
    write_sources(&mut line, doc.version, counts.mappings)?;
    line.extend_from_slice(b"\n")?;
    Ok(Items::from_vec(line))
}

/// Appends how many sources of mappings there are, where there may be some.
fn write_sources(line: &mut Vec<u8>, version: Version, sources: u128) -> Result<(), NoMemory>
    ensures { OnOk result (line.new.items ≡ line.old.items ++ sources_word version sources) }
{
    match version {
        Version::One => Ok(()),
        Version::Two => write_number(line, sources),
    }
}

/// Appends a number behind a space.
fn write_number(line: &mut Vec<u8>, number: u128) -> Result<(), NoMemory>
    ensures { OnOk result (line.new.items ≡ line.old.items ++ (codes " " ++ decimal number)) }
{
    line.extend_from_slice(b" ")?;
    line.extend_from_slice(Buffer::new().format(number).as_bytes())?;
    Ok(())
}

/// The line of a fault of a text, with its LF. `NoMemory` comes also where that is the fault, which says nothing of
/// the text.
pub(crate) fn fault_line(alloc: Global, fault: &ReloadFault) -> Result<Items<u8>, NoMemory>
    ensures told { IfOk result (λ line. line ≡ fault_line fault.now ++ codes "\n") }
    ensures fault { IfOk result (λ line. is_memory fault.now ≡ false) }
{
    if fault.is_memory() {
        return Err(NoMemory);
    }
    let mut line = fault.line(alloc)?;
    line.extend_from_slice(b"\n")?;
    Ok(Items::from_vec(line))
}

/// Checks a policy: reads the source to its end, or until the text is too large for a policy, and writes a line,
/// `ok` with how many accounts, users, exports and imports it has, and in version 2 how many sources of mappings, or its first
/// fault (docs/POLICY.md, "Faults").
/// Returns the status, 0 or 1.
///
/// `ReadFailed` and `WriteFailed` come where the device failed in this call, `NoMemory` where memory could not be
/// had. What was written then is a front of the line.
pub fn check<R: Source, W: Sink>(
    alloc: Global,
    source: &mut R,
    sink: &mut W,
) -> Result<u8, TaskFault>
    ensures meaning { IfOk result (λ status. IfSome (R.remaining source.old) (λ text.
        Appends (W.contents sink.old) (W.contents sink.new) (report_of text).text
        × (status ≡ (report_of text).status))) }
    ensures prefix { OnErr result (IfSome (R.remaining source.old) (λ text.
        AppendsFront (W.contents sink.old) (W.contents sink.new) (report_of text).text)) }
    ensures read_failed { R.failed source.new ≡ (R.failed source.old || is_read_failed result) }
    ensures write_failed { W.failed sink.new ≡ (W.failed sink.old || is_write_failed result) }
    ensures long { result ≢ Err TaskFault.ScriptTooLong }
{
    let report = match read_within(alloc, source, MOST_BYTES, MOST_READS)? {
        Some(text) => report_of(alloc, text.as_slice())?,
        None => report_too_large(alloc)?,
    };
    match write_all(sink, report.text.as_slice()) {
        Ok(()) => Ok(report.status),
        Err(_) => Err(TaskFault::WriteFailed),
    }
}
