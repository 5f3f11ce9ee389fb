// `natsd explain`: what a policy says to a question (docs/POLICY.md, "Explaining a verdict").
ghost use Rattle.std.specs.Prelude.{◌≡◌, ◌≢◌, ◌<◌, ◌||◌, Err, List, ℕ, length, IfOk, OnErr, IfSome};
ghost use Rattle.std.specs.Io.KnownBytes.{Appends};
ghost use Rattle.devices.specs.Device.{AppendsFront};
ghost use Rattle.tasks.specs.Explaining.{explained_by};
ghost use Rattle.tasks.specs.Fault.{is_read_failed, is_write_failed};

use crate::answer::answer_by;
use crate::check::{MOST_READS, Report, fault_line, report_too_large};
use crate::fault::TaskFault;
use base::NoMemory;
use command_line::Question;
use devices::{Sink, Source, read_within, write_all};
use policy_text::account_config::MOST_BYTES;
use policy_text::reload::read_valid_policy;
use std::alloc::Global;

/// Returns the report on a question to the text of a policy.
fn report_to(alloc: Global, question: &Question, text: &[u8]) -> Result<Report, NoMemory>
    ensures text { IfOk result (λ report. report.text ≡ (explained_by question.now text.now).text) }
    ensures status { IfOk result (λ report. report.status ≡ (explained_by question.now text.now).status) }
{
    match read_valid_policy(alloc, text) {
        Ok(policy) => {
            let report = answer_by(alloc, question, &policy)?;
            Ok(report)
        }
        Err(fault) => Ok(Report {
            text: fault_line(alloc, &fault)?,
            status: 1,
        }),
    }
}

/// Explains what a policy says to a question: reads the source to its end, or until the text is too large for a policy, and
/// writes the answer, or the line of the first fault (docs/POLICY.md, "Explaining a verdict"). Returns the status: 0 where
/// the question is answered, else 1.
///
/// `ReadFailed` and `WriteFailed` come where the device failed in this call, `NoMemory` where memory could not be had. What
/// was written then is a front of the answer.
pub fn explain<R: Source, W: Sink>(
    alloc: Global,
    question: &Question,
    source: &mut R,
    sink: &mut W,
) -> Result<u8, TaskFault>
    ensures meaning { IfOk result (λ status. IfSome (R.remaining source.old) (λ text.
        Appends (W.contents sink.old) (W.contents sink.new) (explained_by question.now text).text
        × (status ≡ (explained_by question.now text).status))) }
    ensures prefix { OnErr result (IfSome (R.remaining source.old) (λ text.
        AppendsFront (W.contents sink.old) (W.contents sink.new) (explained_by question.now text).text)) }
    ensures read_failed { R.failed source.new ≡ (R.failed source.old || is_read_failed result) }
    ensures write_failed { W.failed sink.new ≡ (W.failed sink.old || is_write_failed result) }
    ensures long { result ≢ Err TaskFault.ScriptTooLong }
{
    let report = match read_within(alloc, source, MOST_BYTES, MOST_READS)? {
        Some(text) => report_to(alloc, question, text.as_slice())?,
        None => report_on_large(alloc)?,
    };
    match write_all(sink, report.text.as_slice()) {
        Ok(()) => Ok(report.status),
        Err(_) => Err(TaskFault::WriteFailed),
    }
}

/// Returns the report on a text that is longer than a policy's may be, whatever is asked.
fn report_on_large(alloc: Global) -> Result<Report, NoMemory>
    ensures text { (question : Question) (text : List ℕ) → 1048576 < length text → IfOk result (λ report. report.text ≡ (explained_by question text).text) }
    ensures status { (question : Question) (text : List ℕ) → 1048576 < length text → IfOk result (λ report. report.status ≡ (explained_by question text).status) }
{
    let report = report_too_large(alloc)?;
    Ok(report)
}
