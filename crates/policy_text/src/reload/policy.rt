ghost use Rattle.std.specs.Prelude.{◌≡◌, [], Ok, IfOk, IfErr};
ghost use Rattle.policy_doc.specs.Document.{policy_fault, IsValidPolicy};
ghost use Rattle.policy_doc.specs.declared.fault.PolicyFault.TheVariants as policy;
ghost use Rattle.policy_text.specs.account_config.Policy.{policy_of};
ghost use Rattle.policy_text.specs.reload.Reload.{account_in, checked, prepared, Answers, IsLastOf, IsLast};
ghost use Rattle.policy_text.specs.declared.reload.fault.ReloadFault.TheVariants as refused;

use crate::account_config::read_policy;
use crate::reload::{AccountName, ReloadFault};
use policy_doc::{Policy, PolicyDoc, PolicyFault};
use policy_ready::CompiledPolicy;
use std::alloc::Global;

/// The policy of a text, made ready, or the text's first fault: faults of the text as a document come before those of the
/// document as a policy.
///
/// Where memory could not be had, `Config(NoMemory)` comes of reading the text and `Policy` with `NoMemory` of the
/// rest. `Policy` with `NoMemory` comes of a text without a fault alone.
#[tactic(auto, using(crate::proofs::reload::Last::none_last))]
pub fn prepare(alloc: Global, text: &[u8]) -> Result<CompiledPolicy, ReloadFault>
    ensures answers { Answers result (prepared text.now) }
    ensures last { IfErr result (IsLast (policy_of text.now)) }
{
    let policy = read_valid_policy(alloc, text)?;
    match CompiledPolicy::of(alloc, policy) {
        Ok(ready) => Ok(ready),
        Err((_, _refused)) => Err(no_memory()),
    }
}

/// The policy of a text, or the text's first fault, as `prepare` answers it.
#[tactic(auto, using(crate::proofs::reload::Last::read_last, crate::proofs::reload::Last::read_valid))]
pub fn read_valid_policy(alloc: Global, text: &[u8]) -> Result<Policy, ReloadFault>
    ensures answers { Answers result (prepared text.now) }
    ensures read { IfOk result (λ policy. (policy_of text.now ≡ Ok policy) × IsValidPolicy policy) }
    ensures last { IfErr result (IsLast (policy_of text.now)) }
{
    match read_policy(alloc, text) {
        Ok(doc) => check(alloc, doc),
        Err(fault) => Err(ReloadFault::Config(fault)),
    }
}

/// The policy of a document, or its first fault.
#[tactic(auto, using(crate::proofs::reload::Last::fault_last, crate::proofs::reload::Last::fault_answers))]
fn check(alloc: Global, doc: PolicyDoc) -> Result<Policy, ReloadFault>
    ensures answers { Answers result (checked doc (policy_fault doc)) }
    ensures read { IfOk result (λ policy. (policy ≡ doc) × IsValidPolicy policy) }
    ensures last { IfErr result (IsLastOf doc) }
{
    match Policy::check(alloc, doc) {
        Ok(policy) => Ok(policy),
        Err((doc, fault)) => Err(refusal(doc, fault)),
    }
}

/// The fault of a document with the account where it stands. It takes no memory.
fn refusal(doc: PolicyDoc, fault: PolicyFault) -> ReloadFault
    ensures { result ≡ refused.Policy fault (account_in doc fault) }
{
    match fault.place() {
        Some(place) => ReloadFault::Policy {
            fault,
            account: AccountName::at(doc, place.account),
        },
        None => ReloadFault::Policy {
            fault,
            account: AccountName::none(),
        },
    }
}

/// The fault that there was no memory.
fn no_memory() -> ReloadFault
    ensures { result ≡ refused.Policy policy.NoMemory [] }
{
    ReloadFault::Policy {
        fault: PolicyFault::NoMemory,
        account: AccountName::none(),
    }
}
