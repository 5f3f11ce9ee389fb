ghost use Rattle.std.specs.Prelude.{◌≡◌, MatchOption};
ghost use Rattle.policy_doc.specs.Document.{policy_fault, IsValidPolicy, IsPolicyFault};

use crate::builtin::builtin_document;
use crate::import_rows::fault_in_imports;
use crate::unique::first_twin;
use crate::{PolicyDoc, PolicyFault};
use base::{Copying, NoMemory};
use std::alloc::Global;
use std::marker::Model;

/// A document that is valid. A clause sees the document.
#[derive(Debug)]
pub struct Policy {
    doc: PolicyDoc,
}

impl Drop for Policy {
    fn drop(self) {
        let Self { doc: _ } = self;
    }
}

impl Model for Policy {
    ghost use Rattle.policy_doc.specs.declared.document.PolicyDoc.{PolicyDoc};

    ghost Value = { PolicyDoc };

    ghost use Rattle.policy_doc.specs.Document.{IsValidPolicy};

    ghost view = { λ p. p.doc };

    ghost invariant = { λ p. IsValidPolicy p.doc };
}

impl Policy {
    ghost use Rattle.std.specs.Prelude.{◌≡◌, IfOk, IfErr, Some, None, false};
    ghost use Rattle.policy_doc.specs.Document.{builtin_doc, policy_fault, IsValidPolicy, IsPolicyFault};
    ghost use Rattle.policy_doc.specs.Faults.{is_memory};

    /// The policy of a document, exactly where it is valid. Else the document is handed back unchanged with its first
    /// fault, in the order of `PolicyFault`. `NoMemory` is of a valid document for which memory could not be had.
    pub fn check(alloc: Global, doc: PolicyDoc) -> Result<Policy, (PolicyDoc, PolicyFault)>
        ensures same { IfOk result (λ policy. policy ≡ doc) }
        ensures valid { IfOk result (λ _. IsValidPolicy doc) }
        ensures none { IfOk result (λ _. policy_fault doc ≡ None) }
        ensures back { IfErr result (λ refused. refused.0 ≡ doc) }
        ensures invalid { IfErr result (λ refused. is_memory refused.1 ≡ false → ¬ IsValidPolicy doc) }
        ensures first { IfErr result (λ refused. is_memory refused.1 ≡ false → policy_fault doc ≡ Some refused.1) }
        ensures fault { IfErr result (λ refused. IsPolicyFault doc refused.1) }
    {
        match first_fault(alloc, &doc) {
            None => Ok(Policy { doc }),
            Some(fault) => Err((doc, fault)),
        }
    }

    /// The policy that holds where none is given: account `DEMO` with user `demo` without permissions,
    /// and with user `limited`, who may publish and subscribe below `foo` but not on `foo.bar`.
    /// `NoMemory` where memory could not be had.
    pub fn builtin(alloc: Global) -> Result<Policy, NoMemory>
        ensures { IfOk result (λ policy. policy ≡ builtin_doc) }
    {
        let doc = builtin_document(alloc)?;
        Ok(Policy { doc })
    }

    /// The document, which is valid.
    pub fn doc(&self) -> &PolicyDoc
        ensures same { result.now ≡ self.now }
        ensures valid { IsValidPolicy self.now }
    {
        &self.doc
    }
}

/// The first fault of a document.
fn first_fault(alloc: Global, doc: &PolicyDoc) -> Option<PolicyFault>
    ensures first { result ≡ policy_fault doc.now }
    ensures fault { MatchOption result (IsValidPolicy doc.now) (λ fault. IsPolicyFault doc.now fault × ¬ IsValidPolicy doc.now) }
{
    match first_twin(alloc, doc.accounts.as_slice()) {
        Some(place) => Some(PolicyFault::DuplicateUser(place)),
        None => {
            let fault = fault_in_imports(&doc.accounts);
            fault
        }
    }
}

impl Copying for Policy {
    fn copy(&self, alloc: Global) -> Result<Policy, NoMemory> {
        Ok(Policy {
            doc: self.doc.copy(alloc)?,
        })
    }
}
