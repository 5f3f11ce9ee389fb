ghost use Rattle.std.specs.Prelude.{◌≡◌, ◌≤◌, false, All, Err, IfErr, IfOk, List, Ok, Some, map};
ghost use Rattle.serde_json.specs.Data.{Data, depth};
ghost use Rattle.serde_json.specs.Read.{max_depth};
ghost use Rattle.serde_json.specs.View.{view};
ghost use Rattle.json_text.specs.Json.{json_of};
ghost use Rattle.policy_doc.specs.declared.document.PolicyDoc.{PolicyDoc};
ghost use Rattle.policy_sets.specs.Sets.{sets_of};
ghost use Rattle.policy_text.specs.reload.Fault.{is_memory};
ghost use Rattle.policy_text.specs.reload.Reload.{prepared};
ghost use Rattle.policy_sets.specs.parts.Parts.{AreParts, IsPart};

use crate::closed_sets;
use crate::parts::cutting::part_text;
use base::{Items, NoMemory};
use bytes::Bytes;
use json_text::read_json;
use policy_doc::Policy;
use policy_text::reload::{ReloadFault, read_valid_policy};
use policy_walk::ConfigFault;
use serde_json::Value;
use std::alloc::Global;

/// A part of a policy: accounts that exchange messages with no other, and the text of a policy that has them alone.
#[derive(Debug, Drop)]
pub struct PolicyPart {
    /// The names of the accounts, in order.
    pub accounts: Items<Bytes>,
    /// The policy's text. It has no LF at its end.
    pub text: Vec<u8>,
}

/// Returns the parts of the policy of a text, one for each smallest closed set of its accounts, in the order of these; or the
/// text's first fault, as `read_valid_policy` does. The JSON value of a part's text is that of the whole, less the accounts of
/// other sets.
///
/// It takes as many steps as the square of the number of accounts.
pub fn parts_of(alloc: Global, text: &[u8]) -> Result<Vec<PolicyPart>, ReloadFault>
    ensures parts { IfOk result (λ parts. AreParts text.now parts.items) }
    ensures fault { IfErr result (λ fault. is_memory fault ≡ false → prepared text.now ≡ Err fault) }
{
    let policy = read_valid_policy(alloc, text)?;
    match cut(alloc, &policy, text) {
        Ok(parts) => Ok(parts),
        Err(_) => Err(ReloadFault::Config(ConfigFault::NoMemory)),
    }
}

/// Returns the parts of a policy, which was read of this text.
fn cut(alloc: Global, policy: &Policy, text: &[u8]) -> Result<Vec<PolicyPart>, NoMemory>
    requires { prepared text.now ≡ Ok policy.now }
    ensures { IfOk result (λ parts. AreParts text.now parts.items) }
{
    let sets = closed_sets(alloc, policy)?;
    // (the text was read before, so it is JSON)
    let Ok(value) = read_json(alloc, text) else {
        return Err(NoMemory);
    };
    let parts = each_part(alloc, &value, sets)?;
    Ok(parts)
}

/// Returns a part for each of these sets.
fn each_part(
    alloc: Global,
    value: &Value,
    sets: Vec<Items<Bytes>>,
) -> Result<Vec<PolicyPart>, NoMemory>
    requires { depth (view value.now) ≤ max_depth }
    ensures sets { IfOk result (λ parts. map (λ (p : PolicyPart). p.accounts) parts.items ≡ sets.items) }
    ensures texts { IfOk result (λ parts. All (IsPart (view value.now)) parts.items) }
{
    let mut parts = Vec::new(alloc);
    for accounts in sets {
        let text = part_text(alloc, value, accounts.as_slice())?;
        parts.push(PolicyPart { accounts, text })?;
    }
    Ok(parts)
}
