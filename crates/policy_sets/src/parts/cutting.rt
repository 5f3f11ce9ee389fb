//! A policy's JSON value, cut to some of its accounts.
ghost use Rattle.std.specs.Prelude.{◌≡◌, ◌≤◌, Some, IfOk, IsTrue};
ghost use Rattle.serde_json.specs.Data.{depth};
ghost use Rattle.serde_json.specs.Read.{max_depth};
ghost use Rattle.serde_json.specs.View.{view, members_view};
ghost use Rattle.json_text.specs.Json.{json_of};
ghost use Rattle.policy_sets.specs.Sets.{is_in};
ghost use Rattle.policy_sets.specs.parts.Parts.{account_if, accounts_kept, each_member, part_of, top_kept};

use base::NoMemory;
use bytes::Bytes;
use policy_text::account_config::MOST_BYTES;
use serde_json::{Map, Value, put};
use std::alloc::Global;

/// Returns the text of the policy whose accounts have these names, and which has all else that the whole policy's value has.
pub(crate) fn part_text(alloc: Global, value: &Value, names: &[Bytes]) -> Result<Vec<u8>, NoMemory>
    requires { depth (view value.now) ≤ max_depth }
    ensures { IfOk result (λ text. json_of text.items ≡ Some (part_of (is_in names.now) (view value.now))) }
{
    let part = part_of(alloc, value, names)?;
    let text = text_of(alloc, &part)?;
    Ok(text)
}

/// Returns the text of a value. It is laid out in lines, unless that has more bytes than a policy may have.
fn text_of(alloc: Global, value: &Value) -> Result<Vec<u8>, NoMemory>
    requires { depth (view value.now) ≤ max_depth }
    ensures { IfOk result (λ text. json_of text.items ≡ Some (view value.now)) }
{
    let lines = value.to_vec_pretty(alloc)?;
    if lines.len() > MOST_BYTES {
        return Ok(value.to_vec(alloc)?);
    }
    Ok(lines)
}

/// Returns a policy's value with the accounts of these names alone.
fn part_of(alloc: Global, value: &Value, names: &[Bytes]) -> Result<Value, NoMemory>
    ensures { IfOk result (λ part. view part ≡ part_of (is_in names.now) (view value.now)) }
{
    match value {
        Value::Object(members) => Ok(Value::Object(top_of(alloc, members, names)?)),
        other => Ok(other.clone()?),
    }
}

/// Returns the members at the top of a policy's value, with the accounts of these names alone.
fn top_of(
    alloc: Global,
    members: &Map<String, Value>,
    names: &[Bytes],
) -> Result<Map<String, Value>, NoMemory>
    ensures { IfOk result (λ top. members_view top.entries ≡ each_member (top_kept (is_in names.now)) (members_view members.now.entries)) }
{
    let mut top = Map::new(alloc);
    for (key, member) in members.iter() {
        let kept = member_of(alloc, key.as_str(), member, names)?;
        put(&mut top, alloc, key.as_str(), kept)?;
    }
    Ok(top)
}

/// Returns a member at the top of a policy's value: of the accounts those of these names, and another as it is.
fn member_of(alloc: Global, key: &str, member: &Value, names: &[Bytes]) -> Result<Value, NoMemory>
    ensures { IfOk result (λ kept. Some (view kept) ≡ top_kept (is_in names.now) key.now (view member.now)) }
{
    if key == "accounts" {
        let kept = accounts_of(alloc, member, names)?;
        Ok(kept)
    } else {
        Ok(member.clone()?)
    }
}

/// Returns the accounts of these names.
fn accounts_of(alloc: Global, accounts: &Value, names: &[Bytes]) -> Result<Value, NoMemory>
    ensures { IfOk result (λ kept. view kept ≡ accounts_kept (is_in names.now) (view accounts.now)) }
{
    match accounts {
        Value::Object(members) => Ok(Value::Object(named_of(alloc, members, names)?)),
        other => Ok(other.clone()?),
    }
}

/// Returns the members whose keys are among these names.
fn named_of(
    alloc: Global,
    members: &Map<String, Value>,
    names: &[Bytes],
) -> Result<Map<String, Value>, NoMemory>
    ensures { IfOk result (λ kept. members_view kept.entries ≡ each_member (account_if (is_in names.now)) (members_view members.now.entries)) }
{
    let mut kept = Map::new(alloc);
    for (key, member) in members.iter() {
        if is_in(names, key.as_str().as_bytes()) {
            put(&mut kept, alloc, key.as_str(), member.clone()?)?;
        }
    }
    Ok(kept)
}

/// Returns whether a name is among these.
fn is_in(names: &[Bytes], name: &[u8]) -> bool
    ensures { result ≡ is_in names.now name.now }
{
    names.iter().any(|other| name == other.as_slice())
}
