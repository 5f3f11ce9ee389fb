//! A policy with its text's places.
use base::NoMemory;
use message_changes::MessageKind;
use permissions::Verdict;
use policy_doc::{Policy, PolicyDoc};
use policy_notes::paths::{entry_path, row_path};
use policy_notes::positions::{Place, Places};
use policy_permissions::Side;
use policy_ready::imports::Rows;
use policy_ready::{CompiledPolicy, User};
use policy_text::reload::{ReloadFault, prepare};
use policy_walk::{ConfigFault, Path};
use serde_json::Value;
use std::alloc::Global;
use std::marker::Model;
use std::str;

/// A policy that was read, made ready, with the places of its text. A clause sees its document.
#[derive(Drop)]
pub struct PolicyFile {
    ready: CompiledPolicy,
    value: Value,
    places: Places,
}

impl Model for PolicyFile {
    ghost use Rattle.std.specs.Prelude.{⊤};
    ghost use Rattle.policy_doc.specs.declared.document.PolicyDoc.{PolicyDoc};

    ghost Value = { PolicyDoc };

    ghost view = { λ f. f.ready };

    ghost invariant = { λ f. ⊤ };
}

impl PolicyFile {
    ghost use Rattle.std.specs.Prelude.{◌≡◌, Ok, IfOk};
    ghost use Rattle.policy_doc.specs.Document.{IsValidPolicy};
    ghost use Rattle.policy_ready.specs.Users.{users_of};
    ghost use Rattle.policy_text.specs.reload.Reload.{prepared};

    /// Returns the policy of a text, or the text's first fault.
    pub fn of(alloc: Global, text: &[u8]) -> Result<PolicyFile, ReloadFault>
        ensures { IfOk result (λ file. prepared text.now ≡ Ok file) }
    {
        let ready = prepare(alloc, text)?;
        match placed(alloc, text) {
            Ok((value, places)) => Ok(PolicyFile {
                ready,
                value,
                places,
            }),
            Err(_) => Err(ReloadFault::Config(ConfigFault::NoMemory)),
        }
    }

    /// Returns the document.
    pub(crate) fn doc(&self) -> &PolicyDoc
        ensures same { result.now ≡ self.now }
        ensures valid { IsValidPolicy self.now }
    {
        self.policy().doc()
    }

    /// Returns the policy.
    pub(crate) fn policy(&self) -> &Policy
        ensures { result.now ≡ self.now }
    {
        self.ready.policy()
    }

    /// Returns the users, account by account.
    pub(crate) fn users(&self) -> &[User]
        ensures { result.now ≡ users_of self.now }
    {
        self.ready.users()
    }

    /// Returns the import rows.
    pub(crate) fn rows(&self) -> &Rows {
        self.ready.rows()
    }

    /// Returns where the entry stands that a verdict names, on a user who is this one of an account's, if it names
    /// one.
    pub(crate) fn place_of_entry(
        &self,
        alloc: Global,
        account: &[u8],
        row: usize,
        kind: MessageKind,
        verdict: Verdict,
    ) -> Result<Option<Place>, NoMemory> {
        let Some(user) = path_of(alloc, account, "users", row)? else {
            return Ok(None);
        };
        let path = entry_path(alloc, &self.value, &user, side_of(kind), verdict)?;
        Ok(path.and_then(|path| self.places.place_of(&path)))
    }

    /// Returns where the import stands that is this one of an account's.
    pub(crate) fn place_of_import(
        &self,
        alloc: Global,
        account: &[u8],
        row: usize,
    ) -> Result<Option<Place>, NoMemory> {
        let path = path_of(alloc, account, "imports", row)?;
        Ok(path.and_then(|path| self.places.place_of(&path)))
    }
}

/// Returns the JSON value of a policy's text, and its places.
fn placed(alloc: Global, text: &[u8]) -> Result<(Value, Places), NoMemory> {
    // (what isn't JSON is no policy)
    let Ok(text) = str::from_utf8(text) else {
        return Err(NoMemory);
    };
    let Ok(value) = Value::from_str(alloc, text) else {
        return Err(NoMemory);
    };
    let places = Places::of(alloc, text)?;
    Ok((value, places))
}

/// Returns the path of a row of a list of an account, if the account's name is text.
fn path_of(
    alloc: Global,
    account: &[u8],
    list: &str,
    row: usize,
) -> Result<Option<Path>, NoMemory> {
    match str::from_utf8(account) {
        Err(_) => Ok(None),
        Ok(account) => Ok(Some(row_path(alloc, account, list, row)?)),
    }
}

/// Returns the direction whose lists decide a question.
fn side_of(kind: MessageKind) -> Side {
    match kind {
        MessageKind::Publish => Side::Publish,
        _ => Side::Subscribe,
    }
}
