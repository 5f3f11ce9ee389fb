//! The place of the entry that decides.
ghost use Rattle.std.specs.Prelude.{◌≡◌, IfOk, string_bytes};
ghost use Rattle.serde_json.specs.View.{view};
ghost use Rattle.explain.specs.places.Place.{deciding_path, entry_asked, side_of, IsDecidingPlace};

use crate::places::verdict::verdict_on;
use base::NoMemory;
use command_line::{Question, QuestionKind};
use policy_doc::Policy;
use policy_notes::paths::{entry_path, user_path};
use policy_notes::place_of;
use policy_permissions::Side;
use policy_walk::Path;
use serde_json::Value;
use std::alloc::Global;

/// Returns where in a policy's text the entry stands that decides a question, behind the entry's text. There is none where no
/// entry decides, or the question has no verdict. `NoMemory` where memory could not be had.
#[tactic(auto, using(crate::proofs::places::Leading::nowhere, crate::proofs::places::Leading::somewhere))]
pub fn deciding_place(
    alloc: Global,
    text: &str,
    policy: &Policy,
    question: &Question,
) -> Result<Option<String>, NoMemory>
    ensures { IfOk result (IsDecidingPlace text.now policy.now question.now) }
{
    match deciding_path(alloc, text, policy, question)? {
        None => Ok(None),
        Some(path) => Ok(Some(place_of(alloc, text, path)?)),
    }
}

/// Returns the path of the entry that decides a question, in the text, which is read once more. `None` where no user has the name or no
/// entry decides. `NoMemory` also of a text that isn't JSON, which that of a policy never is.
fn deciding_path(
    alloc: Global,
    text: &str,
    policy: &Policy,
    question: &Question,
) -> Result<Option<Path>, NoMemory>
    ensures { IfOk result (λ path. path ≡ deciding_path text.now policy.now question.now) }
{
    let Ok(value) = Value::from_str(alloc, text) else {
        return Err(NoMemory);
    };
    match user_path(alloc, policy.doc(), question.who.as_bytes())? {
        None => Ok(None),
        Some(user) => entry_asked(alloc, &value, &user, policy, question),
    }
}

/// Returns the path of the entry that decides a question, by that of the user whom it asks of.
fn entry_asked(
    alloc: Global,
    value: &Value,
    user: &Path,
    policy: &Policy,
    question: &Question,
) -> Result<Option<Path>, NoMemory>
    ensures { IfOk result (λ path. path ≡ entry_asked (view value.now) user.now policy.now question.now) }
{
    match verdict_on(alloc, policy, question)? {
        None => Ok(None),
        Some(verdict) => {
            let path = entry_path(alloc, value, user, side_of(question.kind), verdict)?;
            Ok(path)
        }
    }
}

/// Returns the direction whose lists decide a question of this kind.
fn side_of(kind: QuestionKind) -> Side
    ensures { result ≡ side_of kind }
{
    match kind {
        QuestionKind::Publish => Side::Publish,
        QuestionKind::Subscribe | QuestionKind::Delivery | QuestionKind::Path => Side::Subscribe,
    }
}
