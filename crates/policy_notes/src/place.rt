//! The place of a fault.
ghost use Rattle.std.specs.Prelude.{◌≡◌, IfOk, Some, drop, string_bytes};
ghost use Rattle.std.specs.List.{prefix_len};
ghost use Rattle.std.specs.Option.{option_and_then, option_map};
ghost use Rattle.json.specs.Lex.{tokens};
ghost use Rattle.json.specs.Print.{quoted};
ghost use Rattle.serde_json.specs.Find.{as_str, pointer};
ghost use Rattle.serde_json.specs.View.{view};
ghost use Rattle.policy_doc.specs.Faults.{fault_place};
ghost use Rattle.policy_notes.specs.positions.Place.{place_words};
ghost use Rattle.policy_notes.specs.Places.{begin_or, byte_under, first_key, is_account, is_duplicate, is_space, key_at, named_by, named_by_config, named_row, naming, place_under, row_named, shown_if, shown_name, shown_words, text_under, told, told_of, IsToldOf};

use crate::positions::{Place, Spot, at_of, place_at, spots_of};
use base::NoMemory;
use json::{Reader, Scratch, Token, Writer};
use policy_doc::PolicyFault;
use policy_text::reload::ReloadFault;
use policy_walk::{ConfigFault, Path};
use serde_json::Value;
use std::alloc::Global;
use std::str;

/// What is shown of what a path names.
#[derive(Clone, Copy, Debug)]
pub(crate) enum Shown {
    Nothing,
    /// The text that stands there, if one does.
    Text,
    /// The key that stands there.
    Key,
}

/// A fault's path in the text, and what is shown of what it names.
#[derive(Debug, Drop)]
pub(crate) struct Named {
    path: Path,
    shown: Shown,
}

/// Returns the path of a fault, if it has one. A text that is no pattern, duration, name, weight or destination is shown.
pub(crate) fn path_of(alloc: Global, fault: &ReloadFault) -> Result<Option<Named>, NoMemory>
    ensures { IfOk result (λ found. found ≡ named_by fault.now) }
{
    match fault {
        ReloadFault::Config(fault) => path_of_config(alloc, fault),
        ReloadFault::Policy { fault, account } => match str::from_utf8(account.as_slice()) {
            Ok(account) => path_of_row(alloc, *fault, account),
            Err(_) => Ok(None),
        },
    }
}

/// Returns the path of a document's fault, if it has one.
fn path_of_config(alloc: Global, fault: &ConfigFault) -> Result<Option<Named>, NoMemory>
    ensures { IfOk result (λ found. found ≡ named_by_config fault.now) }
{
    match fault {
        ConfigFault::TooLarge | ConfigFault::NotJson | ConfigFault::NoMemory => Ok(None),
        ConfigFault::BadSubject(path) => naming(alloc, path, Shown::Text),
        ConfigFault::BadDuration(path) => naming(alloc, path, Shown::Text),
        ConfigFault::BadName(path) => naming(alloc, path, shown_name(path)),
        ConfigFault::BadWeight(path) => naming(alloc, path, Shown::Text),
        ConfigFault::BadDestination(path) => naming(alloc, path, Shown::Text),
        ConfigFault::UnknownKey(path) => naming(alloc, path, Shown::Nothing),
        ConfigFault::WrongType(path) => naming(alloc, path, Shown::Nothing),
        ConfigFault::BadMax(path) => naming(alloc, path, Shown::Nothing),
        ConfigFault::HashedPassword(path) => naming(alloc, path, Shown::Nothing),
    }
}

/// Returns what is shown of a name: of an account its key, and else the text that stands there.
fn shown_name(path: &Path) -> Shown
    ensures { result ≡ shown_name path.now }
{
    if is_account(path.as_str().as_bytes()) {
        Shown::Key
    } else {
        Shown::Text
    }
}

/// Whether a path is that of an account.
fn is_account(path: &[u8]) -> bool
    ensures { result ≡ is_account path.now }
{
    match path.strip_prefix(b"/accounts/") {
        None => false,
        Some(name) => !name.contains(&b'/'),
    }
}

/// Returns a copy of a path, and what is shown of what it names.
fn naming(alloc: Global, path: &Path, shown: Shown) -> Result<Option<Named>, NoMemory>
    ensures { IfOk result (λ found. found ≡ naming path.now shown) }
{
    let path = path.copy(alloc)?;
    Ok(Some(Named { path, shown }))
}

/// Returns the path of the row of an account that has a policy's fault: of a user that there is already, its name's.
fn path_of_row(alloc: Global, fault: PolicyFault, account: &str) -> Result<Option<Named>, NoMemory>
    ensures { IfOk result (λ found. found ≡ named_row fault account.now (fault_place fault)) }
{
    match fault.place() {
        None => Ok(None),
        Some(place) => Ok(Some(row_named(alloc, fault, account, place.row)?)),
    }
}

/// Returns the path of a row of an account: of a user its name's, or of an import.
fn row_named(
    alloc: Global,
    fault: PolicyFault,
    account: &str,
    row: usize,
) -> Result<Named, NoMemory>
    ensures { IfOk result (λ found. Some found ≡ row_named fault account.now row) }
{
    let rows = Path::whole(alloc)
        .key(alloc, "accounts")?
        .key(alloc, account)?;
    if is_duplicate(fault) {
        let path = rows
            .key(alloc, "users")?
            .index(alloc, row)?
            .key(alloc, "user")?;
        return Ok(Named {
            path,
            shown: Shown::Text,
        });
    }
    let path = rows.key(alloc, "imports")?.index(alloc, row)?;
    Ok(Named {
        path,
        shown: Shown::Nothing,
    })
}

/// Whether a fault is that of a user whose name there is already.
fn is_duplicate(fault: PolicyFault) -> bool
    ensures { result ≡ is_duplicate fault }
{
    matches!(fault, PolicyFault::DuplicateUser(_))
}

/// Returns the place of what a path names in a text, or of the front of it that names something, with the text that stands there
/// or its key, if that is shown.
pub(crate) fn place_text(
    alloc: Global,
    text: &str,
    spots: &[Spot],
    named: &Named,
) -> Result<String, NoMemory>
    ensures { IfOk result (λ told. string_bytes told ≡ told_of text.now spots.now named.now) }
{
    let at = byte_under(text, spots, &named.path);
    let shown = shown_if(alloc, text, named, at)?;
    told(alloc, shown, place_at(text.as_bytes(), at))
}

/// Returns the place of what a path names in a text, or of the front of it that names something, in words.
pub(crate) fn place_words(
    alloc: Global,
    text: &str,
    spots: &[Spot],
    path: &Path,
) -> Result<String, NoMemory>
    ensures { IfOk result (λ words. string_bytes words ≡ place_words (place_under text.now spots.now path.now)) }
{
    to_words(alloc, place_under(text, spots, path))
}

/// Returns the place of what a path names in a text, or of the front of it that names something.
fn place_under(text: &str, spots: &[Spot], path: &Path) -> Place
    ensures { result ≡ place_under text.now spots.now path.now }
{
    place_at(text.as_bytes(), byte_under(text, spots, path))
}

/// Returns where begins what a path names in a text, or the front of it that names something.
fn byte_under(text: &str, spots: &[Spot], path: &Path) -> usize
    ensures { result ≡ byte_under text.now spots.now path.now }
{
    begin_or(text.as_bytes(), at_of(spots, path))
}

/// Returns where what a path names stands in a JSON text, behind the text that it is, if it is one. `NoMemory` where memory could
/// not be had.
pub fn place_of(alloc: Global, text: &str, path: Path) -> Result<String, NoMemory>
    ensures { IfOk result (λ told. IsToldOf text.now path (string_bytes told)) }
{
    let spots = spots_of(alloc, text)?;
    let named = Named {
        path,
        shown: Shown::Text,
    };
    place_text(alloc, text, spots.as_slice(), &named)
}

/// Returns where something stands, or where a JSON text's value begins.
fn begin_or(text: &[u8], at: Option<usize>) -> usize
    ensures { result ≡ begin_or text.now at }
{
    match at {
        None => count_spaces(text),
        Some(at) => at,
    }
}

/// How many spaces a text begins with.
#[tactic(auto, using(crate::proofs::Spaces::within))]
fn count_spaces(text: &[u8]) -> usize
    ensures { result ≡ prefix_len is_space text.now }
{
    text.iter().take_while(|byte| is_space(**byte)).count()
}

/// Whether a byte is a space between the tokens of a JSON text.
fn is_space(byte: u8) -> bool
    ensures { result ≡ is_space byte }
{
    matches!(byte, b' ' | b'\t' | b'\n' | b'\r')
}

/// Returns a place as it is told, behind the text that stands there, if one is shown.
fn told(alloc: Global, shown: Option<String>, place: Place) -> Result<String, NoMemory>
    ensures { IfOk result (λ words. string_bytes words ≡ told (option_map string_bytes shown) place) }
{
    let mut words = shown_words(alloc, shown)?;
    let place = to_words(alloc, place)?;
    words.push_str("at ")?;
    words.push_str(place.as_str())?;
    Ok(words)
}

/// Returns a place in words.
pub(crate) fn to_words(alloc: Global, place: Place) -> Result<String, NoMemory>
    ensures { IfOk result (λ words. string_bytes words ≡ place_words place) }
{
    Ok(format!(in alloc; "{place}")?)
}

/// Returns a text and a space, if there is one.
fn shown_words(alloc: Global, shown: Option<String>) -> Result<String, NoMemory>
    ensures { IfOk result (λ words. string_bytes words ≡ shown_words (option_map string_bytes shown)) }
{
    match shown {
        None => Ok(String::new(alloc)),
        Some(mut shown) => {
            shown.push_str(" ")?;
            Ok(shown)
        }
    }
}

/// Returns what is shown, quoted: the text that stands under a path, or the key that begins at this byte, if there is one.
fn shown_if(alloc: Global, text: &str, named: &Named, at: usize) -> Result<Option<String>, NoMemory>
    ensures { IfOk result (λ shown. option_map string_bytes shown ≡ shown_if named.now.shown text.now named.now.path at) }
{
    match named.shown {
        Shown::Nothing => Ok(None),
        Shown::Text => text_under(alloc, text, named.path.as_str()),
        Shown::Key => key_at(alloc, text, at),
    }
}

/// Returns the key that begins at a byte of a JSON text, quoted, if one does.
fn key_at(alloc: Global, text: &str, at: usize) -> Result<Option<String>, NoMemory>
    ensures { IfOk result (λ shown. option_map string_bytes shown ≡ key_at text.now at) }
{
    match str::from_utf8(rest_of(text.as_bytes(), at)) {
        Ok(rest) => first_key(alloc, rest),
        Err(_) => Ok(None),
    }
}

/// Returns the bytes of a text from this one on.
fn rest_of(text: &[u8], at: usize) -> &[u8]
    ensures { result.now ≡ drop at text.now }
{
    if at < text.len() { &text[at..] } else { &[] }
}

/// Returns the key that a text begins with, quoted, if it begins with one.
fn first_key(alloc: Global, text: &str) -> Result<Option<String>, NoMemory>
    ensures { IfOk result (λ shown. option_map string_bytes shown ≡ option_map quoted (first_key (tokens text.now))) }
{
    let mut scratch = Scratch::new(alloc);
    let mut reader = Reader::new(text, &mut scratch)?;
    match reader.next() {
        Some(Token::Key(key)) => Ok(Some(quoted(alloc, key)?)),
        _ => Ok(None),
    }
}

/// Returns the text that stands under a path, quoted, if one does.
fn text_under(alloc: Global, text: &str, path: &str) -> Result<Option<String>, NoMemory>
    ensures { IfOk result (λ shown. option_map string_bytes shown ≡ text_under text.now path.now) }
{
    let Ok(value) = Value::from_str(alloc, text) else {
        return Err(NoMemory);
    };
    match string_at(&value, path) {
        None => Ok(None),
        Some(found) => Ok(Some(quoted(alloc, found)?)),
    }
}

/// Returns the text that a JSON value has under a path, if one stands there.
fn string_at<'v>(value: &'v Value, path: &str) -> Option<&'v str>
    ensures { option_map (λ found. found.now) result ≡ option_and_then as_str (pointer path.now (view value.now)) }
{
    match value.pointer(path) {
        None => None,
        Some(found) => found.as_str(),
    }
}

/// Returns a text as JSON writes it.
pub(crate) fn quoted(alloc: Global, text: &str) -> Result<String, NoMemory>
    ensures { IfOk result (λ written. string_bytes written ≡ quoted text.now) }
{
    let mut out = Writer::new(Vec::new(alloc));
    out.string(text)?;
    match String::from_utf8(out.into_inner()) {
        Ok(quoted) => Ok(quoted),
        Err(_) => Ok(String::new(alloc)),
    }
}
