//! What an operator is told of each fault of a policy's text.
use crate::document::faults_of_document;
use crate::nearest::nearest_to;
use crate::no_json::oddity_line;
use crate::rows::row_lines;
use crate::words::words_of;
use base::NoMemory;
use json::Writer;
use policy_faults::{Finding, Wanted, faults_of_value};
use policy_notes::positions::{Place, Spot, at_of, place_at, spots_of};
use policy_text::account_config::{MOST_BYTES, read_policy};
use policy_walk::{ConfigFault, Path};
use serde_json::Value;
use std::alloc::Global;
use std::str;

/// How many faults are told.
pub(crate) const MOST_FAULTS: usize = 100;

/// How many bytes the names of a text have at most of which faults are told, counted as if each were as long as the
/// longest: each fault has a path of its own.
const MOST_NAMED: usize = 67_108_864;

/// How many bytes of a value are shown.
const MOST_SHOWN: usize = 60;

/// The keys of all objects of a policy but those under names.
const KEYS: [&str; 29] = [
    "accounts",
    "version",
    "default_permissions",
    "users",
    "exports",
    "imports",
    "mappings",
    "user",
    "password",
    "permissions",
    "publish",
    "subscribe",
    "allow_responses",
    "allow",
    "deny",
    "max",
    "expires",
    "stream",
    "service",
    "account",
    "subject",
    "to",
    "prefix",
    "response_type",
    "response_ttl",
    "destination",
    "weight",
    "pub",
    "sub",
];

/// Returns a line for each fault of a policy's text, 100 at most, in the order in which the first is looked for: its
/// line and place, what is wanted there, and what stands there. If there are more, a last line says how many. A text
/// that is no JSON has one line, if it is known what is wrong. One that is too large has none, nor has one whose names
/// are so many and so long that the paths would take more than some 64 MiB. `NoMemory` where memory could not be had.
pub fn fault_lines(alloc: Global, text: &[u8]) -> Result<Vec<String>, NoMemory> {
    if MOST_BYTES < text.len() {
        return Ok(Vec::new(alloc));
    }
    match str::from_utf8(text) {
        Ok(json) => match Value::from_str(alloc, json) {
            Ok(value) => lines_on(alloc, json, &value),
            Err(error) => {
                if error.is_memory() {
                    return Err(NoMemory);
                }
                one_line(alloc, oddity_line(alloc, text)?)
            }
        },
        Err(_) => one_line(alloc, oddity_line(alloc, text)?),
    }
}

/// Returns the list of a line, if there is one.
fn one_line(alloc: Global, line: Option<String>) -> Result<Vec<String>, NoMemory> {
    let mut lines = Vec::new(alloc);
    if let Some(line) = line {
        lines.push(line)?;
    }
    Ok(lines)
}

/// Returns the lines on the faults of a text that has this value.
fn lines_on(alloc: Global, text: &str, value: &Value) -> Result<Vec<String>, NoMemory> {
    let spots = spots_of(alloc, text)?;
    if is_dear(spots.as_slice()) {
        return Ok(Vec::new(alloc));
    }
    let found = faults_of_value(alloc, value)?;
    if !found.is_empty() {
        return finding_lines(alloc, text, spots.as_slice(), value, found.as_slice());
    }
    match read_policy(alloc, text.as_bytes()) {
        Ok(doc) => {
            let faults = faults_of_document(alloc, &doc)?;
            row_lines(alloc, text, spots.as_slice(), &doc, faults.as_slice())
        }
        // (a value without a fault has a document)
        Err(_) => Err(NoMemory),
    }
}

/// Whether the paths of all places may take too much memory.
fn is_dear(spots: &[Spot]) -> bool {
    let mut longest: usize = 0;
    for spot in spots {
        longest = longest.max(spot.name.as_str().len());
    }
    MOST_NAMED < longest.saturating_mul(spots.len())
}

/// Returns the lines on the faults of a document.
fn finding_lines(
    alloc: Global,
    text: &str,
    spots: &[Spot],
    value: &Value,
    found: &[Finding],
) -> Result<Vec<String>, NoMemory> {
    let mut lines = Vec::new(alloc);
    for finding in found.iter().take(MOST_FAULTS) {
        if let Some(path) = path_of(&finding.fault) {
            let fault = &finding.fault;
            let place = place_under(text, spots, path);
            let what = what_of(alloc, value, finding, path)?;
            lines.push(format!(in alloc; "{fault} at {place}: {what}")?)?;
        }
    }
    push_rest(alloc, found.len(), &mut lines)?;
    Ok(lines)
}

/// Appends a line that says how many more faults there are, if there are.
pub(crate) fn push_rest(
    alloc: Global,
    count: usize,
    lines: &mut Vec<String>,
) -> Result<(), NoMemory> {
    if MOST_FAULTS < count {
        lines.push(format!(in alloc; "and {} more", count - MOST_FAULTS)?)?;
    }
    Ok(())
}

/// Returns the place of what a path names in a text, or of the front of it that names something.
pub(crate) fn place_under(text: &str, spots: &[Spot], path: &Path) -> Place {
    let begin = text
        .as_bytes()
        .iter()
        .take_while(|byte| matches!(**byte, b' ' | b'\t' | b'\n' | b'\r'))
        .count();
    place_at(text.as_bytes(), at_of(spots, path).unwrap_or(begin))
}

/// Returns the path of a fault, if it has one.
fn path_of(fault: &ConfigFault) -> Option<&Path> {
    match fault {
        ConfigFault::TooLarge | ConfigFault::NotJson | ConfigFault::NoMemory => None,
        ConfigFault::UnknownKey(path) => Some(path),
        ConfigFault::WrongType(path) => Some(path),
        ConfigFault::BadSubject(path) => Some(path),
        ConfigFault::BadDuration(path) => Some(path),
        ConfigFault::BadMax(path) => Some(path),
        ConfigFault::BadName(path) => Some(path),
        ConfigFault::HashedPassword(path) => Some(path),
        ConfigFault::BadWeight(path) => Some(path),
        ConfigFault::BadDestination(path) => Some(path),
    }
}

/// Returns what is wrong with what a path names, in words.
fn what_of(
    alloc: Global,
    value: &Value,
    finding: &Finding,
    path: &Path,
) -> Result<String, NoMemory> {
    let key = last_of(path.as_str());
    match finding.wanted {
        Wanted::KnownKey => unknown_key(alloc, key, path.as_str()),
        Wanted::Key => Ok(format!(in alloc; "{key} is missing")?),
        wanted => {
            let words = words_of(wanted);
            let shown = shown_at(alloc, value, wanted, path.as_str(), key)?;
            Ok(format!(in alloc; "expected {words}, found {shown}")?)
        }
    }
}

/// Returns what is wrong with a key that an object may not have.
fn unknown_key(alloc: Global, key: &str, path: &str) -> Result<String, NoMemory> {
    if is_of_version_two(key, path) {
        return Ok(format!(in alloc; "{key} need \"version\": 2")?);
    }
    match nearest_to(alloc, key, &KEYS)? {
        None => Ok(String::from_str(alloc, "no such key here")?),
        Some(known) => Ok(format!(in alloc; "no such key here: is \"{known}\" meant?")?),
    }
}

/// Whether a path is that of a key that the second version alone has. It is no fault there.
fn is_of_version_two(key: &str, path: &str) -> bool {
    let depth = depth_of(path);
    match key {
        "default_permissions" => depth == 1,
        "mappings" => depth == 3,
        _ => false,
    }
}

/// Returns the last part of a path.
fn last_of(path: &str) -> &str {
    match path.rsplit_once('/') {
        None => path,
        Some((_, last)) => last,
    }
}

/// Returns what stands under a path, in words. Of what should be a password only the kind is told; of a name that is
/// a key, the key.
fn shown_at(
    alloc: Global,
    value: &Value,
    wanted: Wanted,
    path: &str,
    key: &str,
) -> Result<String, NoMemory> {
    match value.pointer(path) {
        None => Ok(String::from_str(alloc, "nothing")?),
        Some(found) => match wanted {
            Wanted::Password => Ok(String::from_str(alloc, kind_of(found))?),
            Wanted::Kind => Ok(String::from_str(alloc, kinds_in(found))?),
            Wanted::Spelling => Ok(String::from_str(alloc, "both")?),
            Wanted::Sum => Ok(String::from_str(alloc, "more")?),
            Wanted::AccountName | Wanted::Pattern => shown_or_key(alloc, found, path, key),
            _ => shown(alloc, found),
        },
    }
}

/// Returns which of the keys `stream` and `service` a row has, which hasn't one of them.
fn kinds_in(value: &Value) -> &'static str {
    if value.get("stream").is_some() {
        "both"
    } else {
        "neither"
    }
}

/// Returns the key that a path ends in, if that is the name or pattern: of an account, or a source. Else what stands
/// there.
fn shown_or_key(alloc: Global, value: &Value, path: &str, key: &str) -> Result<String, NoMemory> {
    if depth_of(path) <= 4 {
        return quoted(alloc, key);
    }
    shown(alloc, value)
}

/// Returns how many parts a path has. That of an account has two, that of a source four, and every name or pattern
/// that is a value stands deeper.
fn depth_of(path: &str) -> usize {
    path.as_bytes().iter().filter(|byte| **byte == b'/').count()
}

/// Returns a value in words: a short one as JSON writes it.
fn shown(alloc: Global, value: &Value) -> Result<String, NoMemory> {
    if value.is_object() || value.is_array() {
        return Ok(String::from_str(alloc, kind_of(value))?);
    }
    let text = value.to_string(alloc)?;
    if text.len() > MOST_SHOWN {
        return Ok(format!(in alloc; "{} of {} bytes", kind_of(value), text.len())?);
    }
    Ok(text)
}

/// Returns the kind of a value, in words.
fn kind_of(value: &Value) -> &'static str {
    if value.is_object() {
        "an object"
    } else if value.is_array() {
        "a list"
    } else if value.is_string() {
        "a text"
    } else if value.is_number() {
        "a number"
    } else if value.is_boolean() {
        "true or false"
    } else {
        "null"
    }
}

/// Returns a text as JSON writes it.
pub(crate) fn quoted(alloc: Global, text: &str) -> Result<String, NoMemory> {
    let mut out = Writer::new(Vec::new(alloc));
    out.string(text)?;
    match String::from_utf8(out.into_inner()) {
        Ok(quoted) => Ok(quoted),
        Err(_) => Ok(String::new(alloc)),
    }
}
