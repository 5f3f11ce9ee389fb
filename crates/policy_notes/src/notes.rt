ghost use Rattle.std.specs.Prelude.{◌≡◌, ◌++◌, IfOk, [], map, string_bytes};
ghost use Rattle.std.specs.Option.{option_copied, option_map, option_and_then};
ghost use Rattle.policy_notes.specs.positions.Repeats.{repeated};
ghost use Rattle.policy_notes.specs.Notes.{key_of, warning, warnings_of, AreNotes, IsNone, IsNotesOfJson};
ghost use Rattle.policy_notes.specs.Places.{told_fault, twin_words};
ghost use Rattle.policy_notes.specs.Twins.{twin_path};

use crate::place::{path_of, place_text, place_words, quoted, to_words};
use crate::positions::{Repeat, Spot, place_at, repeats_of, spots_of};
use crate::twin::twin_path;
use base::NoMemory;
use policy_text::reload::ReloadFault;
use policy_walk::ConfigFault;
use serde_json::Value;
use std::alloc::Global;
use std::str;

/// How many keys that stand twice are told.
const MOST_REPEATS: usize = 100;

/// What an operator is told of a policy's text.
#[derive(Debug, Drop)]
pub struct Notes {
    /// Where its fault stands, where that is known: a line and a column, from 1, and what stands there or what is wrong.
    pub place: Option<String>,
    /// A text for each key that stands in one object again, 100 at most.
    pub warnings: Vec<String>,
}

impl Notes {
    fn none(alloc: Global) -> Notes
        ensures { IsNone result }
    {
        Notes {
            place: None,
            warnings: Vec::new(alloc),
        }
    }
}

/// Returns what an operator is told of a policy's text, whose first fault is given, if it has one. `NoMemory` where memory
/// could not be had.
pub fn notes_of(alloc: Global, text: &[u8], fault: Option<&ReloadFault>) -> Result<Notes, NoMemory>
    ensures { IfOk result (AreNotes text.now (option_copied fault.entry)) }
{
    match fault {
        Some(ReloadFault::Config(ConfigFault::TooLarge)) => Ok(Notes::none(alloc)),
        Some(ReloadFault::Config(ConfigFault::NotJson)) => notes_of_no_json(alloc, text),
        _ => match str::from_utf8(text) {
            Ok(text) => notes_of_json(alloc, text, fault),
            Err(_) => Ok(Notes::none(alloc)),
        },
    }
}

/// Returns what is told of a text that is no JSON: what `serde_json` says of it, with the place.
fn notes_of_no_json(alloc: Global, text: &[u8]) -> Result<Notes, NoMemory>
    ensures { IfOk result (λ notes. notes.warnings.items ≡ []) }
{
    let mut notes = Notes::none(alloc);
    if let Err(error) = Value::from_slice(alloc, text) {
        if error.is_memory() {
            return Err(NoMemory);
        }
        notes.place = Some(format!(in alloc; "{error}")?);
    }
    Ok(notes)
}

/// Returns what is told of a JSON text.
fn notes_of_json(alloc: Global, text: &str, fault: Option<&ReloadFault>) -> Result<Notes, NoMemory>
    ensures { IfOk result (IsNotesOfJson text.now (option_copied fault.entry)) }
{
    let spots = spots_of(alloc, text)?;
    let warnings = warnings_of(alloc, text, spots.as_slice())?;
    let place = place_if(alloc, text, spots.as_slice(), fault)?;
    Ok(Notes { place, warnings })
}

/// Returns where a fault stands, if there is one and it has a place.
fn place_if(
    alloc: Global,
    text: &str,
    spots: &[Spot],
    fault: Option<&ReloadFault>,
) -> Result<Option<String>, NoMemory>
    ensures { IfOk result (λ place. option_map string_bytes place ≡ option_and_then (told_fault text.now spots.now) (option_copied fault.entry)) }
{
    match fault {
        None => Ok(None),
        Some(fault) => match path_of(alloc, fault)? {
            None => Ok(None),
            Some(named) => {
                let place = place_text(alloc, text, spots, &named)?;
                Ok(Some(with_twin(alloc, text, spots, fault, place)?))
            }
        },
    }
}

/// Returns the place of a fault, and behind it that of the first user of the name, if another has it already.
fn with_twin(
    alloc: Global,
    text: &str,
    spots: &[Spot],
    fault: &ReloadFault,
    place: String,
) -> Result<String, NoMemory>
    ensures { IfOk result (λ words. string_bytes words ≡ string_bytes place ++ twin_words text.now spots.now (twin_path text.now fault.now)) }
{
    match twin_path(alloc, text, fault)? {
        None => Ok(place),
        Some(path) => {
            let twin = place_words(alloc, text, spots, &path)?;
            let words = with(place, " and at ", twin.as_str())?;
            Ok(words)
        }
    }
}

/// Returns a text for each key that stands in one object again, 100 at most.
fn warnings_of(alloc: Global, text: &str, spots: &[Spot]) -> Result<Vec<String>, NoMemory>
    ensures { IfOk result (λ warnings. map string_bytes warnings.items ≡ warnings_of text.now spots.now) }
{
    let repeats = repeats_of(alloc, spots)?;
    let most = repeats.len().min(MOST_REPEATS);
    let warnings = warnings_on(alloc, text.as_bytes(), &repeats.as_slice()[..most])?;
    Ok(warnings)
}

/// Returns a text for each of these keys.
fn warnings_on(alloc: Global, text: &[u8], repeats: &[Repeat<'_>]) -> Result<Vec<String>, NoMemory>
    ensures { IfOk result (λ warnings. map string_bytes warnings.items ≡ map (λ r. warning text.now (repeated r)) repeats.now) }
{
    let mut warnings = Vec::new(alloc);
    for repeat in repeats {
        warnings.push(warning_of(alloc, text, repeat)?)?;
    }
    Ok(warnings)
}

/// Returns the text that tells of a key that stands in one object again.
fn warning_of(alloc: Global, text: &[u8], repeat: &Repeat<'_>) -> Result<String, NoMemory>
    ensures { IfOk result (λ words. string_bytes words ≡ warning text.now (repeated repeat.now)) }
{
    let key = quoted(alloc, key_of(repeat.name))?;
    let first = to_words(alloc, place_at(text, repeat.first))?;
    let again = to_words(alloc, place_at(text, repeat.again))?;
    let words = with(String::new(alloc), "the key ", key.as_str())?;
    let words = with(words, " stands twice in one object, at ", first.as_str())?;
    let mut words = with(words, " and at ", again.as_str())?;
    words.push_str(": the last counts")?;
    Ok(words)
}

/// Returns a text with two more behind it.
fn with(words: String, lead: &str, more: &str) -> Result<String, NoMemory>
    ensures { IfOk result (λ all. string_bytes all ≡ (string_bytes words ++ lead.now) ++ more.now) }
{
    let mut all = words;
    all.push_str(lead)?;
    all.push_str(more)?;
    Ok(all)
}

/// Returns the key of a part of a path.
fn key_of(name: &str) -> &str
    ensures { result.now ≡ key_of name.now }
{
    match name.strip_prefix("/") {
        None => name,
        Some(key) => key,
    }
}
