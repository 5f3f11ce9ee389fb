//! The first subject that two accounts' mappings send on otherwise.
use crate::shares::{Share, are_same, shares_of};
use account_mappings::AccountMap;
use base::{Alike, NoMemory};
use pattern_sets::{Cover, Length, Reason, fresh_prefix, most_tokens, numbered_sample, part_of};
use std::alloc::Global;
use subjects::texts::{pattern_if, subject_if};
use subjects::{Pattern, Subject, is_star, is_tail};

/// The mappings of an account, with an index of their sources.
#[derive(Drop)]
struct Sources<'a> {
    maps: &'a [AccountMap],
    index: Cover<'a>,
    /// The sources, and `>` behind them.
    all: Vec<Source<'a>>,
}

/// A source, and what it is asked with.
#[derive(Clone, Copy)]
struct Source<'a> {
    pattern: &'a Pattern,
    is_literal: bool,
    /// Whether the other policy has it with the same destinations.
    is_common: bool,
}

/// The mappings of an account under two policies, and how samples are made.
#[derive(Clone, Copy)]
struct TwoMaps<'a, 'b> {
    old: &'b Sources<'a>,
    new: &'b Sources<'a>,
    prefix: &'b [u8],
    any: &'b Pattern,
}

/// A subject that two policies' mappings of an account send on otherwise, and where each sends it.
#[derive(Drop)]
pub struct MappingChange {
    pub subject: Vec<u8>,
    pub old: Vec<Share>,
    pub new: Vec<Share>,
}

/// Returns a subject with the fewest tokens that the new mappings of an account send on otherwise than the old, if
/// there is one. Both are in the order of their sources' bytes. `NoMemory` where memory could not be had.
pub fn mapping_change<'a>(
    alloc: Global,
    old: &'a [AccountMap],
    new: &'a [AccountMap],
) -> Result<Option<MappingChange>, NoMemory> {
    let any = any_pattern(alloc)?;
    let was = sources_of(alloc, old, new, &any)?;
    let now = sources_of(alloc, new, old, &any)?;
    let (prefix, most) = sampling_of(alloc, &was, &now)?;
    let maps = TwoMaps {
        old: &was,
        new: &now,
        prefix: prefix.as_slice(),
        any: &any,
    };
    match first_of(alloc, maps, most)? {
        None => Ok(None),
        Some(subject) => Ok(Some(change_of(alloc, maps, &subject)?)),
    }
}

/// Returns the pattern `>`.
fn any_pattern(alloc: Global) -> Result<Pattern, NoMemory> {
    match Pattern::parse(alloc, b">") {
        Ok(any) => Ok(any),
        Err(_) => Err(NoMemory),
    }
}

/// Returns with what the tokens of samples begin, and how many tokens are asked about at most.
fn sampling_of<'a>(
    alloc: Global,
    old: &Sources<'a>,
    new: &Sources<'a>,
) -> Result<(Vec<u8>, usize), NoMemory> {
    let mut templates = Vec::new(alloc);
    add_templates(alloc, &mut templates, old.maps)?;
    add_templates(alloc, &mut templates, new.maps)?;
    let mut patterns = Vec::new(alloc);
    add_patterns(&mut patterns, old.all.as_slice())?;
    add_patterns(&mut patterns, new.all.as_slice())?;
    let most = most_tokens(patterns.as_slice());
    for template in templates.as_slice() {
        patterns.push(template)?;
    }
    let prefix = fresh_prefix(alloc, patterns.as_slice())?;
    Ok((prefix, most))
}

/// Returns that a subject is sent on otherwise.
fn change_of(
    alloc: Global,
    maps: TwoMaps<'_, '_>,
    subject: &Subject,
) -> Result<MappingChange, NoMemory> {
    Ok(MappingChange {
        subject: Vec::from_slice(alloc, subject.bytes())?,
        old: shares_of(alloc, map_of(alloc, maps.old, subject, maps.any)?, subject)?,
        new: shares_of(alloc, map_of(alloc, maps.new, subject, maps.any)?, subject)?,
    })
}

/// Returns the sources of mappings, each with whether the other mappings have it too, and `>` behind them.
fn sources_of<'a>(
    alloc: Global,
    maps: &'a [AccountMap],
    others: &[AccountMap],
    any: &'a Pattern,
) -> Result<Sources<'a>, NoMemory> {
    let mut all = Vec::new(alloc);
    let mut reasons = Vec::new(alloc);
    for map in maps {
        let pattern = map.source();
        all.push(Source {
            pattern,
            is_literal: is_literal(pattern),
            is_common: has(others, map),
        })?;
        reasons.push(Reason {
            subject: pattern,
            queue: any,
        })?;
    }
    all.push(Source {
        pattern: any,
        is_literal: false,
        is_common: true,
    })?;
    Ok(Sources {
        maps,
        index: Cover::of(alloc, reasons)?,
        all,
    })
}

/// Whether mappings, in the order of their sources' bytes, have this one.
fn has(maps: &[AccountMap], map: &AccountMap) -> bool {
    match maps.binary_search_by(|other| other.source().bytes().cmp(map.source().bytes())) {
        Err(_) => false,
        Ok(at) => match maps.get(at) {
            None => false,
            Some(other) => other.is_like(map),
        },
    }
}

/// Whether a pattern has no wildcard.
fn is_literal(pattern: &Pattern) -> bool {
    let mut tokens = pattern.tokens();
    while let Some(token) = tokens.next_piece() {
        if is_star(token) || is_tail(token) {
            return false;
        }
    }
    true
}

/// Appends the patterns of sources.
fn add_patterns<'b>(
    patterns: &mut Vec<&'b Pattern>,
    sources: &[Source<'b>],
) -> Result<(), NoMemory> {
    for source in sources {
        patterns.push(source.pattern)?;
    }
    Ok(())
}

/// Appends the templates of mappings, as far as they are patterns.
fn add_templates(
    alloc: Global,
    templates: &mut Vec<Pattern>,
    maps: &[AccountMap],
) -> Result<(), NoMemory> {
    for map in maps {
        for destination in map.destinations() {
            if let Some(template) = pattern_if(alloc, destination.text())? {
                templates.push(template)?;
            }
        }
    }
    Ok(())
}

/// Returns the sample with the fewest tokens that two policies send on otherwise.
fn first_of(
    alloc: Global,
    maps: TwoMaps<'_, '_>,
    most: usize,
) -> Result<Option<Subject>, NoMemory> {
    for before in 0..most {
        let length = Length {
            tokens: before + 1,
            has_tail: false,
        };
        for one in maps.old.all.as_slice() {
            if let Some(found) = first_with(alloc, maps, one, length)? {
                return Ok(Some(found));
            }
        }
        if let Some(found) = first_literal(alloc, maps, length)? {
            return Ok(Some(found));
        }
    }
    Ok(None)
}

/// Returns the first sample of a length that an old source has with a new one. What is literal is asked once.
fn first_with(
    alloc: Global,
    maps: TwoMaps<'_, '_>,
    one: &Source<'_>,
    length: Length,
) -> Result<Option<Subject>, NoMemory> {
    let Some(part) = part_of(alloc, one.pattern, length)? else {
        return Ok(None);
    };
    if one.is_literal {
        return asked(alloc, maps, part.as_slice(), part.as_slice());
    }
    for other in maps.new.all.as_slice() {
        if !other.is_literal && !(one.is_common && other.is_common) {
            if let Some(others) = part_of(alloc, other.pattern, length)? {
                let found = asked(alloc, maps, part.as_slice(), others.as_slice())?;
                if found.is_some() {
                    return Ok(found);
                }
            }
        }
    }
    Ok(None)
}

/// Returns the first of the new literal sources of a length that is sent on otherwise.
fn first_literal(
    alloc: Global,
    maps: TwoMaps<'_, '_>,
    length: Length,
) -> Result<Option<Subject>, NoMemory> {
    for other in maps.new.all.as_slice() {
        if other.is_literal && !other.is_common {
            if let Some(part) = part_of(alloc, other.pattern, length)? {
                let found = asked(alloc, maps, part.as_slice(), part.as_slice())?;
                if found.is_some() {
                    return Ok(found);
                }
            }
        }
    }
    Ok(None)
}

/// Returns the sample of two parts, if it is sent on otherwise.
fn asked(
    alloc: Global,
    maps: TwoMaps<'_, '_>,
    one: &[&[u8]],
    other: &[&[u8]],
) -> Result<Option<Subject>, NoMemory> {
    let Some(text) = numbered_sample(alloc, one, other, maps.prefix)? else {
        return Ok(None);
    };
    let Some(subject) = subject_if(alloc, text.as_slice())? else {
        return Ok(None);
    };
    let old = shares_of(
        alloc,
        map_of(alloc, maps.old, &subject, maps.any)?,
        &subject,
    )?;
    let new = shares_of(
        alloc,
        map_of(alloc, maps.new, &subject, maps.any)?,
        &subject,
    )?;
    if are_same(old.as_slice(), new.as_slice()) {
        Ok(None)
    } else {
        Ok(Some(subject))
    }
}

/// Returns the mapping that decides where a subject is sent on, if one does.
fn map_of<'a>(
    alloc: Global,
    sources: &Sources<'a>,
    subject: &Subject,
    any: &Pattern,
) -> Result<Option<&'a AccountMap>, NoMemory> {
    let Some(pattern) = pattern_if(alloc, subject.bytes())? else {
        return Ok(None);
    };
    let reason = Reason {
        subject: &pattern,
        queue: any,
    };
    match sources.index.first(&reason) {
        None => Ok(None),
        Some(at) => if is_route(subject) {
            Ok(None)
        } else {
            Ok(sources.maps.get(at))
        },
    }
}

/// Whether a subject begins with the token `_R_`, which no mapping takes.
fn is_route(subject: &Subject) -> bool {
    let mut tokens = subject.tokens();
    match tokens.next_piece() {
        None => false,
        Some(token) => token == b"_R_".as_slice(),
    }
}
