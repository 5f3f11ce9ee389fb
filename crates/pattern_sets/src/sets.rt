//! What one set of subjects has and another hasn't.
ghost use Rattle.std.specs.Prelude.{◌≡◌, ◌++◌, ◌∷◌, [], false, length, map, true, IfOk};
ghost use Rattle.std.specs.List.{list_any};
ghost use Rattle.std.specs.Option.{option_map};
ghost use Rattle.subjects.specs.Subject.{in_set, is_literal, is_subject, tokens_of};
ghost use Rattle.pattern_sets.specs.Judging.{HasNone, IsDifference};
ghost use Rattle.pattern_sets.specs.Laws.{has_token};
ghost use Rattle.pattern_sets.specs.Longest.{most_tokens};
ghost use Rattle.pattern_sets.specs.Sets.{IsSearch};

use crate::fresh::fresh_token;
use crate::search::{Allowing, Asked, Judges, Reason, Search};
use base::NoMemory;
use std::alloc::Global;
use subjects::{Pattern, Subject, SubjectRef};

/// The subjects of some patterns, but for those of others.
#[derive(Clone, Copy, Debug)]
pub struct PatternSet<'a> {
    pub patterns: &'a [&'a Pattern],
    pub less: &'a [&'a Pattern],
}

impl<'a> PatternSet<'a> {
    ghost use Rattle.std.specs.Prelude.{◌≡◌};
    ghost use Rattle.subjects.specs.Subject.{tokens_of};
    ghost use Rattle.pattern_sets.specs.Judging.{is_member};

    /// Whether the subject with this text is one of the set's.
    fn has(&self, text: &[u8]) -> bool
        ensures { result ≡ is_member (λ p. p.now) self.now.patterns.now self.now.less.now (tokens_of text.now) }
    {
        have(self.patterns, text) && !have(self.less, text)
    }
}

/// Two sets, as judges of subjects.
#[derive(Clone, Copy, Debug)]
struct Both<'a> {
    set: PatternSet<'a>,
    other: PatternSet<'a>,
}

impl<'a> Judges for Both<'a> {
    ghost use Rattle.std.specs.Prelude.{◌&&◌};
    ghost use Rattle.subjects.specs.Subject.{is_subject};
    ghost use Rattle.pattern_sets.specs.Judging.{is_between};

    ghost differs = { λ both asked queue. is_subject asked && is_between (λ p. p.now) both.set.patterns.now both.set.less.now both.other.patterns.now both.other.less.now asked };

    fn differ(
        &self,
        _alloc: Global,
        text: &[u8],
        _queue: Option<&Subject>,
    ) -> Result<bool, NoMemory> {
        Ok(is_subject(text) && self.are_parted_by(text))
    }
}

impl<'a> Both<'a> {
    ghost use Rattle.std.specs.Prelude.{◌≡◌};
    ghost use Rattle.subjects.specs.Subject.{tokens_of};
    ghost use Rattle.pattern_sets.specs.Judging.{is_between};

    /// Whether the one set has the subject with this text, and the other hasn't.
    fn are_parted_by(&self, text: &[u8]) -> bool
        ensures { result ≡ is_between (λ p. p.now) self.now.set.patterns.now self.now.set.less.now self.now.other.patterns.now self.now.other.less.now (tokens_of text.now) }
    {
        self.set.has(text) && !self.other.has(text)
    }
}

/// Whether a text is a subject.
fn is_subject(text: &[u8]) -> bool
    ensures { result ≡ is_subject (tokens_of text.now) }
{
    let subject = SubjectRef::of(text);
    subject.is_some()
}

/// Returns the text of a subject that a set has and another hasn't, one with the fewest tokens. `None` exactly where
/// the other has every subject of the set. `NoMemory` where memory could not be had.
pub fn difference(
    alloc: Global,
    set: PatternSet<'_>,
    other: PatternSet<'_>,
) -> Result<Option<Vec<u8>>, NoMemory>
    ensures { IfOk result (λ found. IsDifference (λ p. p.now) set.entry.patterns.now set.entry.less.now other.entry.patterns.now other.entry.less.now (option_map (λ text. text.items) found)) }
{
    let all = all_of(alloc, set, other)?;
    let any = any_pattern(alloc)?;
    let patterns = all.as_slice();
    let token = fresh_token(alloc, patterns)?;
    let fresh = token.as_slice();
    let search = search_of(alloc, (set, other), patterns, fresh, &any)?;
    let found = search.first(alloc, false, &Both { set, other })?;
    let text = text_of(found);
    Ok(text)
}

/// Returns the search for what the first set has and the second hasn't, with all their patterns, a token that none has
/// and the pattern `>`.
fn search_of<'a>(
    alloc: Global,
    sets: (PatternSet<'a>, PatternSet<'a>),
    all: &[&Pattern],
    token: &'a [u8],
    any: &'a Pattern,
) -> Result<Search<'a>, NoMemory>
    requires whole { all.now ≡ sets.0.patterns.now ++ sets.0.less.now ++ sets.1.patterns.now ++ sets.1.less.now }
    requires literal { is_literal token.now ≡ true }
    requires fresh { list_any (λ p. has_token token.now p.now) all.now ≡ false }
    requires any { any.now ≡ (62 ∷ []) ∷ [] }
    ensures { IfOk result (IsSearch (λ p. p.now) sets.entry.0.patterns.now sets.entry.0.less.now sets.entry.1.patterns.now sets.entry.1.less.now) }
{
    let reach = sets.1.less.len() + 1;
    let allowing = allowing_of(alloc, sets.0.patterns, any, reach)?;
    let refusing = refusing_of(alloc, sets.1.less, any)?;
    let most = most_tokens(all);
    let search = Search {
        allowing,
        refusing,
        token,
        most,
        most_of_queues: None,
    };
    Ok(search)
}

/// Returns the patterns of two sets.
fn all_of<'a>(
    alloc: Global,
    set: PatternSet<'a>,
    other: PatternSet<'a>,
) -> Result<Vec<&'a Pattern>, NoMemory>
    ensures { IfOk result (λ all. all.items ≡ set.entry.patterns.now ++ set.entry.less.now ++ other.entry.patterns.now ++ other.entry.less.now) }
{
    let mut all = Vec::from_slice(alloc, set.patterns)?;
    all.extend_from_slice(set.less)?;
    all.extend_from_slice(other.patterns)?;
    all.extend_from_slice(other.less)?;
    Ok(all)
}

/// Returns the pattern `>`.
fn any_pattern(alloc: Global) -> Result<Pattern, NoMemory>
    ensures { IfOk result (λ any. any ≡ (62 ∷ []) ∷ []) }
{
    match Pattern::parse(alloc, b">") {
        Ok(any) => Ok(any),
        Err(_) => Err(NoMemory),
    }
}

/// Returns the text of what was found, if something was.
fn text_of(found: Option<Asked>) -> Option<Vec<u8>>
    ensures { option_map (λ text. text.items) result ≡ option_map (λ asked. asked.subject.items) found }
{
    match found {
        None => None,
        Some(Asked { subject, queue: _ }) => Some(subject),
    }
}

/// Whether a set has no subject. `NoMemory` where memory could not be had.
pub fn is_empty(alloc: Global, set: PatternSet<'_>) -> Result<bool, NoMemory>
    ensures { IfOk result (HasNone (λ p. p.now) set.entry.patterns.now set.entry.less.now [] []) }
{
    let is_empty = is_within(
        alloc,
        set,
        PatternSet {
            patterns: &[],
            less: &[],
        },
    )?;
    Ok(is_empty)
}

/// Whether another set has every subject of a set. `NoMemory` where memory could not be had.
pub fn is_within(
    alloc: Global,
    set: PatternSet<'_>,
    other: PatternSet<'_>,
) -> Result<bool, NoMemory>
    ensures { IfOk result (HasNone (λ p. p.now) set.entry.patterns.now set.entry.less.now other.entry.patterns.now other.entry.less.now) }
{
    let found = difference(alloc, set, other)?;
    Ok(found.is_none())
}

/// Whether the subject with this text is one of some pattern's.
fn have(patterns: &[&Pattern], text: &[u8]) -> bool
    ensures { result ≡ list_any (λ p. in_set p.now (tokens_of text.now)) patterns.now }
{
    patterns.iter().any(|pattern| pattern.matches_text(text))
}

/// How many tokens are enough to be asked about: one more than the longest pattern has, and 512 at most.
pub fn most_tokens(patterns: &[&Pattern]) -> usize
    ensures { result ≡ most_tokens (map (λ p. p.now) patterns.now) }
{
    let mut most = 0;
    for pattern in patterns {
        most = most.max(count_tokens(pattern));
    }
    most.saturating_add(1).min(512)
}

fn count_tokens(pattern: &Pattern) -> usize
    ensures { result ≡ length pattern.now }
{
    let mut count: usize = 0;
    let mut rest = pattern.tokens();
    while let Some(token) = rest.next_piece() {
        let _ = token;
        count += 1;
    }
    count
}

fn allowing_of<'a>(
    alloc: Global,
    patterns: &[&'a Pattern],
    any: &'a Pattern,
    reach: usize,
) -> Result<Vec<Allowing<'a>>, NoMemory>
    ensures subjects { IfOk result (λ all. map (λ a. a.reason.subject.now) all.items ≡ map (λ p. p.now) patterns.now) }
    ensures reach { IfOk result (λ all. map (λ a. a.reach) all.items ≡ map (λ p. reach) patterns.now) }
{
    let mut all = Vec::with_capacity(alloc, patterns.len())?;
    for subject in patterns {
        let reason = Reason {
            subject,
            queue: any,
        };
        all.push(Allowing { reason, reach })?;
    }
    Ok(all)
}

fn refusing_of<'a>(
    alloc: Global,
    patterns: &[&'a Pattern],
    any: &'a Pattern,
) -> Result<Vec<Reason<'a>>, NoMemory>
    ensures { IfOk result (λ all. map (λ r. r.subject.now) all.items ≡ map (λ p. p.now) patterns.now ++ (any.now ∷ [])) }
{
    let mut all = Vec::with_capacity(alloc, patterns.len())?;
    for subject in patterns {
        all.push(Reason {
            subject,
            queue: any,
        })?;
    }
    all.push(Reason {
        subject: any,
        queue: any,
    })?;
    Ok(all)
}
