ghost use Rattle.std.specs.Prelude.{◌≡◌, ◌<◌, ◌≤◌, ℕ, Bool, length, map, IfOk};
ghost use Rattle.subjects.specs.Subject.{tokens_of};
ghost use Rattle.subjects.specs.pattern_groups.Links.{AreLinks, IsLeast, IsLeastBelow};
ghost use Rattle.subjects.specs.pattern_groups.Places.{AreLiteral, AreHashed, PassesByHash};

use crate::Pattern;
use crate::pattern_groups::links::{Links, links_of};
use crate::pattern_groups::patterns::Patterns;
use crate::pattern_groups::places::{Literals, hash_at, hash_of};
use base::NoMemory;
use std::alloc::Global;
use std::marker::Model;

/// A list of patterns, in which the first that has a text is found by the literal tokens of each. A clause sees the hashes of
/// these tokens, and at which places they stand.
///
/// A pattern goes by the tokens before its first wildcard; or by all of its literal tokens, where another pattern of the list has
/// the same tokens before its own. A search computes one hash of the text for each choice of places, and asks the patterns that
/// have it.
#[derive(Debug, Drop)]
pub struct PatternIndex {
    hashes: Vec<u32>,
    // The places of the tokens that these are the hashes of, each choice once.
    choices: Vec<u32>,
    // Where the hashes stand, unless there is only one.
    links: Option<Links>,
}

impl Model for PatternIndex {
    ghost use Rattle.std.specs.Prelude.{IfSome};
    ghost use Rattle.subjects.specs.pattern_groups.Links.{AreLinks};
    ghost use Rattle.subjects.specs.pattern_groups.Places.{Hashed};

    ghost Value = { Hashed };

    ghost view = { λ index. record { hashes = index.hashes.items; choices = index.choices.items } };

    ghost invariant = { λ index. IfSome index.links (λ links. AreLinks index.hashes.items links.first.items links.next.items) };
}

impl PatternIndex {
    ghost use Rattle.std.specs.Prelude.{◌≡◌, ◌≤◌, length, map, IfOk};
    ghost use Rattle.subjects.specs.Subject.{tokens_of};
    ghost use Rattle.subjects.specs.pattern_groups.Links.{IsLeast, IsLeastBelow};
    ghost use Rattle.subjects.specs.pattern_groups.Places.{IsIndexOf, PassesByHash};

    /// Returns the index of a list. `NoMemory` where memory could not be had.
    pub fn of(alloc: Global, patterns: &[&Pattern]) -> Result<PatternIndex, NoMemory>
        ensures { IfOk result (IsIndexOf (map (λ p. p.now) patterns.now)) }
    {
        let leading = leading_hashes(alloc, patterns)?;
        let shared = repeated(alloc, leading.as_slice())?;
        let (hashes, mut choices) = hashed(alloc, patterns, shared.as_slice())?;
        let links = links_of(alloc, hashes.as_slice())?;
        choices.sort_unstable();
        choices.dedup();
        Ok(PatternIndex {
            hashes,
            choices,
            links,
        })
    }

    /// Returns how many searches a question makes.
    pub fn searches(&self) -> usize
        ensures { result ≡ length self.now.choices }
    {
        self.choices.len()
    }

    /// Returns the least index of a pattern that passes. Only those are asked that have one of the text's hashes. It takes no
    /// memory.
    #[inline(always)]
    pub fn least<P: Patterns>(&self, text: &[u8], patterns: &P) -> Option<usize>
        requires count { length self.now.hashes ≤ P.count patterns.now }
        requires hash { PassesByHash (P.passes patterns.now) self.now (tokens_of text.now) }
        ensures { IsLeast (P.passes patterns.now) (length self.now.hashes) result }
    {
        place_below(self.len(), self.least_place(text, patterns))
    }

    /// Returns how many patterns there are.
    #[inline(always)]
    fn len(&self) -> usize
        ensures { result ≡ length self.now.hashes }
    {
        self.hashes.len()
    }

    /// Returns the least index of a pattern that passes, or else how many there are.
    #[inline(always)]
    fn least_place<P: Patterns>(&self, text: &[u8], patterns: &P) -> usize
        requires count { length self.now.hashes ≤ P.count patterns.now }
        requires hash { PassesByHash (P.passes patterns.now) self.now (tokens_of text.now) }
        ensures { IsLeastBelow (P.passes patterns.now) (length self.now.hashes) result }
    {
        let hashes = self.hashes.as_slice();
        match &self.links {
            None => walk(hashes.len(), patterns),
            Some(links) => search(links, hashes, self.choices.as_slice(), text, patterns),
        }
    }
}

/// The place, if it is below the count.
#[inline(always)]
#[tactic(auto, using(crate::proofs::pattern_groups::Search::least_found, crate::proofs::pattern_groups::Search::none_found))]
fn place_below(count: usize, place: usize) -> Option<usize>
    ensures { (passes : ℕ → Bool) → IsLeastBelow passes count place → IsLeast passes count result }
{
    if place < count { Some(place) } else { None }
}

/// The least of so many patterns that passes, or else their count.
fn walk<P: Patterns>(count: usize, patterns: &P) -> usize
    requires { count ≤ P.count patterns.now }
    ensures { IsLeastBelow (P.passes patterns.now) count result }
{
    for index in 0..count {
        if patterns.passes(index) {
            return index;
        }
    }
    count
}

/// The least pattern that passes, of those that have one of the text's hashes, or else their count.
#[inline(never)]
fn search<P: Patterns>(
    links: &Links,
    hashes: &[u32],
    choices: &[u32],
    text: &[u8],
    patterns: &P,
) -> usize
    requires links { AreLinks hashes.now links.now.first.items links.now.next.items }
    requires count { length hashes.now ≤ P.count patterns.now }
    requires hash { PassesByHash (P.passes patterns.now) (record { hashes = hashes.now; choices = choices.now }) (tokens_of text.now) }
    ensures { IsLeastBelow (P.passes patterns.now) (length hashes.now) result }
{
    let mut best = hashes.len();
    for at in 0..choices.len() {
        best = links.least_with(hashes, hash_at(choices[at], text), best, patterns);
    }
    best
}

/// The hashes of the tokens before the patterns' first wildcards, in rising order.
fn leading_hashes(alloc: Global, patterns: &[&Pattern]) -> Result<Vec<u32>, NoMemory> {
    let mut all = Vec::with_capacity(alloc, patterns.len())?;
    for pattern in patterns {
        let places = Literals::Leading.places(pattern);
        all.push(hash_of(places, pattern))?;
    }
    all.sort_unstable();
    Ok(all)
}

/// Those of some hashes in rising order that stand there more than once.
fn repeated(alloc: Global, hashes: &[u32]) -> Result<Vec<u32>, NoMemory> {
    let mut all = Vec::new(alloc);
    for at in 1..hashes.len() {
        if hashes[at - 1] == hashes[at] {
            all.push(hashes[at])?;
        }
    }
    Ok(all)
}

/// The places of the tokens by which a pattern is found, by the hashes that several patterns have by their leading tokens.
fn places_of(pattern: &Pattern, shared: &[u32]) -> u32
    ensures { AreLiteral result pattern.now }
{
    let leading = Literals::Leading.places(pattern);
    let hash = hash_of(leading, pattern);
    if shared.binary_search(&hash).is_ok() {
        Literals::All.places(pattern)
    } else {
        leading
    }
}

/// The hashes by which patterns are found, and the places of the tokens that each is of.
fn hashed(
    alloc: Global,
    patterns: &[&Pattern],
    shared: &[u32],
) -> Result<(Vec<u32>, Vec<u32>), NoMemory>
    ensures { IfOk result (λ made. AreHashed (map (λ p. p.now) patterns.now) made.0.items made.1.items) }
{
    let mut hashes = Vec::with_capacity(alloc, patterns.len())?;
    let mut choices = Vec::with_capacity(alloc, patterns.len())?;
    for pattern in patterns {
        let places = places_of(pattern, shared);
        choices.push(places)?;
        hashes.push(hash_of(places, pattern))?;
    }
    Ok((hashes, choices))
}
