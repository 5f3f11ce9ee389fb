ghost use Rattle.std.specs.Prelude.{◌≡◌, ◌≤◌, length, filter, IfOk};
ghost use Rattle.std.specs.List.{range_with_len};
ghost use Rattle.subjects.specs.Subject.{tokens_of};
ghost use Rattle.subjects.specs.pattern_groups.Links.{AreFound, AreLinks, PassesBehind};

use crate::pattern_groups::hash::{NONE, past_token, with_token};
use crate::pattern_groups::links::{Links, links_of};
use crate::pattern_groups::patterns::Patterns;
use base::NoMemory;
use std::alloc::Global;
use std::marker::Model;

/// A list of patterns, grouped by the literal tokens that they begin with, in which all that have a text are found. A clause sees
/// the hashes of these tokens.
#[derive(Debug, Drop)]
pub struct Groups {
    hashes: Vec<u32>,
    // Where they stand, unless there is only one.
    links: Option<Links>,
}

impl Model for Groups {
    ghost use Rattle.std.specs.Prelude.{ℕ, List, IfSome};
    ghost use Rattle.subjects.specs.pattern_groups.Links.{AreLinks};

    ghost Value = { List ℕ };

    ghost view = { λ g. g.hashes.items };

    ghost invariant = { λ g. IfSome g.links (λ links. AreLinks g.hashes.items links.first.items links.next.items) };
}

impl Groups {
    ghost use Rattle.std.specs.Prelude.{◌≡◌, ◌≤◌, length, filter, IfOk};
    ghost use Rattle.std.specs.List.{range_with_len};
    ghost use Rattle.subjects.specs.Fingerprint.{hash_from};
    ghost use Rattle.subjects.specs.Subject.{tokens_of};
    ghost use Rattle.subjects.specs.pattern_groups.Links.{PassesBehind};

    /// Groups patterns by their hashes, those of `hash_of`. `NoMemory` where memory could not be had.
    pub fn of(alloc: Global, hashes: Vec<u32>) -> Result<Groups, NoMemory>
        ensures { IfOk result (λ groups. groups ≡ hashes.items) }
    {
        let links = links_of(alloc, hashes.as_slice())?;
        Ok(Groups { hashes, links })
    }

    /// Returns the indexes of all patterns that pass, in rising order, where each pattern stands behind a token: its hash
    /// is that of `hash_under`. Only those are asked that begin as this token and the text do. It takes no memory where
    /// none passes; `NoMemory` where it could not be had.
    pub fn all_under<P: Patterns>(
        &self,
        alloc: Global,
        token: &[u8],
        text: &[u8],
        patterns: &P,
    ) -> Result<Vec<usize>, NoMemory>
        requires count { length self.now ≤ P.count patterns.now }
        requires front { PassesBehind (P.passes patterns.now) self.now (hash_from 7 token.now) (tokens_of text.now) }
        ensures { IfOk result (λ all. all.items ≡ filter (P.passes patterns.now) (range_with_len 0 (length self.now))) }
    {
        let hashes = self.hashes.as_slice();
        match &self.links {
            None => {
                let all = walk_all(alloc, hashes.len(), patterns)?;
                Ok(all)
            }
            Some(links) => {
                let first = with_token(NONE, token);
                let mut all = found_by(alloc, links, hashes, first, text, patterns)?;
                all.sort_unstable();
                all.dedup();
                Ok(all)
            }
        }
    }
}

/// All of so many patterns that pass.
fn walk_all<P: Patterns>(alloc: Global, count: usize, patterns: &P) -> Result<Vec<usize>, NoMemory>
    requires { count ≤ P.count patterns.now }
    ensures { IfOk result (λ all. all.items ≡ filter (P.passes patterns.now) (range_with_len 0 count)) }
{
    let mut all = Vec::new(alloc);
    for index in 0..count {
        if patterns.passes(index) {
            all.push(index)?;
        }
    }
    Ok(all)
}

/// All patterns that pass, of those that begin as the text does behind the tokens of a hash, in any order, and some perhaps
/// twice: two fronts may have one hash.
fn found_by<P: Patterns>(
    alloc: Global,
    links: &Links,
    hashes: &[u32],
    first: u32,
    text: &[u8],
    patterns: &P,
) -> Result<Vec<usize>, NoMemory>
    requires links { AreLinks hashes.now links.now.first.items links.now.next.items }
    requires count { length hashes.now ≤ P.count patterns.now }
    requires front { PassesBehind (P.passes patterns.now) hashes.now first (tokens_of text.now) }
    ensures { IfOk result (λ found. AreFound (P.passes patterns.now) (length hashes.now) found.items) }
{
    let mut found = Vec::new(alloc);
    let mut hash = first;
    let mut rest = Some(text);
    while let Some(text) = rest {
        links.add_with(hashes, hash, patterns, &mut found)?;
        let (next, behind) = past_token(hash, text);
        hash = next;
        rest = behind;
    }
    links.add_with(hashes, hash, patterns, &mut found)?;
    Ok(found)
}
