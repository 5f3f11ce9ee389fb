//! Where the hashes of a list stand.
ghost use Rattle.std.specs.Prelude.{◌≡◌, ◌<◌, ◌≤◌, ◌^◌, length, IfOk, IfSome, OnOk};
ghost use Rattle.subjects.specs.pattern_groups.Links.{row_of, AreLinks, Finds, IsLeastWith};

use crate::pattern_groups::patterns::Patterns;
use base::NoMemory;
use std::alloc::Global;

/// The places of hashes, row by row: the first of each row, and behind each place the next one of its row.
#[derive(Debug, Drop)]
pub(crate) struct Links {
    pub first: Vec<u32>,
    pub next: Vec<u32>,
}

/// Returns the places of hashes, unless there is only one: to find it costs as much as to ask it. `NoMemory` where memory could
/// not be had.
pub(crate) fn links_of(alloc: Global, hashes: &[u32]) -> Result<Option<Links>, NoMemory>
    ensures { IfOk result (λ found. IfSome found (λ links. AreLinks hashes.now links.first.items links.next.items)) }
{
    if hashes.len() < 2 || hashes.len() > u32::MAX as usize {
        return Ok(None);
    }
    let links = Links::of(alloc, hashes)?;
    Ok(Some(links))
}

/// The row of a hash, one of a power of two.
#[inline(always)]
#[tactic(auto, unfolding(crate::specs::pattern_groups::Links::row_of))]
fn row_of(hash: u32, rows: usize) -> usize
    requires { 0 < rows }
    ensures row { result ≡ row_of hash rows }
    ensures within { result < rows }
{
    hash as usize & (rows - 1)
}

impl Links {
    /// The places of the hashes.
    pub fn of(alloc: Global, hashes: &[u32]) -> Result<Links, NoMemory>
        requires some { 0 < length hashes.now }
        requires fits { length hashes.now < 2 ^ 32 }
        ensures { IfOk result (λ links. AreLinks hashes.now links.first.items links.next.items) }
    {
        let end = hashes.len() as u32;
        let rows = hashes.len().next_power_of_two();
        let mut first = vec![in alloc; end; rows]?;
        let mut next = vec![in alloc; end; hashes.len()]?;
        for done in 0..hashes.len() {
            let at = hashes.len() - 1 - done;
            let row = row_of(hashes[at], rows);
            next[at] = first[row];
            first[row] = at as u32;
        }
        Ok(Links { first, next })
    }

    /// The least place before the best so far that has the hash and passes, or else the best.
    #[inline(always)]
    pub fn least_with<P: Patterns>(
        &self,
        hashes: &[u32],
        hash: u32,
        best: usize,
        patterns: &P,
    ) -> usize
        requires links { AreLinks hashes.now self.now.first.items self.now.next.items }
        requires best { best ≤ length hashes.now }
        requires count { length hashes.now ≤ P.count patterns.now }
        ensures { IsLeastWith (P.passes patterns.now) hashes.now hash best result }
    {
        let mut at = self.first[row_of(hash, self.first.len())] as usize;
        while at < best {
            if hashes[at] == hash && patterns.passes(at) {
                return at;
            }
            at = self.next[at] as usize;
        }
        best
    }

    /// Appends the places that have the hash and pass.
    pub fn add_with<P: Patterns>(
        &self,
        hashes: &[u32],
        hash: u32,
        patterns: &P,
        found: &mut Vec<usize>,
    ) -> Result<(), NoMemory>
        requires links { AreLinks hashes.now self.now.first.items self.now.next.items }
        requires count { length hashes.now ≤ P.count patterns.now }
        ensures { OnOk result (Finds (P.passes patterns.now) hashes.now hash (length hashes.now) found.old.items found.new.items) }
    {
        let mut at = self.first[row_of(hash, self.first.len())] as usize;
        while at < hashes.len() {
            if hashes[at] == hash && patterns.passes(at) {
                found.push(at)?;
            }
            at = self.next[at] as usize;
        }
        Ok(())
    }
}
