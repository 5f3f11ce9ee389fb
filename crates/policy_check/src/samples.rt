//! A subject of each entry that an entry which doesn't cover it has only by chance.
use base::NoMemory;
use pattern_sets::{Length, fresh_token, most_tokens, part_of, sample_of};
use policy_doc::{Direction, PermEntry};
use std::alloc::Global;
use subjects::Pattern;

/// How samples of a direction's entries are made.
#[derive(Drop)]
pub(crate) struct Sampling {
    /// A token that no entry has.
    token: Vec<u8>,
    /// More tokens than each entry has, up to 512.
    most: usize,
}

impl Sampling {
    /// Returns how samples of a direction's entries are made. `NoMemory` where memory could not be had.
    pub(crate) fn of(alloc: Global, direction: &Direction) -> Result<Sampling, NoMemory> {
        let mut patterns = Vec::new(alloc);
        if let Some(allow) = &direction.allow {
            add_subjects(&mut patterns, allow.as_slice())?;
        }
        add_subjects(&mut patterns, direction.deny.as_slice())?;
        let token = fresh_token(alloc, patterns.as_slice())?;
        let most = most_tokens(patterns.as_slice());
        Ok(Sampling { token, most })
    }

    /// Returns a pattern's subject with the token in the place of each `*`, and with the most tokens if it ends in `>`.
    pub(crate) fn sample_of(
        &self,
        alloc: Global,
        pattern: &Pattern,
    ) -> Result<Option<Vec<u8>>, NoMemory> {
        if let Some(text) = self.sample_at(alloc, pattern, self.most)? {
            return Ok(Some(text));
        }
        for before in 0..self.most {
            if let Some(text) = self.sample_at(alloc, pattern, before + 1)? {
                return Ok(Some(text));
            }
        }
        Ok(None)
    }

    /// Returns a pattern's subject of so many tokens, if it has one.
    fn sample_at(
        &self,
        alloc: Global,
        pattern: &Pattern,
        tokens: usize,
    ) -> Result<Option<Vec<u8>>, NoMemory> {
        let length = Length {
            tokens,
            has_tail: false,
        };
        // (the tokens tell the prover that they are those of a pattern)
        let _ = pattern.tokens();
        match part_of(alloc, pattern, length)? {
            None => Ok(None),
            Some(part) => {
                sample_of(
                    alloc,
                    part.as_slice(),
                    part.as_slice(),
                    self.token.as_slice(),
                )
            }
        }
    }
}

/// Appends the subjects of entries.
fn add_subjects<'a>(
    patterns: &mut Vec<&'a Pattern>,
    entries: &'a [PermEntry],
) -> Result<(), NoMemory> {
    for entry in entries {
        patterns.push(&entry.subject)?;
    }
    Ok(())
}
