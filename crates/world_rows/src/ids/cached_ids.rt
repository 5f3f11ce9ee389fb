//! The cached ids of one subject.
ghost use Rattle.std.specs.Prelude.{◌≡◌, ◌==◌, ◌&&◌, IfOk, IfSome, None, nat_eq};
ghost use Rattle.std.specs.Cmp.Lexicographic.{pointwise};
ghost use Rattle.subjects.specs.Subject.{tokens_of};
ghost use Rattle.world_rows.specs.ids.CachedIds.{IsSaid, Says};
ghost use Rattle.world_rows.specs.ids.Entries.{Entries, IsTold};

use base::NoMemory;
use std::alloc::Global;

/// The ids that were found for an account and the text of a subject, or none where they are too many.
#[derive(Drop)]
pub(crate) struct CachedIds {
    // The hash under which they are cached.
    hash: u64,
    account: Vec<u8>,
    subject: Vec<u8>,
    ids: Option<Vec<u64>>,
}

impl CachedIds {
    /// Returns what is cached of a subject that has too many. It takes no memory.
    pub fn too_many(alloc: Global, hash: u64) -> CachedIds
        ensures { result.ids ≡ None }
    {
        CachedIds {
            hash,
            account: Vec::new(alloc),
            subject: Vec::new(alloc),
            ids: None,
        }
    }

    /// Returns these ids, which were found for the account and the text. `NoMemory` where memory could not be had.
    pub fn of(
        alloc: Global,
        hash: u64,
        account: &[u8],
        text: &[u8],
        ids: Vec<u64>,
    ) -> Result<CachedIds, NoMemory>
        ensures { IfOk result (λ cached. Says account.now text.now ids cached) }
    {
        let account = Vec::from_slice(alloc, account)?;
        let subject = Vec::from_slice(alloc, text)?;
        Ok(CachedIds {
            hash,
            account,
            subject,
            ids: Some(ids),
        })
    }

    /// Returns whether they are cached under this hash.
    pub fn has_hash(&self, hash: u64) -> bool {
        self.hash == hash
    }

    /// Returns whether they are of this account and this text.
    fn is_of(&self, account: &[u8], text: &[u8]) -> bool
        ensures { result ≡ (pointwise nat_eq self.now.account.items account.now && pointwise nat_eq self.now.subject.items text.now) }
    {
        self.account.as_slice() == account && self.subject.as_slice() == text
    }

    /// Returns the ids of this account and this text, if they are cached.
    pub fn find(&self, account: &[u8], text: &[u8]) -> Option<&[u64]>
        ensures { IfSome result (λ found. (entries : Entries) → IsSaid self.now entries → IsTold account.now (tokens_of text.now) found.now entries) }
    {
        match &self.ids {
            None => None,
            Some(ids) => {
                if self.is_of(account, text) {
                    Some(ids.as_slice())
                } else {
                    None
                }
            }
        }
    }
}
