//! Grants as they were at a moment, copied in a plain list.
ghost use Rattle.std.specs.Prelude.{◌≡◌, ◌+◌, ◌++◌, IfOk, OnOk};
ghost use Rattle.reply_grants.specs.Window.{window};

use crate::grant_table::GrantTable;
use base::{Alike, Copying, Items, NoMemory};
use std::alloc::Global;
use std::marker::Model;
use subjects::Subject;

/// A grant as it was at a moment. A clause sees the grant.
pub struct PlainGrant {
    /// The reply subject.
    pub subject: Subject,
    /// The moment when it was noted.
    pub noted: u64,
    /// How many responses have passed on it since.
    pub count: u64,
}

impl Drop for PlainGrant {
    #[inline(always)]
    fn drop(self) {
        let Self {
            subject: _,
            noted: _,
            count: _,
        } = self;
    }
}

impl Model for PlainGrant {
    ghost use Rattle.reply_grants.specs.Grants as grants;

    ghost Value = { grants.Grant };

    ghost view = { λ g. record { subject = g.subject; noted = g.noted; count = g.count } };
}

impl Alike for PlainGrant {
    fn is_like(&self, other: &PlainGrant) -> bool {
        self.noted == other.noted
            && self.count == other.count
            && self.subject.is_like(&other.subject)
    }
}

/// Adds the grant at a place, if there is one.
fn add_plain(
    alloc: Global,
    table: &GrantTable,
    place: usize,
    all: &mut Vec<PlainGrant>,
) -> Result<(), NoMemory>
    ensures { OnOk result (all.new.items ++ window (place + 1) table.now.entries ≡ all.old.items ++ window place table.now.entries) }
{
    match table.get_index(place) {
        None => Ok(()),
        Some((subject, granted)) => {
            let subject = subject.copy(alloc)?;
            all.push(PlainGrant {
                subject,
                noted: granted.noted,
                count: granted.count,
            })?;
            Ok(())
        }
    }
}

/// The grants behind the first so many, oldest first. `NoMemory` where memory could not be had.
pub(crate) fn plain_grants(
    alloc: Global,
    table: &GrantTable,
    gone: usize,
) -> Result<Items<PlainGrant>, NoMemory>
    ensures { IfOk result (λ all. all ≡ window gone table.now.entries) }
{
    let mut all = Vec::new(alloc);
    for place in gone..table.len() {
        add_plain(alloc, table, place, &mut all)?;
    }
    Ok(Items::from_vec(all))
}
