//! The import rows of a policy, and where a message is seen by them.
use crate::imports::crossing::{add_if_new, crossings, is_route};
use crate::imports::making::{groups_of, rows_of};
use crate::imports::view::{ViewItem, Way};
use base::{Copying, NoMemory, Shared};
use bytes::Bytes;
use mapping::Mapping;
use policy_doc::Policy;
use policy_doc::exports::{Kind, Row};
use std::alloc::Global;
use std::fmt;
use std::marker::Model;
use subjects::pattern_groups::Groups;
use subjects::{Subject, SubjectRef};

/// An import row with its mapping made.
#[derive(Drop)]
pub struct ImportRow {
    /// The importing account, and the row's index there.
    pub row: Shared<Row>,
    /// What it imports.
    pub kind: Kind,
    /// The name of the exporting account.
    pub exporter: Bytes,
    /// How the two accounts' subjects are paired.
    pub mapping: Mapping,
}

/// The import rows of a policy, by the importer's name and then by index. A clause sees them in this order.
#[derive(Drop)]
pub struct Rows {
    rows: Vec<ImportRow>,
    /// Where the rows stand that may concern a message.
    groups: Groups,
}

impl Model for Rows {
    ghost use Rattle.std.specs.Prelude.{List, All};
    ghost use Rattle.policy_ready.specs.declared.imports.rows.ImportRow.{ImportRow};
    ghost use Rattle.std.specs.Prelude.{◌≡◌};
    ghost use Rattle.policy_ready.specs.imports.Rows.{IsRow, hashes_of};

    ghost Value = { List ImportRow };

    ghost view = { λ r. r.rows.items };

    ghost invariant = { λ r. All IsRow r.rows.items × (r.groups ≡ hashes_of r.rows.items) };
}

impl Rows {
    ghost use Rattle.std.specs.Prelude.{◌≡◌, ◌==◌, ◌∷◌, [], All, IfOk, length};
    ghost use Rattle.std.specs.List.{cons_option};
    ghost use Rattle.policy_ready.specs.imports.Across.{views_in};
    ghost use Rattle.policy_ready.specs.imports.Views.{rows_of};
    ghost use Rattle.policy_ready.specs.imports.Rows.{IsRow};
    ghost use Rattle.policy_ready.specs.declared.imports.view.ViewItem.TheVariants as view;
    ghost use Rattle.policy_ready.specs.declared.imports.view.Way.TheVariants as way;

    /// Returns the import rows of a policy. `NoMemory` where memory could not be had.
    pub fn of(alloc: Global, policy: &Policy) -> Result<Rows, NoMemory>
        ensures { IfOk result (λ rows. rows ≡ rows_of policy.now) }
    {
        let rows = rows_of(alloc, policy.doc().accounts.as_slice())?;
        let groups = groups_of(alloc, rows.as_slice())?;
        Ok(Rows { rows, groups })
    }

    /// Returns whether there is no row: then each message is seen in its publisher's account alone.
    #[inline(always)]
    pub fn is_empty(&self) -> bool
        ensures { result ≡ (length self.now == 0) }
    {
        self.rows.is_empty()
    }

    /// Tells what holds of the rows of every policy. It does nothing when it runs.
    pub fn prove_invariant(&self)
        ensures { All IsRow self.now }
    {
        let _ = &self.rows;
    }

    /// Returns the views of a message that a user of an account publishes on a subject: that of the account itself, those
    /// across the rows in order, and then the response, where the subject is that of a response route of the account. `NoMemory`
    /// where memory could not be had.
    #[tactic(auto, using(crate::proofs::imports::Firsts::all_views))]
    pub fn views(
        &self,
        alloc: Global,
        account: &Bytes,
        subject: &Subject,
        response: Option<ViewItem>,
    ) -> Result<Vec<ViewItem>, NoMemory>
        ensures { IfOk result (λ views. views.items ≡ views_in self.now account.now subject.now (cons_option response [])) }
    {
        let mut views = self.crossings(alloc, account.as_slice(), &subject.lend())?;
        views.insert(
            0,
            ViewItem::At {
                account: account.clone()?,
                subject: subject.copy(alloc)?,
                way: Way::Own,
            },
        )?;
        add_if_new(&mut views, response)?;
        Ok(views)
    }

    /// Returns the views of such a message across the rows: those behind that of the account itself, without responses.
    /// `NoMemory` where memory could not be had. It takes no memory where the message crosses no row.
    #[tactic(auto, using(crate::proofs::imports::Firsts::views_across, crate::proofs::imports::Firsts::views_of_route))]
    pub fn crossings(
        &self,
        alloc: Global,
        account: &[u8],
        subject: &SubjectRef<'_>,
    ) -> Result<Vec<ViewItem>, NoMemory>
        ensures { IfOk result (λ found. view.At account.now subject.now way.Own ∷ found.items ≡ views_in self.now account.now subject.now []) }
    {
        if is_route(subject) {
            return Ok(Vec::new(alloc));
        }
        let found = crossings(alloc, self.rows.as_slice(), &self.groups, account, subject)?;
        Ok(found)
    }
}

impl fmt::Debug for Rows {
    fn fmt<W: fmt::Write>(&self, f: &mut fmt::Formatter<W>) -> fmt::Result {
        f.write_str("Rows")
    }
}
