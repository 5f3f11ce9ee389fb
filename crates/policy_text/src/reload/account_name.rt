//! The name of an account that has a fault.
use policy_doc::PolicyDoc;
use std::marker::Model;

/// The name of the account whose row has a fault, or no bytes where no row has it. It keeps the document, so that it
/// takes no memory. A clause sees the name.
#[derive(Debug)]
pub struct AccountName {
    doc: Option<PolicyDoc>,
    place: usize,
}

impl Drop for AccountName {
    fn drop(self) {
        let Self { doc: _, place: _ } = self;
    }
}

impl Model for AccountName {
    ghost use Rattle.std.specs.Prelude.{List, ℕ};
    ghost use Rattle.policy_text.specs.reload.Named.{name_in};

    ghost Value = { List ℕ };

    ghost view = { λ name. name_in name.doc name.place };
}

impl AccountName {
    ghost use Rattle.std.specs.Prelude.{◌≡◌, []};
    ghost use Rattle.policy_doc.specs.Document.{name_at};

    /// No name.
    pub(crate) fn none() -> AccountName
        ensures { result ≡ [] }
    {
        AccountName {
            doc: None,
            place: 0,
        }
    }

    /// The name of the account at a place of a document. It takes no memory.
    pub(crate) fn at(doc: PolicyDoc, place: usize) -> AccountName
        ensures { result ≡ name_at doc.accounts place }
    {
        AccountName {
            doc: Some(doc),
            place,
        }
    }

    /// The bytes of the name.
    pub fn as_slice(&self) -> &[u8]
        ensures { result.now ≡ self.now }
    {
        match &self.doc {
            None => &[],
            Some(doc) => match doc.accounts.as_slice().get(self.place) {
                None => &[],
                Some(named) => named.name.as_slice(),
            },
        }
    }
}
