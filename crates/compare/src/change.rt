//! A change, with what both policies say.
use base::Items;
use bytes::Bytes;
use mapping_changes::MappingChange;
use message_changes::{Asked, MessageKind};
use permissions::Verdict;
use policy_doc::exports::{Kind, ResponseTerms};
use policy_doc::permission_doc::{PermEntry, Terms};
use policy_notes::positions::Place;

/// What two policies have or say differently. Each kind is in the order of the names' bytes, by account and then by
/// user, what is gained first.
#[derive(Drop)]
pub struct Changes<'a> {
    /// Accounts that come or go.
    pub accounts: Vec<AccountChange<'a>>,
    /// Users that come, go, move, or change their password.
    pub users: Vec<UserChange<'a>>,
    /// What each user that both policies have may do and couldn't, or no longer may.
    pub lists: Vec<ListChange<'a>>,
    /// What else changes.
    pub others: Vec<Change<'a>>,
}

/// An account that comes or goes.
#[derive(Clone, Copy)]
pub struct AccountChange<'a> {
    pub name: &'a [u8],
    pub is_new: bool,
}

/// What becomes of a user. Of one who goes or moves it is the old account.
#[derive(Clone, Copy)]
pub struct UserChange<'a> {
    pub account: &'a [u8],
    pub user: &'a [u8],
    pub what: Becoming<'a>,
}

/// A user comes, goes, has another password, or moves to this account.
#[derive(Clone, Copy, Debug)]
pub enum Becoming<'a> {
    New,
    Gone,
    Password,
    MovedTo(&'a [u8]),
}

/// What two policies say differently of answers, imports, mappings and closed sets.
#[derive(Drop)]
pub enum Change<'a> {
    /// A user may answer requests on other terms.
    Answers {
        account: &'a [u8],
        user: &'a [u8],
        old: Option<Terms>,
        new: Option<Terms>,
    },
    /// An import carries what none carried, or none carries any longer what one carried.
    Exchange(ExchangeChange<'a>),
    /// The requests of an import are answered on other terms, or a reload ends its routes. The index is that in the
    /// new policy.
    Service {
        importer: &'a [u8],
        index: usize,
        old: ServiceTerms<'a>,
        new: ServiceTerms<'a>,
    },
    /// Messages on a subject are sent on otherwise.
    Mapping {
        account: &'a [u8],
        change: MappingChange,
    },
    /// A set of accounts that exchange messages comes or goes.
    Set {
        accounts: Items<Bytes>,
        is_new: bool,
    },
}

/// A question that only one of two policies allows a user.
#[derive(Drop)]
pub struct ListChange<'a> {
    pub account: &'a [u8],
    pub user: &'a [u8],
    pub kind: MessageKind,
    /// Whether the new policy allows it.
    pub is_gain: bool,
    pub asked: Asked,
    pub old: Judged<'a>,
    pub new: Judged<'a>,
}

/// A verdict with the entry that it names, and where that stands in the policy's text.
#[derive(Clone, Copy)]
pub struct Judged<'a> {
    pub verdict: Verdict,
    pub entry: Option<&'a PermEntry>,
    pub place: Option<Place>,
}

/// A message that only one of two policies has cross from one account to another.
#[derive(Drop)]
pub struct ExchangeChange<'a> {
    pub kind: Kind,
    /// Whether it crosses under the new policy.
    pub is_gain: bool,
    pub from: &'a [u8],
    pub from_subject: Vec<u8>,
    pub to: &'a [u8],
    pub to_subject: Vec<u8>,
    /// The index of the import that it crosses, in its importer's imports, and where that stands in the policy's
    /// text.
    pub import: usize,
    pub place: Option<Place>,
}

/// What a service's requests meet.
#[derive(Clone, Copy)]
pub enum ServiceTerms<'a> {
    /// Responses on these terms.
    Response(ResponseTerms),
    /// The same subjects, by this template or by none. Another text of it ends the routes.
    Template(Option<&'a [u8]>),
}
