//! What imports carry now that none carried, and what none carries any longer.
use crate::rows::{ImportRow, import_at};
use crate::{Change, ExchangeChange, PolicyFile};
use base::{Alike, NoMemory};
use bytes::Bytes;
use mapping::MapError;
use pattern_sets::{Length, fresh_prefix, most_tokens, numbered_sample, part_of};
use policy_doc::exports::Kind;
use policy_notes::positions::Place;
use policy_ready::imports::{ViewItem, Way};
use std::alloc::Global;
use std::cmp::Ordering;
use subjects::texts::subject_if;
use subjects::{Pattern, Subject};

/// A policy with its imports.
pub(crate) type Side<'a, 'b> = (&'a PolicyFile, &'b [ImportRow<'a>]);

/// A message that an import carries from one account to another.
#[derive(Drop)]
pub(crate) struct Carried<'a> {
    from: &'a Bytes,
    from_subject: Subject,
    to: &'a Bytes,
    to_subject: Subject,
}

impl<'a> Carried<'a> {
    /// Whether both subjects are those of another.
    pub(crate) fn is_like(&self, other: &Carried<'_>) -> bool {
        self.from_subject == other.from_subject && self.to_subject == other.to_subject
    }
}

/// How samples are made: up to so many tokens, with tokens that begin with a prefix.
#[derive(Clone, Copy)]
pub(crate) struct Sampling<'a> {
    pub most: usize,
    pub prefix: &'a [u8],
}

/// Appends a message for each import of which one is carried under one policy alone.
pub(crate) fn add_exchanges<'a, 'b>(
    alloc: Global,
    changes: &mut Vec<Change<'a>>,
    old: Side<'a, 'b>,
    new: Side<'a, 'b>,
) -> Result<(), NoMemory> {
    let mut patterns = Vec::new(alloc);
    add_patterns(&mut patterns, old.1)?;
    add_patterns(&mut patterns, new.1)?;
    let prefix = fresh_prefix(alloc, patterns.as_slice())?;
    let sampling = Sampling {
        most: most_tokens(patterns.as_slice()),
        prefix: prefix.as_slice(),
    };
    let mut found = Vec::new(alloc);
    add_carried(alloc, &mut found, true, new, old.0, sampling)?;
    add_carried(alloc, &mut found, false, old, new.0, sampling)?;
    found.sort_unstable_by(|one, other| order_of(one, other));
    for exchange in found {
        changes.push(Change::Exchange(exchange))?;
    }
    Ok(())
}

/// Appends the patterns of both sides of imports.
fn add_patterns<'b>(
    patterns: &mut Vec<&'b Pattern>,
    rows: &'b [ImportRow<'_>],
) -> Result<(), NoMemory> {
    for row in rows {
        patterns.push(row.mapping.outer())?;
        patterns.push(row.mapping.local())?;
    }
    Ok(())
}

/// Appends what imports of a policy carry and none of another.
fn add_carried<'a>(
    alloc: Global,
    found: &mut Vec<ExchangeChange<'a>>,
    is_gain: bool,
    side: Side<'a, '_>,
    other: &PolicyFile,
    sampling: Sampling<'_>,
) -> Result<(), NoMemory> {
    for row in side.1.iter().filter(|row| !stands_there(other, row)) {
        if let Some((carried, import)) = first_of(alloc, row, (side.0, other), sampling)? {
            let importer = row.importer.name.as_slice();
            let place = side.0.place_of_import(alloc, importer, import)?;
            found.push(exchange(alloc, row, is_gain, carried, (import, place))?)?;
        }
    }
    Ok(())
}

/// Whether another policy has the same import at the same index.
fn stands_there(other: &PolicyFile, row: &ImportRow<'_>) -> bool {
    import_at(other, row.importer, row.index).is_some_and(|import| import.is_like(row.import))
}

fn exchange<'a>(
    alloc: Global,
    row: &ImportRow<'a>,
    is_gain: bool,
    carried: Carried<'a>,
    import: (usize, Option<Place>),
) -> Result<ExchangeChange<'a>, NoMemory> {
    Ok(ExchangeChange {
        kind: row.import.kind,
        is_gain,
        from: carried.from.as_slice(),
        from_subject: Vec::from_slice(alloc, carried.from_subject.bytes())?,
        to: carried.to.as_slice(),
        to_subject: Vec::from_slice(alloc, carried.to_subject.bytes())?,
        import: import.0,
        place: import.1,
    })
}

/// Returns the sample with the fewest tokens that an import carries under the first of two policies and none under
/// the second, with the index of the import.
fn first_of<'a>(
    alloc: Global,
    row: &ImportRow<'a>,
    files: (&PolicyFile, &PolicyFile),
    sampling: Sampling<'_>,
) -> Result<Option<(Carried<'a>, usize)>, NoMemory> {
    for before in 0..sampling.most {
        if let Some(carried) = carried_at(alloc, row, before + 1, sampling.prefix)? {
            if let Some(import) = import_of(alloc, files.0, row.import.kind, &carried)? {
                if import_of(alloc, files.1, row.import.kind, &carried)?.is_none() {
                    return Ok(Some((carried, import)));
                }
            }
        }
    }
    Ok(None)
}

/// Returns the sample of so many tokens that an import carries, if there is one.
pub(crate) fn carried_at<'a>(
    alloc: Global,
    row: &ImportRow<'a>,
    tokens: usize,
    prefix: &[u8],
) -> Result<Option<Carried<'a>>, NoMemory> {
    let Some(outer) = sample_of(alloc, row.mapping.outer(), tokens, prefix)? else {
        return Ok(None);
    };
    match row.mapping.forward(alloc, &outer.lend()) {
        Ok(Some(local)) => Ok(Some(carried_by(row, outer, local))),
        Ok(None) | Err(MapError::TooLong) => Ok(None),
        Err(MapError::NoMemory) => Err(NoMemory),
    }
}

/// Returns what an import carries of these subjects: of a stream to the importer, of a service from it.
fn carried_by<'a>(row: &ImportRow<'a>, outer: Subject, local: Subject) -> Carried<'a> {
    let (importer, exporter) = (&row.importer.name, &row.import.account);
    match row.import.kind {
        Kind::Stream => Carried {
            from: exporter,
            from_subject: outer,
            to: importer,
            to_subject: local,
        },
        Kind::Service => Carried {
            from: importer,
            from_subject: local,
            to: exporter,
            to_subject: outer,
        },
    }
}

/// Returns the sample of so many tokens that a pattern has, with a token for each wildcard, if there is one.
pub(crate) fn sample_of(
    alloc: Global,
    pattern: &Pattern,
    tokens: usize,
    prefix: &[u8],
) -> Result<Option<Subject>, NoMemory> {
    let length = Length {
        tokens,
        has_tail: false,
    };
    let Some(part) = part_of(alloc, pattern, length)? else {
        return Ok(None);
    };
    match numbered_sample(alloc, part.as_slice(), part.as_slice(), prefix)? {
        None => Ok(None),
        Some(text) => subject_if(alloc, text.as_slice()),
    }
}

/// Returns the index of the import by which a message crosses so under a policy, if it does.
fn import_of(
    alloc: Global,
    file: &PolicyFile,
    kind: Kind,
    carried: &Carried<'_>,
) -> Result<Option<usize>, NoMemory> {
    let (from, subject) = (carried.from.as_slice(), carried.from_subject.lend());
    let views = file.rows().crossings(alloc, from, &subject)?;
    let mut imports = views.as_slice().iter();
    Ok(imports.find_map(|view| import_in(view, kind, carried)))
}

/// Returns the index of a view's import, if it is that of the message.
fn import_in(view: &ViewItem, kind: Kind, carried: &Carried<'_>) -> Option<usize> {
    match view {
        ViewItem::TooLong(_) => None,
        ViewItem::At {
            account,
            subject,
            way,
        } => {
            if *account != *carried.to || *subject != carried.to_subject {
                return None;
            }
            match (way, kind) {
                (Way::Stream(row), Kind::Stream) => Some(row.get().index),
                (Way::Service(row), Kind::Service) => Some(row.get().index),
                _ => None,
            }
        }
    }
}

/// Which of two comes first: by both accounts' names, what is gained first, streams before services, then by
/// subjects.
fn order_of(one: &ExchangeChange<'_>, other: &ExchangeChange<'_>) -> Ordering {
    one.from
        .cmp(other.from)
        .then(one.to.cmp(other.to))
        .then(other.is_gain.cmp(&one.is_gain))
        .then(is_service(one.kind).cmp(&is_service(other.kind)))
        .then(
            one.from_subject
                .as_slice()
                .cmp(other.from_subject.as_slice()),
        )
        .then(one.to_subject.as_slice().cmp(other.to_subject.as_slice()))
        .then(one.import.cmp(&other.import))
}

pub(crate) fn is_service(kind: Kind) -> bool {
    matches!(kind, Kind::Service)
}
