//! Who holds a message back.
ghost use Rattle.std.specs.Prelude.{◌≡◌, ◌++◌, ◌∷◌, [], OnOk};
ghost use Rattle.std.specs.List.{list_any};
ghost use Rattle.std.specs.Option.{option_copied};
ghost use Rattle.world_sessions.specs.deliveries.Sessions.{session_of};
ghost use Rattle.world_sessions.specs.leniency.Held.{is_full, has_nothing, holds_back, held_among};

use crate::leniency::Lenient;
use crate::leniency::weight::is_over;
use crate::{Session, Sessions};
use base::NoMemory;
use events::Item;

/// Returns whether an item tells of a full outbox.
fn is_full(item: &Item) -> bool
    ensures { result ≡ is_full item.now }
{
    matches!(item, Item::Full { .. })
}

/// Returns whether any item tells of a full outbox.
fn is_any_full(items: &[Item]) -> bool
    ensures { result ≡ list_any is_full items.now }
{
    items.iter().any(|item| is_full(item))
}

/// Returns whether nothing waits in a session's outbox, or there is no session.
fn has_nothing(session: Option<&Session>) -> bool
    ensures { result ≡ has_nothing (option_copied session.entry) }
{
    match session {
        None => true,
        Some(session) => session.outbox.len() == 0,
    }
}

/// Returns whether a connection with a full outbox holds the message back.
fn holds_back<T: Lenient>(lenient: &T, sessions: &Sessions, conn: u64) -> bool
    ensures { result ≡ holds_back (T.terms lenient.now).lets sessions.now conn }
{
    !(lenient.lets(conn) || has_nothing(sessions.find(conn)))
}

/// Appends the connection that holds a message back which is to meet this item, if it does.
fn note_if_held<T: Lenient>(
    lenient: &T,
    sessions: &Sessions,
    item: &Item,
    held: &mut Vec<u64>,
) -> Result<(), NoMemory>
    ensures { OnOk result (held.new.items ≡ held.old.items ++ held_among (T.terms lenient.now) sessions.now (item.now ∷ [])) }
{
    match item {
        Item::Entered { conn, .. } => {
            if is_over(lenient.room(), sessions.find(*conn))? {
                held.push(*conn)?;
            }
            Ok(())
        }
        Item::Full { conn, .. } => {
            if holds_back(lenient, sessions, *conn) {
                held.push(*conn)?;
            }
            Ok(())
        }
        Item::RouteFull(_) => Ok(()),
        Item::MapTooLong(_) => Ok(()),
        Item::Unmapped => Ok(()),
        Item::MappedTooLong(_) => Ok(()),
    }
}

/// Appends who holds a message back that is to meet these items. Apart, since hardly a message meets a full outbox, and few
/// are so large that it counts how much waits.
#[inline(never)]
fn note_each<T: Lenient>(
    lenient: &T,
    sessions: &Sessions,
    items: &[Item],
    held: &mut Vec<u64>,
) -> Result<(), NoMemory>
    ensures { OnOk result (held.new.items ≡ held.old.items ++ held_among (T.terms lenient.now) sessions.now items.now) }
{
    for item in items {
        note_if_held(lenient, sessions, item, held)?;
    }
    Ok(())
}

/// Appends who holds a message back that is to meet these items: the connections with a full outbox to which the caller
/// isn't lenient, and those that it would enter for which more waits than may; once for each item. One whose outbox is empty
/// doesn't, since nothing that leaves it could make room. `NoMemory` where memory could not be had: then some are appended.
#[inline(always)]
pub fn note_held<T: Lenient>(
    lenient: &T,
    sessions: &Sessions,
    items: &[Item],
    held: &mut Vec<u64>,
) -> Result<(), NoMemory>
    ensures { OnOk result (held.new.items ≡ held.old.items ++ held_among (T.terms lenient.now) sessions.now items.now) }
{
    if is_any_full(items) || lenient.room().is_some() {
        note_each(lenient, sessions, items, held)?;
    }
    Ok(())
}
