//! What becomes of the sessions when another policy comes into force: who stays, who goes, and for whom each acts.
ghost use Rattle.std.specs.Prelude.{◌≡◌, ◌∷◌, ◌++◌, [], IfOk, OnOk, filter, map};
ghost use Rattle.std.specs.List.{filter_map};
ghost use Rattle.world_sessions.specs.Renewal.{user_again_of, stays, goes, connection_of, closed_conns, with_user, with_users};

use crate::Session;
use base::{Copying, NoMemory};
use policy_ready::{CompiledPolicy, User};
use std::alloc::Global;
use std::collections::VecDeque;

/// Returns whether the policy has the session's user again.
fn is_staying(ready: &CompiledPolicy, session: &Session) -> bool
    ensures { result ≡ stays ready.now session.now }
{
    ready.user_again(&session.user).is_some()
}

/// Adds the user that a session is to act for, if it stays.
fn add_user(
    alloc: Global,
    users: &mut VecDeque<User>,
    ready: &CompiledPolicy,
    session: &Session,
) -> Result<(), NoMemory>
    ensures { OnOk result (users.new.items ≡ users.old.items ++ filter_map (user_again_of ready.now) (session.now ∷ [])) }
{
    match ready.user_again(&session.user) {
        None => Ok(()),
        Some(user) => {
            users.push_back(user.copy(alloc)?)?;
            Ok(())
        }
    }
}

/// Returns the users of the sessions that stay, as the policy has them.
#[tactic(auto, using(crate::proofs::Lists::filter_map_more))]
pub(crate) fn users_again(
    alloc: Global,
    ready: &CompiledPolicy,
    list: &[Session],
) -> Result<VecDeque<User>, NoMemory>
    ensures { IfOk result (λ users. users.items ≡ filter_map (user_again_of ready.now) list.now) }
{
    let mut users = VecDeque::new(alloc);
    for session in list {
        add_user(alloc, &mut users, ready, session)?;
    }
    Ok(users)
}

/// Adds the connection of a session, if it goes.
fn add_closed(
    gone: &mut Vec<u64>,
    ready: &CompiledPolicy,
    session: &Session,
) -> Result<(), NoMemory>
    ensures { OnOk result (gone.new.items ≡ gone.old.items ++ map connection_of (filter (goes ready.now) (session.now ∷ []))) }
{
    if !is_staying(ready, session) {
        gone.push(session.conn)?;
    }
    Ok(())
}

/// Returns the connections of the sessions that go, session by session.
#[tactic(auto, using(crate::proofs::Lists::map_filter_more))]
fn closed_in_turn(
    alloc: Global,
    ready: &CompiledPolicy,
    list: &[Session],
) -> Result<Vec<u64>, NoMemory>
    ensures { IfOk result (λ gone. gone.items ≡ map connection_of (filter (goes ready.now) list.now)) }
{
    let mut gone = Vec::new(alloc);
    for session in list {
        add_closed(&mut gone, ready, session)?;
    }
    Ok(gone)
}

/// Returns the connections of the sessions that go, ascending.
pub(crate) fn closed(
    alloc: Global,
    ready: &CompiledPolicy,
    list: &[Session],
) -> Result<Vec<u64>, NoMemory>
    ensures { IfOk result (λ gone. gone.items ≡ closed_conns ready.now list.now) }
{
    let mut gone = closed_in_turn(alloc, ready, list)?;
    gone.sort_unstable();
    Ok(gone)
}

/// Removes the sessions that go, with their outboxes.
fn keep_staying(ready: &CompiledPolicy, list: &mut Vec<Session>)
    ensures { list.new.items ≡ filter (stays ready.now) list.old.items }
{
    list.retain(|session| is_staying(ready, session));
}

/// Gives a session its user at a moment, if there is one for it: its grants are judged by the terms before and those of
/// this user.
fn give_user(session: &mut Session, user: Option<User>, now: u64)
    ensures { session.new ≡ with_user now session.old user }
{
    match user {
        None => {}
        Some(user) => {
            let before = session.user.rules.terms();
            session.replies.judge(now, before, user.rules.terms());
            session.user = user;
        }
    }
}

/// Gives the sessions their users, in order.
fn give_users(list: &mut [Session], mut users: VecDeque<User>, now: u64)
    ensures { list.new ≡ with_users now list.old users.items }
{
    for session in list.iter_mut() {
        give_user(session, users.pop_front(), now);
    }
}

/// Removes the sessions that go, and gives the others these users, in order. Grants are judged anew as of `now`, in milliseconds.
pub(crate) fn renew_list(
    ready: &CompiledPolicy,
    list: &mut Vec<Session>,
    users: VecDeque<User>,
    now: u64,
)
    ensures { list.new.items ≡ with_users now (filter (stays ready.now) list.old.items) users.items }
{
    keep_staying(ready, list);
    give_users(list, users, now);
}
