//! Whose subscribe lists are the same under another policy. A user's are compared once, however many sessions it has.
ghost use Rattle.std.specs.Prelude.{IfOk, AllPairs};
ghost use Rattle.std.specs.Bool.{Decides};
ghost use Rattle.world_sessions.specs.Renewal.{HasSameLists, HaveOneUser, IsOfEarlier, AreSameSoFar, AreSameLists};

use crate::Session;
use base::NoMemory;
use policy_ready::{CompiledPolicy, User};
use std::alloc::Global;
use std::mem;

/// How many guesses there are. Two users whose names have one hash modulo it share one.
const GUESSES: usize = 1_024;

/// Returns for each session whether the policy has its user again with the subscribe lists that it has now.
pub(crate) fn same_lists(
    alloc: Global,
    ready: &CompiledPolicy,
    list: &[Session],
) -> Result<Vec<bool>, NoMemory>
    requires { AllPairs HaveOneUser list.now }
    ensures { IfOk result (λ same. AreSameLists ready.now list.now same.items) }
{
    let mut guesses = Vec::new(alloc);
    guesses.resize(GUESSES, 0)?;
    let mut same = Vec::new(alloc);
    for session in list {
        let place = guess_again(&mut guesses, &session.user, same.len());
        same.push(answer_for(ready, list, same.as_slice(), place, session))?;
    }
    Ok(same)
}

/// Returns where an earlier session of the user may stand, and guesses this place from now on. Whoever asks looks
/// there.
fn guess_again(guesses: &mut Vec<usize>, user: &User, place: usize) -> usize {
    let mut hash: u64 = 0;
    for byte in user.user.as_slice() {
        hash = hash.wrapping_mul(31).wrapping_add(*byte as u64);
    }
    let slot = (hash % GUESSES as u64) as usize;
    if slot < guesses.len() {
        mem::replace(&mut guesses[slot], place)
    } else {
        place
    }
}

/// Returns the answer for a session: that of an earlier one of its user, where one stands at the guessed place.
fn answer_for(
    ready: &CompiledPolicy,
    list: &[Session],
    same: &[bool],
    place: usize,
    session: &Session,
) -> bool
    requires same { AreSameSoFar ready.now list.now same.now }
    requires one { IsOfEarlier list.now same.now session.now }
    ensures { Decides result (HasSameLists ready.now session.now) }
{
    match same.get(place) {
        None => has_same_lists(ready, session),
        Some(answer) => match list.get(place) {
            None => has_same_lists(ready, session),
            Some(earlier) => {
                if earlier.user.user == session.user.user {
                    *answer
                } else {
                    has_same_lists(ready, session)
                }
            }
        },
    }
}

/// Returns whether the policy has the session's user again, with the subscribe lists that it has now.
fn has_same_lists(ready: &CompiledPolicy, session: &Session) -> bool
    ensures { Decides result (HasSameLists ready.now session.now) }
{
    match ready.user_again(&session.user) {
        None => false,
        Some(user) => user.rules.has_same_subscribe(&session.user.rules),
    }
}
