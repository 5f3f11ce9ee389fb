ghost use Rattle.std.specs.Prelude.{◌≡◌, IfOk, Some, map};
ghost use Rattle.world_subscriptions.specs.queue_choice.Choices.{name_of, names_of, group, chosen, IsOneOfEach};

use crate::queue_choice::groups::{Group, Groups};
use base::NoMemory;
use std::alloc::Global;
use std::hash::RandomState;
use subjects::Subject;

/// A member of a queue group: its queue name, and an id by which the caller knows it.
#[derive(Clone, Copy, Debug)]
pub struct Member<'a> {
    pub queue: &'a Subject,
    pub id: u64,
}

/// The member that is chosen of its group.
pub type Choice<'a> = Member<'a>;

/// Chooses one member of each queue group. The members come oldest first. Clients choose queue names, so they are
/// hashed under keys that clients can't know. `NoMemory` where memory could not be had; of no members none is taken.
pub fn choose<'a>(
    alloc: Global,
    keys: RandomState,
    members: &[Member<'a>],
    word: u64,
) -> Result<Vec<Choice<'a>>, NoMemory>
    ensures law { IfOk result (λ choices. IsOneOfEach members.now choices.items) }
    ensures which { IfOk result (λ choices. map Some choices.items ≡ map (λ name. chosen word (group name members.now)) (names_of members.now)) }
{
    let groups = Groups::of(alloc, keys, members)?;
    let choices = choose_each(alloc, groups.as_slice(), word)?;
    Ok(choices)
}

/// The members that a word chooses, one of each group.
fn choose_each<'a>(
    alloc: Global,
    groups: &[Group<'a>],
    word: u64,
) -> Result<Vec<Choice<'a>>, NoMemory>
    ensures { IfOk result (λ choices. map Some choices.items ≡ map (chosen word) groups.now) }
{
    let mut choices = Vec::with_capacity(alloc, groups.len())?;
    for group in groups {
        choices.push(group.choose(word))?;
    }
    Ok(choices)
}
