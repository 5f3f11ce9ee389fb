use crate::queue_choice::choice::Member;
use crate::queue_choice::number::chosen_number;
use base::NoMemory;
use indexmap::IndexSet;
use std::alloc::Global;
use std::hash::RandomState;
use std::marker::Model;

/// The members of one queue group, oldest first; one at least. A clause sees them as a list.
#[derive(Drop)]
pub struct Group<'a> {
    oldest: Member<'a>,
    younger: Vec<Member<'a>>,
}

impl<'a> Model for Group<'a> {
    ghost use Rattle.std.specs.Prelude.{◌∷◌, List};
    ghost use Rattle.world_subscriptions.specs.declared.queue_choice.choice.Member.{Member};

    ghost Value = { List Member };

    ghost view = { λ g. g.oldest ∷ g.younger.items };
}

impl<'a> Group<'a> {
    ghost use Rattle.std.specs.Prelude.{◌≡◌, ◌∷◌, ◌++◌, [], Some, OnOk};
    ghost use Rattle.world_subscriptions.specs.queue_choice.Choices.{chosen};

    /// Returns a group of one member. It takes no memory.
    fn of(alloc: Global, member: Member<'a>) -> Group<'a>
        ensures { result ≡ member.entry ∷ [] }
    {
        Group {
            oldest: member,
            younger: Vec::new(alloc),
        }
    }

    /// Adds the youngest member.
    fn push(&mut self, member: Member<'a>) -> Result<(), NoMemory>
        ensures { OnOk result (self.new ≡ self.old ++ member.entry ∷ []) }
    {
        self.younger.push(member)?;
        Ok(())
    }

    /// Returns the member that a word chooses.
    pub fn choose(&self, word: u64) -> Member<'a>
        ensures { Some result ≡ chosen word self.now }
    {
        let number = chosen_number(word, self.younger.len() + 1);
        if number == 0 {
            self.oldest
        } else {
            self.younger[number - 1]
        }
    }
}

/// The queue groups of a list of members, in order of their first members.
#[derive(Drop)]
pub struct Groups<'a> {
    /// The place of each group, by its name.
    names: IndexSet<&'a [u8], RandomState>,
    list: Vec<Group<'a>>,
}

impl<'a> Groups<'a> {
    ghost use Rattle.std.specs.Prelude.{◌≡◌, IfOk, OnOk, map, length};
    ghost use Rattle.world_subscriptions.specs.queue_choice.Choices.{names_of, group};
    ghost use Rattle.world_subscriptions.specs.queue_choice.Joined.{table_of, joined};

    /// Returns the groups of the members. Of no members it takes no memory.
    #[tactic(auto, using(crate::proofs::queue_choice::Tables::all_joined))]
    pub fn of(
        alloc: Global,
        keys: RandomState,
        members: &[Member<'a>],
    ) -> Result<Groups<'a>, NoMemory>
        ensures { IfOk result (λ groups. groups.list.items ≡ map (λ name. group name members.now) (names_of members.now)) }
    {
        let mut groups = Groups {
            names: IndexSet::with_hasher(alloc, keys),
            list: Vec::new(alloc),
        };
        for member in members {
            groups.join(alloc, *member)?;
        }
        Ok(groups)
    }

    /// Returns the groups.
    pub fn as_slice(&self) -> &[Group<'a>]
        ensures { result.now ≡ self.now.list.items }
    {
        self.list.as_slice()
    }

    /// Adds a member to the group of its name, which is new where nobody has the name yet.
    fn join(&mut self, alloc: Global, member: Member<'a>) -> Result<(), NoMemory>
        requires { length self.old.names.keys ≡ length self.old.list.items }
        ensures joined { OnOk result (table_of self.new ≡ joined (table_of self.old) member.entry) }
        ensures lengths { OnOk result (length self.new.names.keys ≡ length self.new.list.items) }
    {
        let (place, is_new) = self.names.insert_full(member.queue.bytes())?;
        if is_new {
            self.list.push(Group::of(alloc, member))?;
            return Ok(());
        }
        self.list[place].push(member)?;
        Ok(())
    }
}
