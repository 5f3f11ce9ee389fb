use crate::decision::{on_delivery, on_publish, on_subscribe};
use crate::equality::has_no_list;
use crate::indexed::Indexed;
use crate::{By, Verdict};
use base::{Alike, Copying, Items, NoMemory};
use policy_doc::UserDoc;
use policy_doc::permission_doc::{PermDoc, Terms};
use std::alloc::Global;
use std::marker::Model;
use std::sync::Arc;
use subjects::{Pattern, Subject, SubjectRef};

/// A user's permission lists, ready to be asked. Copies share them. A clause sees the lists.
///
/// ```
/// let rules = Compiled::of(rt.alloc(), &user, None)?;
/// assert_eq!(rt; rules.publish(&foo.lend()), Verdict::Allowed(By::Index(0)));
/// assert_eq!(rt; rules.publish(&secret.lend()), Verdict::DeniedBy(0));
/// assert_eq!(rt; rules.publish(&bar.lend()), Verdict::NoAllow);
/// ```
///
/// A question takes no memory. Of each list it looks at the entries that have the literal tokens of what is asked, found by a
/// hash of these, and at few others. `of` copies the lists and reads each entry's tokens; a copy shares both.
#[derive(Debug)]
pub struct Compiled {
    indexed: Option<Arc<Indexed>>,
}

impl Drop for Compiled {
    fn drop(self) {
        let Self { indexed: _ } = self;
    }
}

impl Model for Compiled {
    ghost use Rattle.std.specs.Prelude.{IfSome};
    ghost use Rattle.permissions.specs.Lists.{Lists, lists_of_permissions};
    ghost use Rattle.permissions.specs.Indexes.{AreIndexed};
    ghost use Rattle.permissions.specs.declared.indexed.Indexed.{Indexed};
    ghost use Rattle.std.specs.Option.{option_map};
    ghost use Rattle.std.specs.Arc.{arc_value};

    ghost Value = { Lists };

    ghost view = { λ c. lists_of_permissions (option_map (λ indexed. (arc_value {X = Indexed} indexed).lists) c.indexed) };

    ghost invariant = { λ c. IfSome c.indexed (λ indexed. AreIndexed (arc_value {X = Indexed} indexed)) };
}

impl Compiled {
    ghost use Rattle.std.specs.Prelude.{◌≡◌, IfOk};
    ghost use Rattle.std.specs.Bool.{Decides};
    ghost use Rattle.std.specs.Option.{option_copied};
    ghost use Rattle.permissions.specs.Lists.{lists_of, lists_of_permissions, lists_with};
    ghost use Rattle.permissions.specs.Verdicts.{publish_verdict, subscribe_verdict, delivery_verdict, IsJustifiedPublish, IsJustifiedSubscribe, IsJustifiedDelivery};

    /// The lists of a user's permissions, or of the default ones, which hold for whoever has none of its own. Without both the user
    /// may do everything. Response terms bring the empty publish allow list where none is given. `NoMemory` where memory could not
    /// be had.
    pub fn of(
        alloc: Global,
        user: &UserDoc,
        default: Option<&PermDoc>,
    ) -> Result<Compiled, NoMemory>
        ensures { IfOk result (λ compiled. compiled ≡ lists_of user.now (option_copied default.entry)) }
    {
        match &user.permissions {
            None => Compiled::of_permissions(alloc, default),
            Some(permissions) => Compiled::of_permissions(alloc, Some(permissions)),
        }
    }

    /// The lists of permissions; without them everything is allowed. Response terms bring the empty publish allow list where
    /// none is given. `NoMemory` where memory could not be had.
    pub fn of_permissions(
        alloc: Global,
        permissions: Option<&PermDoc>,
    ) -> Result<Compiled, NoMemory>
        ensures { IfOk result (λ compiled. compiled ≡ lists_with (option_copied permissions.entry)) }
    {
        match permissions {
            None => Ok(Compiled { indexed: None }),
            Some(permissions) => {
                let mut copy = permissions.copy(alloc)?;
                bring_allow_list(alloc, &mut copy);
                let indexed = Indexed::of(alloc, copy)?;
                let shared = Arc::new(alloc, indexed)?;
                Ok(Compiled {
                    indexed: Some(shared),
                })
            }
        }
    }

    /// The permissions that these lists are of; `None` where everything is allowed without any.
    pub fn permissions(&self) -> Option<&PermDoc>
        ensures { lists_of_permissions (option_copied result) ≡ self.now }
    {
        match &self.indexed {
            None => None,
            Some(indexed) => Some(&indexed.lists),
        }
    }

    /// On what terms the user may respond on the reply subjects of messages that it was sent, or none.
    pub fn terms(&self) -> Option<Terms>
        ensures { result ≡ self.now.allow_responses }
    {
        match &self.indexed {
            None => None,
            Some(indexed) => indexed.lists.allow_responses,
        }
    }

    /// Whether the user may publish on a subject (docs/POLICY.md, "Publish"). A denial names its reason:
    /// the least deny entry that has the subject, or an allow list none of whose entries has it.
    #[inline(always)]
    pub fn publish(&self, subject: &SubjectRef<'_>) -> Verdict
        ensures verdict { result ≡ publish_verdict self.now subject.now }
        ensures justified { IsJustifiedPublish subject.now self.now.publish result }
    {
        self.judge_publish(subject)
    }

    /// Whether a verdict on a publish takes so many searches in the lists that it is cheaper to look up one that is remembered.
    #[inline(always)]
    pub fn is_dear(&self) -> bool {
        match &self.indexed {
            None => false,
            Some(indexed) => indexed.is_dear,
        }
    }

    /// The verdict of `publish`.
    #[inline(always)]
    fn judge_publish(&self, subject: &SubjectRef<'_>) -> Verdict
        ensures { result ≡ publish_verdict self.now subject.now }
    {
        match &self.indexed {
            None => Verdict::Allowed(By::All),
            Some(indexed) => on_publish(&indexed.lists.publish, &indexed.publish, subject),
        }
    }

    /// Whether the user may subscribe to a pattern, as a member of a queue or without one (docs/POLICY.md,
    /// "Subscribe"). One entry must cover all of its subjects; a deny entry that has only some of them doesn't
    /// refuse it. Deny entries are looked at where they are plain or their queue part has the queue. Without a queue
    /// the plain allow entries decide. With one, where allow entries with queue parts cover the pattern, the least
    /// of these whose queue part has the queue allows it, and none is `NoQueueAllow` of the least of them; where
    /// there are none, the plain ones decide. Each denial names its reason.
    pub fn subscribe(&self, pattern: &Pattern, queue: Option<&Subject>) -> Verdict
        ensures verdict { result ≡ subscribe_verdict self.now pattern.now (option_copied queue.entry) }
        ensures justified { IsJustifiedSubscribe pattern.now (option_copied queue.entry) self.now.subscribe result }
    {
        // The tokens tell the prover that they are those of a pattern.
        let _ = pattern.tokens();
        self.judge_subscribe(pattern, queue)
    }

    /// The verdict of `subscribe`.
    fn judge_subscribe(&self, pattern: &Pattern, queue: Option<&Subject>) -> Verdict
        ensures { result ≡ subscribe_verdict self.now pattern.now (option_copied queue.entry) }
    {
        match &self.indexed {
            None => Verdict::Allowed(By::All),
            Some(indexed) => on_subscribe(
                &indexed.lists.subscribe,
                &indexed.subscribe,
                pattern,
                queue,
            ),
        }
    }

    /// Whether these subscribe lists are those of another user. Then its verdict on every subscription is the same.
    pub fn has_same_subscribe(&self, other: &Compiled) -> bool
        ensures { Decides result (self.now.subscribe ≡ other.now.subscribe) }
    {
        match self.permissions() {
            None => match other.permissions() {
                None => true,
                Some(other) => has_no_list(&other.subscribe),
            },
            Some(one) => match other.permissions() {
                None => has_no_list(&one.subscribe),
                Some(other) => one.subscribe.is_like(&other.subscribe),
            },
        }
    }

    /// Whether a message on a subject may be sent to a subscription of the user that has a queue or none
    /// (docs/POLICY.md, "Delivery"): `DeniedBy` the least deny entry of its subscribe lists that has the subject and
    /// is plain or has the queue in its queue part, else `Allowed(All)`.
    pub fn admits(&self, subject: &SubjectRef<'_>, queue: Option<&Subject>) -> Verdict
        ensures verdict { result ≡ delivery_verdict self.now subject.now (option_copied queue.entry) }
        ensures justified { IsJustifiedDelivery subject.now (option_copied queue.entry) self.now.subscribe result }
    {
        self.judge_delivery(subject, queue)
    }

    /// The verdict of `admits`.
    fn judge_delivery(&self, subject: &SubjectRef<'_>, queue: Option<&Subject>) -> Verdict
        ensures { result ≡ delivery_verdict self.now subject.now (option_copied queue.entry) }
    {
        match &self.indexed {
            None => Verdict::Allowed(By::All),
            Some(indexed) => on_delivery(
                &indexed.lists.subscribe,
                &indexed.subscribe,
                subject,
                queue,
            ),
        }
    }
}

ghost use Rattle.std.specs.Prelude.{◌≡◌};
ghost use Rattle.permissions.specs.Lists.{with_allow_list};

/// Gives whoever has response terms the empty publish allow list, where none is given.
fn bring_allow_list(alloc: Global, permissions: &mut PermDoc)
    ensures { permissions.new ≡ with_allow_list permissions.old }
{
    match (&permissions.allow_responses, &permissions.publish.allow) {
        (Some(_), None) => permissions.publish.allow = Some(Items::new(alloc)),
        (Some(_), Some(_)) => {}
        (None, _) => {}
    }
}

impl Copying for Compiled {
    fn copy(&self, alloc: Global) -> Result<Compiled, NoMemory> {
        match &self.indexed {
            None => Ok(Compiled { indexed: None }),
            Some(indexed) => {
                let shared = Arc::try_clone(indexed)?;
                Ok(Compiled {
                    indexed: Some(shared),
                })
            }
        }
    }
}
