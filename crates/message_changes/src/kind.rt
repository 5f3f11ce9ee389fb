//! The kinds of questions about messages.
use permissions::Compiled;
use policy_doc::permission_doc::{Direction, PermEntry};

/// What is asked of a user's lists.
#[derive(Clone, Copy, Debug, PartialEq, Eq)]
pub enum MessageKind {
    /// A publish on a subject.
    Publish,
    /// A subscription to a pattern without a queue.
    Subscribe,
    /// A subscription to a pattern with a queue.
    QueueSubscribe,
    /// A message on a subject, to a subscription without a queue.
    Delivery,
    /// A message on a subject, to a subscription with a queue.
    QueueDelivery,
}

impl MessageKind {
    ghost use Rattle.std.specs.Prelude.{◌≡◌};
    ghost use Rattle.std.specs.Option.{option_copied};
    ghost use Rattle.message_changes.specs.Exact.{is_kind};
    ghost use Rattle.message_changes.specs.Reasons.{has_allow, has_queue, has_tails, looks_at, rules_by, rules_of};
    ghost use Rattle.message_changes.specs.declared.kind.MessageKind.TheVariants.{Delivery};

    /// Whether a queue is asked about.
    pub fn has_queue(self) -> bool
        ensures { result ≡ has_queue self }
    {
        match self {
            MessageKind::Publish => false,
            MessageKind::Subscribe => false,
            MessageKind::QueueSubscribe => true,
            MessageKind::Delivery => false,
            MessageKind::QueueDelivery => true,
        }
    }

    /// Whether patterns that end in `>` are asked about.
    pub fn has_tails(self) -> bool
        ensures { result ≡ has_tails self }
    {
        match self {
            MessageKind::Publish => false,
            MessageKind::Subscribe => true,
            MessageKind::QueueSubscribe => true,
            MessageKind::Delivery => false,
            MessageKind::QueueDelivery => false,
        }
    }

    /// Whether it is a delivery without a queue.
    pub(crate) fn is_delivery(self) -> bool
        ensures { result ≡ is_kind Delivery self }
    {
        matches!(self, MessageKind::Delivery)
    }

    /// Whether allow entries are looked at.
    pub(crate) fn has_allow(self) -> bool
        ensures { result ≡ has_allow self }
    {
        match self {
            MessageKind::Publish => true,
            MessageKind::Subscribe => true,
            MessageKind::QueueSubscribe => true,
            MessageKind::Delivery => false,
            MessageKind::QueueDelivery => false,
        }
    }

    /// Whether an entry is looked at: of a publish each, without a queue the plain ones, with a queue each.
    pub(crate) fn looks_at(self, entry: &PermEntry) -> bool
        ensures { result ≡ looks_at self entry.now }
    {
        match self {
            MessageKind::Publish => true,
            MessageKind::Subscribe => entry.queue.is_none(),
            MessageKind::QueueSubscribe => true,
            MessageKind::Delivery => entry.queue.is_none(),
            MessageKind::QueueDelivery => true,
        }
    }

    /// The direction of lists that decides. Lists without permissions have none.
    pub fn rules_of(self, lists: &Compiled) -> Option<&Direction>
        ensures { rules_by (option_copied result) ≡ rules_of self lists.now }
    {
        match lists.permissions() {
            None => None,
            Some(permissions) => match self {
                MessageKind::Publish => Some(&permissions.publish),
                MessageKind::Subscribe => Some(&permissions.subscribe),
                MessageKind::QueueSubscribe => Some(&permissions.subscribe),
                MessageKind::Delivery => Some(&permissions.subscribe),
                MessageKind::QueueDelivery => Some(&permissions.subscribe),
            },
        }
    }
}
