//! The words of a change that its text and its JSON object share.
use compare::Becoming;
use message_changes::MessageKind;
use permissions::Verdict;
use policy_doc::exports::Kind;

/// Returns what becomes of a user.
pub(crate) fn user_word(what: Becoming<'_>) -> &'static str {
    match what {
        Becoming::New => "new",
        Becoming::Gone => "gone",
        Becoming::Password => "password",
        Becoming::MovedTo(_) => "moved",
    }
}

/// Returns whether something comes or goes.
pub(crate) fn coming_word(is_new: bool) -> &'static str {
    if is_new { "new" } else { "gone" }
}

/// Returns whether something is gained or lost.
pub(crate) fn gain_word(is_gain: bool) -> &'static str {
    if is_gain { "gains" } else { "loses" }
}

/// Returns what kind of question is asked.
pub(crate) fn kind_word(kind: MessageKind) -> &'static str {
    match kind {
        MessageKind::Publish => "publish",
        MessageKind::Subscribe => "subscribe",
        MessageKind::QueueSubscribe => "queue",
        MessageKind::Delivery | MessageKind::QueueDelivery => "delivery",
    }
}

/// Returns what kind of import it is.
pub(crate) fn import_word(kind: Kind) -> &'static str {
    match kind {
        Kind::Stream => "stream",
        Kind::Service => "service",
    }
}

/// Returns how many responses a request has.
pub(crate) fn response_word(single: bool) -> &'static str {
    if single { "single" } else { "stream" }
}

/// Returns the verdict's name.
pub(crate) fn verdict_word(verdict: Verdict) -> &'static str {
    match verdict {
        Verdict::Allowed(_) => "allowed",
        Verdict::DeniedBy(_) => "denied",
        Verdict::NoAllow => "no allow",
        Verdict::NoQueueAllow(_) => "no queue allow",
    }
}
