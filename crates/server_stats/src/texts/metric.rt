//! The metrics, by their names (Prometheus documentation, "Metric and label naming").
ghost use Rattle.std.specs.Prelude.{◌≡◌};
ghost use Rattle.server_stats.specs.texts.Metrics.{help_of, kind_of, name_of, number_of};

use crate::counts::AccountCounts;

/// A metric.
#[derive(Clone, Copy, Debug)]
pub(crate) enum Metric {
    Connections,
    Held,
    WaitingBytes,
    HistoryEntries,
    HistoryBytes,
    Rotations,
    Epoch,
    /// Those behind have a number for each account.
    Sessions,
    Subscriptions,
    Waiting,
    Received,
    Sent,
    Slow,
}

/// Returns a metric's name. That of a counter ends in `_total`.
pub(crate) fn name_of(metric: Metric) -> &'static str
    ensures { result.now ≡ name_of metric }
{
    match metric {
        Metric::Connections => "natsd_connections",
        Metric::Held => "natsd_held_publishers",
        Metric::WaitingBytes => "natsd_waiting_bytes",
        Metric::HistoryEntries => "natsd_history_entries",
        Metric::HistoryBytes => "natsd_history_bytes",
        Metric::Rotations => "natsd_history_rotations_total",
        Metric::Epoch => "natsd_policy_epoch",
        Metric::Sessions => "natsd_sessions",
        Metric::Subscriptions => "natsd_subscriptions",
        Metric::Waiting => "natsd_waiting_messages",
        Metric::Received => "natsd_received_messages_total",
        Metric::Sent => "natsd_sent_messages_total",
        Metric::Slow => "natsd_slow_consumers_total",
    }
}

/// Returns what a metric means.
pub(crate) fn help_of(metric: Metric) -> &'static str
    ensures { result.now ≡ help_of metric }
{
    match metric {
        Metric::Connections => "Open sockets of clients.",
        Metric::Held => "Publishers that wait for a full receiver.",
        Metric::WaitingBytes => "Bytes that wait for clients, about.",
        Metric::HistoryEntries => "Entries that the history holds.",
        Metric::HistoryBytes => "Bytes that these entries keep, about.",
        Metric::Rotations => "How often the history was rotated.",
        Metric::Epoch => "Which policy is in force, counted from 1.",
        Metric::Sessions => "Connected clients of an account.",
        Metric::Subscriptions => "Subscriptions of an account's clients.",
        Metric::Waiting => "Messages that wait for an account's clients.",
        Metric::Received => "Messages accepted from an account's clients.",
        Metric::Sent => "Messages handed to an account's clients.",
        Metric::Slow => "Clients of an account that were closed for being slow.",
    }
}

/// Returns a metric's type: a gauge rises and falls, a counter only rises.
pub(crate) fn kind_of(metric: Metric) -> &'static str
    ensures { result.now ≡ kind_of metric }
{
    match metric {
        Metric::Connections => "gauge",
        Metric::Held => "gauge",
        Metric::WaitingBytes => "gauge",
        Metric::HistoryEntries => "gauge",
        Metric::HistoryBytes => "gauge",
        Metric::Rotations => "counter",
        Metric::Epoch => "gauge",
        Metric::Sessions => "gauge",
        Metric::Subscriptions => "gauge",
        Metric::Waiting => "gauge",
        Metric::Received => "counter",
        Metric::Sent => "counter",
        Metric::Slow => "counter",
    }
}

/// Returns a metric's number in an account's counts; 0 for one that is no account's.
pub(crate) fn number_of(metric: Metric, counts: AccountCounts) -> u64
    ensures { result ≡ number_of metric counts }
{
    match metric {
        Metric::Sessions => counts.sessions,
        Metric::Subscriptions => counts.subscriptions,
        Metric::Waiting => counts.waiting,
        Metric::Received => counts.received,
        Metric::Sent => counts.sent,
        Metric::Slow => counts.slow,
        Metric::Connections => 0,
        Metric::Held => 0,
        Metric::WaitingBytes => 0,
        Metric::HistoryEntries => 0,
        Metric::HistoryBytes => 0,
        Metric::Rotations => 0,
        Metric::Epoch => 0,
    }
}
