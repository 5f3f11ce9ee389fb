//! Requests to a service of another account, and messages that policies judge differently.
use crate::worker::{Desk, Said, submit};
use events::{Command, Outcome};
use shared_hub::Receipt;
use std::alloc::Global;
use test_samples::{connect_as, publish, request, sub};

/// A subject that some policies don't let user demo be sent.
const SECRET: &str = "x.secret";

/// A subject that they don't let it publish.
const CLOSED: &str = "t.x.y.z.8";

/// The connection that serves what a thread's own asks.
fn server_of(conn: u64) -> u64 {
    conn.saturating_add(100)
}

/// Lets user serve connect, and subscribe to the service.
pub(crate) fn serve<D: Desk>(desk: &mut D, alloc: Global, conn: u64) -> Said {
    let server = server_of(conn);
    match submit(desk, connect_as(alloc, server, "serve"), "") {
        Said::Connected => submit(desk, sub(alloc, server, "ask", 0), ""),
        said => said,
    }
}

/// Sends requests, each of which is answered; and at the end the first is answered once more.
pub(crate) fn make_requests<D: Desk>(desk: &mut D, alloc: Global, conn: u64, times: u64) -> Said {
    for asked in 0..times {
        if !is_asked(desk, alloc, conn)
            || !is_answered(desk, alloc, conn, asked.saturating_add(1))
        {
            return Said::Otherwise;
        }
    }
    if is_answered(desk, alloc, conn, 1) {
        Said::Answered
    } else {
        Said::Otherwise
    }
}

/// Whether a request comes to the connection that serves, alone.
fn is_asked<D: Desk>(desk: &mut D, alloc: Global, conn: u64) -> bool {
    let take = Command::Take {
        conn: server_of(conn),
        most: 5,
    };
    submit(desk, request(alloc, conn, "ask", "in"), "") == Said::Published
        && desk.submit(take, "ask") == Said::Took
}

/// Whether an answer on the response route with this number comes to who has asked, alone.
fn is_answered<D: Desk>(desk: &mut D, alloc: Global, conn: u64, number: u64) -> bool {
    match format!(in alloc; "_R_.0000000000000000.{number}") {
        Err(_) => false,
        Ok(route) => {
            let route = route.as_str();
            submit(desk, publish(alloc, server_of(conn), route), "") == Said::Published
                && desk.submit(Command::Take { conn, most: 5 }, route) == Said::Took
        }
    }
}

/// Sends messages on both subjects, each twice, so that receivers and verdicts are remembered.
pub(crate) fn chat<D: Desk>(desk: &mut D, alloc: Global, conn: u64, times: u64) -> Said {
    for _ in 0..times {
        for subject in [SECRET, SECRET, CLOSED, CLOSED] {
            match submit(desk, publish(alloc, conn, subject), "") {
                Said::Published | Said::Denied => {}
                _ => return Said::Otherwise,
            }
        }
        if desk.submit(Command::Take { conn, most: 5 }, "") != Said::TookOthers {
            return Said::Otherwise;
        }
    }
    Said::Chatted
}

/// Whether each message on these subjects entered exactly if the policy of its receipt lets user demo publish it and be sent it.
pub(crate) fn are_judged(receipts: &[Receipt]) -> bool {
    for receipt in receipts {
        if !is_judged(receipt) {
            return false;
        }
    }
    true
}

fn is_judged(receipt: &Receipt) -> bool {
    let (answer, command, ready) = receipt.parts();
    let Command::Pub { message, .. } = command else {
        return true;
    };
    let Some(demo) = ready.users().first() else {
        return true;
    };
    let subject = message.subject();
    if subject.bytes() != SECRET.as_bytes() && subject.bytes() != CLOSED.as_bytes() {
        return true;
    }
    let may_enter = demo.rules.publish(&subject).is_allowed()
        && demo.rules.admits(&subject, None).is_allowed();
    has_entered(&answer.get().outcome) == may_enter
}

fn has_entered(outcome: &Outcome) -> bool {
    match outcome {
        Outcome::Published(_, met) => !met.as_slice().is_empty(),
        _ => false,
    }
}
