//! Why a client's grant to answer allows a message no more, as the hub has it.
use crate::gates::Gate;
use crate::port::ServerPort;
use events::Message;
use server_log::{GrantEnd, GrantEnds};
use shared_hub::Run;
use std::sync::Wait;

impl<L: Run, R: Wait, G: Gate + Drop> GrantEnds for ServerPort<'_, L, R, G> {
    fn grant_end(&self, conn: u64, message: &Message) -> Option<GrantEnd> {
        self.shared.grant_end(self.rt, conn, message)
    }
}
