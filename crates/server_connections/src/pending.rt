// What a worker's mail says about its connections.
use crate::connections::Connections;
use server_state::mail::{Mail, Pending};

impl Connections {
    /// Follows a worker's mail. Where an entry of it was lost, this walks over all connections.
    pub fn follow(&mut self, mail: &Mail) {
        if mail.all {
            self.note_mail_lost();
            self.resume_all();
        }
        for pending in mail.pending.as_slice() {
            self.note_pending(*pending);
        }
        self.let_on_each(mail.freed.as_slice());
    }

    /// Notes what is pending for a connection, if the worker has it.
    fn note_pending(&mut self, pending: Pending) {
        let Some(key) = self.key_of(pending.conn) else {
            return;
        };
        if let Some(it) = self.slab.get_mut(key) {
            it.due.note_pending(pending);
        }
        self.queue_flush(key);
        self.queue_pressing(key);
    }

    /// Queues each connection to be written to, since something may be pending for it.
    fn note_mail_lost(&mut self) {
        for key in 0..self.slab.capacity() {
            if let Some(it) = self.slab.get_mut(key) {
                it.due.note_mail_lost();
            }
            self.queue_flush(key);
        }
    }

    /// Lets publishers go on whose receivers have made room.
    fn let_on_each(&mut self, publishers: &[u64]) {
        for publisher in publishers {
            self.let_on(*publisher);
        }
    }
}
