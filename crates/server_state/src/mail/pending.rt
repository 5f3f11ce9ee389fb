/// What is pending for a connection: so many deliveries have entered its outbox, with so many bytes in all, or it is to be
/// drained for another reason.
#[derive(Clone, Copy)]
pub struct Pending {
    pub conn: u64,
    pub entered: usize,
    pub bytes: usize,
    /// Whether a delivery was missed, or the session is gone.
    pub drain: bool,
}
