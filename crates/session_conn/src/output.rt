/// Why a call did not come to its end. What it has not done goes on at the next call.
#[derive(Clone, Copy, Debug, PartialEq, Eq)]
pub enum Stall {
    /// Memory could not be had for the piece, and nothing happened: it can be given again.
    PieceNotTaken,
    /// Memory could not be had.
    Memory,
    /// The history takes no more events.
    HistoryFull,
    /// A message waits for room at one of its receivers, or a text waits until its own client has what came before it. The
    /// frame stays, and drains go on, since the room may be made by one of them.
    Held,
}

/// What a call gives.
#[derive(Drop)]
pub struct Output {
    /// What is written to the client.
    pub bytes: Vec<u8>,
    /// Whether the connection has closed. The caller writes the bytes, and then calls `ended`.
    pub close: bool,
    /// What stopped the call, if something did.
    pub stall: Option<Stall>,
}
