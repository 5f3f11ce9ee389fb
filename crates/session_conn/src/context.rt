// What stays the same while frames have their turns.
use session_plan::Stage;
use std::alloc::Global;

/// What a frame's turn goes by beside the frame: whose it is, when, and how the connection stands.
#[derive(Clone, Copy)]
pub struct TurnContext {
    pub alloc: Global,
    /// The connection's number.
    pub conn: u64,
    /// The moment of its events.
    pub moment: u64,
    /// Where the connection is in its life.
    pub stage: Stage,
    /// The word of the frame, where it has drawn one.
    pub word: Option<u64>,
}

/// What a drain goes by: whose it is, when, how the connection stands, and how much it takes.
#[derive(Clone, Copy)]
pub struct DrainContext {
    pub alloc: Global,
    /// The connection's number.
    pub conn: u64,
    /// The moment of its Take.
    pub moment: u64,
    /// Where the connection is in its life.
    pub stage: Stage,
    /// How many deliveries are taken, at most.
    pub most: usize,
}
