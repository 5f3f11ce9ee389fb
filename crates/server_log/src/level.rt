/// What is told.
#[derive(Clone, Copy, Debug, PartialEq, Eq)]
pub enum LogLevel {
    /// Nothing.
    None,
    /// What was refused, who was closed for being slow, and what policies do.
    Denials,
    /// Connects and closings as well.
    All,
}
