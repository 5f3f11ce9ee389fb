//! What a change of policy changes, in lines for an operator: as text, or a JSON object a line (docs/POLICY.md,
//! "Comparing two policies"). It knows no file and no sink.
#![tactic(auto)]

mod comparing;
mod json_lines;
mod members;
mod texts;
mod words;

pub use comparing::{CompareFault, lines_between};
pub use json_lines::json_of;
pub use texts::text_of;
