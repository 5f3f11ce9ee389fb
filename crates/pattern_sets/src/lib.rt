//! Sets of subjects that patterns name, and the few samples that tell two such sets apart. It knows no permission and no
//! policy.
#![tactic(auto)]

mod cover;
mod fresh;
mod laws;
mod part;
mod sample;
mod search;
mod sets;

pub use cover::Cover;
pub use fresh::{fresh_prefix, fresh_token};
pub use laws::samples_suffice;
pub use part::{Length, part_of};
pub use sample::{numbered_sample, sample_of};
pub use search::{Allowing, Asked, Judges, Reason, Search};
pub use sets::{PatternSet, difference, is_empty, is_within, most_tokens};
