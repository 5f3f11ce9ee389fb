//! Templates of mappings: texts as `x.$2.$1.>`, which tell how the importer's subjects of a mapping look.
//!
//! A template is judged in a few walks over its text and takes no memory for that. Beside that the wildcards of patterns are
//! counted here and texts of tokens written, which both kinds of mapping need too.

mod error;
mod lengths;
mod part;
mod references;
mod template;
mod text;

pub use error::MappingError;
pub use lengths::{count_stars, count_tokens, is_longer};
pub use references::References;
pub use template::template_fault;
pub use text::{local_text, push_token, push_tokens};
