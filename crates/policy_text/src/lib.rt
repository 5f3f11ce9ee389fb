//! The reading of a policy's text: its JSON walked to a document, or its first fault, and the document made ready. It knows
//! no file and no hub.
#![tactic(auto)]

pub mod account_config;
pub mod mappings;
pub mod reload;
pub mod rows;
