//! The lines that a reload prints, and what a line of a script says. It carries out nothing, and knows no table of the hub.
#![tactic(auto)]

pub mod reload_lines;
pub mod script_text;
