//! Likely mistakes in a policy without a fault: entries that decide nothing, users who can do nothing or never connect, imports
//! that no user can use (docs/POLICY.md, "Warnings"). It knows no connection and no file.
#![tactic(auto)]

mod effects;
mod entries;
mod imports;
mod samples;
mod users;
mod warnings;

pub use warnings::{Warning, warnings_of};
