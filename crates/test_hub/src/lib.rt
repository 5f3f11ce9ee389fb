//! Tests of `hub`, which see it as every caller does, by its public contract alone. It knows no lock.
#![tactic(auto)]

#[cfg(test)]
mod mapped;
#[cfg(test)]
mod tests;
