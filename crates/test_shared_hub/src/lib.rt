//! Tests of `shared_hub` with threads, which see it as every caller does: by its public contract alone. It knows no socket.
#![tactic(auto)]

#[cfg(test)]
mod audits;
#[cfg(test)]
mod runs;
#[cfg(test)]
mod services;
#[cfg(test)]
mod tests;
#[cfg(test)]
mod worker;
