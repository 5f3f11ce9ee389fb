//! Tests of crates below the hub by their public contracts alone, of calls that no script makes. They know no hub.
#![tactic(auto)]

#[cfg(test)]
mod fail_at;
#[cfg(test)]
mod failures;
#[cfg(test)]
mod grants;
#[cfg(test)]
mod import_rows;
#[cfg(test)]
mod missing_subjects;
#[cfg(test)]
mod outboxes;
#[cfg(test)]
mod patterns;
#[cfg(test)]
mod permission_lists;
#[cfg(test)]
mod response_routes;
#[cfg(test)]
mod sendings;
