//! What a closed set of accounts has of a policy and of the response routes, and that its messages go by that part alone.

mod laws;

pub use laws::{policy_by_part, routes_by_part, rows_of_one_service};
