//! What a world holds of a closed set of tenants, and what each command makes of it.

mod laws;

pub use laws::commands_stay_within;
