//! Laws above the hub, of routing: what the guarantee of a step says in the words of whoever writes a policy.

mod laws;

pub use laws::{
    accounts_apart, denied_reaches_nobody, deny_overrides, nobody_left_out, nothing_unadmitted,
    one_of_each_group, reaches_its_set, reaches_its_views, refused_changes_nothing,
    reload_leaves_none_refused, seen_by_ways, unsent_reaches_nobody,
};
