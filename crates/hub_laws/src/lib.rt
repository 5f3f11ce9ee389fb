//! Laws of one step, and of grants and routes over a whole history, each a sentence with a name. They have no code and know no
//! thread; `tenant_laws` has what tenants see of each other.
#![tactic(auto)]

pub mod grants;
pub mod routing;
