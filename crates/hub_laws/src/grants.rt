//! Laws above the hub, of reply grants and response routes: what they tell of the history, and that it makes no difference when
//! dead grants are dropped.

mod laws;

pub use laws::{any_event, any_events, any_history, requests_are_told, routes_are_asked};
