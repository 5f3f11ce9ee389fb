//! The subscriptions that may be sent a message, and the receivers that a view has for it.

mod cached_view;
mod names;
mod open;
mod receiver;
mod whom;

pub use cached_view::{CachedView, ReceiverSearch, address_cached, cached_view_at, cached_views};
pub use names::names_of;
pub use open::Open;
pub use receiver::{Receiver, address_each};
pub use whom::{Whom, address_chosen, whom_of};
