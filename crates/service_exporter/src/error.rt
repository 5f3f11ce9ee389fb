use base::NoMemory;
use std::alloc::AllocError;
use std::error::Error;
use std::fmt;

/// Why there is no room for routes.
#[derive(Clone, Copy, Debug, PartialEq, Eq)]
pub enum RouteError {
    /// The exporter would have more than 65,536 routes that live, or one with a number above 2^64 - 1.
    RouteFull,
    /// Memory could not be had.
    NoMemory,
}

impl fmt::Display for RouteError {
    ghost use Rattle.std.specs.Prelude.{Some};
    ghost use Rattle.service_exporter.specs.Limit.{error_text};

    ghost output = { λ error. Some (error_text error) };

    fn fmt<W: fmt::Write>(&self, f: &mut fmt::Formatter<W>) -> fmt::Result {
        match self {
            RouteError::RouteFull => f.write_str("the exporter has all its response routes"),
            RouteError::NoMemory => f.write_str("no memory"),
        }
    }
}

impl Error for RouteError {}
