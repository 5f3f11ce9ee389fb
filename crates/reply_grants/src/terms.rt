ghost use Rattle.std.specs.Prelude.{◌≡◌};
ghost use Rattle.reply_grants.specs.Grants as grants;

use policy_doc::permission_doc::Terms;

/// Whether one response more may pass on these terms, after so many responses and so many milliseconds.
pub(crate) fn allow(terms: Terms, count: u64, age: u64) -> bool
    ensures { result ≡ grants.allow terms count age }
{
    is_below(terms.max, count) && is_within(terms.expires, age)
}

/// Whether a count is below the bound. Without a bound every count is.
pub(crate) fn is_below(bound: Option<u64>, count: u64) -> bool
    ensures { result ≡ grants.is_below bound count }
{
    match bound {
        None => true,
        Some(bound) => count < bound,
    }
}

/// Whether an age is within the limit. Without a limit every age is.
pub(crate) fn is_within(limit: Option<u64>, age: u64) -> bool
    ensures { result ≡ grants.is_within limit age }
{
    match limit {
        None => true,
        Some(limit) => age <= limit,
    }
}
