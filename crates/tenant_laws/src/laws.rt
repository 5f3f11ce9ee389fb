//! What holds of the definitions alone.
ghost use Rattle.tenant_laws.specs.Runs.{OthersAreUnseen, TenantsAreIsolated};

/// Tells of two runs of events, under policies that give a closed set of accounts the same part, in which the users of these accounts
/// do the same at the same moments: they meet the same answers, the same waits for them after each, and the same subscriptions
/// of theirs stand, whatever all others do. Numbers of entries and subscriptions aside, which tell how many events there were.
pub fn tenants_are_isolated()
    ensures { TenantsAreIsolated }
{}

/// Tells of one event of others, where each session on a connection of a closed set is of an account of the set, and no other is:
/// what waits for the set, whether a delivery was missed, and its subscriptions stay as they were.
pub fn others_are_unseen()
    ensures { OthersAreUnseen }
{}
