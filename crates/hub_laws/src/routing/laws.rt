//! What follows from the routing guarantee of each step.
ghost use Rattle.hub_laws.specs.routing.Denied.{DenyOverridesPublish, DenyOverridesSubscribe, DenyOverridesDelivery, DeniedReachesNobody};
ghost use Rattle.hub_laws.specs.routing.Reach.{NothingUnadmitted, NobodyLeftOut, UnsentReachesNobody, ReachesItsViews, AccountsApart, OneOfEachGroup};
ghost use Rattle.hub_laws.specs.routing.Seen.{SeenByWays, ReportedByRows};
ghost use Rattle.hub_laws.specs.routing.Within.{RoutesWithin, SeenWithin, ReachesItsSet};
ghost use Rattle.hub_laws.specs.routing.Standing.{RefusedChangesNothing, ReloadLeavesNoneRefused};

/// Tells that of a user's lists a deny entry wins over every allow entry. A publish that one has the subject of is denied,
/// unless a reply grant lets it pass; a subscription that one covers is denied; and nobody is sent a message for a
/// subscription where one has its subject.
pub fn deny_overrides()
    ensures publish { DenyOverridesPublish }
    ensures subscribe { DenyOverridesSubscribe }
    ensures delivery { DenyOverridesDelivery }
{}

/// Tells that what isn't admitted reaches nobody. Each item of a delivery, and each delivery that comes into an outbox, is
/// for a subscription that stood before and may be sent the message in one of its views.
pub fn nothing_unadmitted()
    ensures { NothingUnadmitted }
{}

/// Tells that a message that its account's mappings don't send on reaches nobody: its one item tells so, and nothing comes into an
/// outbox.
pub fn unsent_reaches_nobody()
    ensures { UnsentReachesNobody }
{}

/// Tells that nobody is left out. Who may be sent a message in one of its views, for a subscription of no queue group and
/// without a limit, has an item, unless it is a request for which there is no response route.
pub fn nobody_left_out()
    ensures { NobodyLeftOut }
{}

/// Tells that of each queue group with a member that may be sent a message exactly one has an item, in each view.
pub fn one_of_each_group()
    ensures { OneOfEachGroup }
{}

/// Tells that a refused step leaves state and event as they were.
pub fn refused_changes_nothing()
    ensures { RefusedChangesNothing }
{}

/// Tells that after a reload no subscription stands that the new policy refuses, and none of a session that it has ended.
pub fn reload_leaves_none_refused()
    ensures { ReloadLeavesNoneRefused }
{}

/// Tells that a message reaches sessions of those accounts alone in which it has a view, and there under the view's subject.
pub fn reaches_its_views()
    ensures { ReachesItsViews }
{}

/// Tells that each view of a message is its publisher's own, on the published subject, or comes across an import row of the policy
/// in force, which an export admits, or is the response on a live route of the account. A row is reported exactly where the
/// subject that it makes would be too long.
pub fn seen_by_ways()
    ensures seen { SeenByWays }
    ensures reported { ReportedByRows }
{}

/// Tells that a message of an account reaches sessions of that account, and a session of another one across an import row between
/// the two alone, which an export admits, or as the response to a request of that one.
pub fn accounts_apart()
    ensures { AccountsApart }
{}

/// Tells that a message of an account reaches only accounts of its closed set, and so it is of its views. A set of accounts is
/// closed where no import row has one end in it and one outside; nor does a response route lead out of it, ever.
pub fn reaches_its_set()
    ensures routes { RoutesWithin }
    ensures seen { SeenWithin }
    ensures reaches { ReachesItsSet }
{}

/// Tells that a publish that is denied reaches nobody: no session, outbox or subscription changes, and of the response routes those
/// stand that live.
pub fn denied_reaches_nobody()
    ensures { DeniedReachesNobody }
{}
