//! What holds of the definitions alone.
ghost use Rattle.hub_laws.specs.grants.Asked.{RoutesAreAsked};
ghost use Rattle.hub_laws.specs.grants.Dropping.{MakesNoDifference, NeverMakesDifference};
ghost use Rattle.hub_laws.specs.grants.Noted.{ResponseHasRequest, AreNoted, MayRespondHasRequest, RequestsArePublished, RequestsAreTold};

/// Tells that it makes no difference when dead grants are dropped. A hub keeps grants that have died of age until something
/// else takes them out; one that drops them at the beginning of each event, from a world where the same is live, answers
/// each event the same.
pub fn any_event()
    ensures { MakesNoDifference }
{}

/// Tells the same of every list of events.
pub fn any_events()
    ensures { NeverMakesDifference }
{}

/// Tells of every history that each grant of a session was noted at the last request on its subject, and has counted the
/// responses since. So whoever may respond has an open request, and each response had one. A request is a publish by which a
/// delivery with that reply has entered for the connection, with whatever reply the message was published.
pub fn any_history()
    ensures noted { AreNoted }
    ensures may_respond { MayRespondHasRequest }
    ensures responses { ResponseHasRequest }
    ensures requests { RequestsArePublished }
{}

/// Tells of every history that its requests are those that its entries tell: a message with that reply was published, and has
/// entered for the connection.
pub fn requests_are_told()
    ensures { RequestsAreTold }
{}

/// Tells of every history that each response route that stands was opened for one request: a session of the requester's account
/// has published a message, whose reply is the route's, in the step in which the exporter has given the route's number.
pub fn routes_are_asked()
    ensures { RoutesAreAsked }
{}
