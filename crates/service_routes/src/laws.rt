//! Laws of routes as they are seen at a moment, for whoever keeps dead ones in memory.
ghost use Rattle.service_routes.specs.Laws.{DeadForGood, FullByLife, FullTogether, NoneElsewhere, OpenedBySeen, OthersStay, SeenByLife, SpentBySeen};

/// What is seen of routes at a moment are those that live. It is the same whether dead ones stand in memory or not, whatever is
/// opened or ended meanwhile.
pub fn seen_by_life()
    ensures seen { SeenByLife }
    ensures full { FullByLife }
    ensures opened { OpenedBySeen }
    ensures spent { SpentBySeen }
    ensures dead { DeadForGood }
{}

/// Routes may be opened one after the other exactly where there is room for all of them together, and those of one exporter
/// take no room of another.
pub fn opens_together()
    ensures together { FullTogether }
    ensures others { OthersStay }
{}

/// The subject of each route begins with the token `_R_`.
pub fn answers_to_routes()
    ensures { NoneElsewhere }
{}
