//! What holds of the definitions alone.
ghost use Rattle.tenant_laws.specs.parts.Least.{AgainByLeast, HasItself, LeastInPart};
ghost use Rattle.tenant_laws.specs.parts.Laws.{AgainInPart, HasInPart, IsWhatApplies, KeepsInPart, LoginsInPart, OpensInPart, PrunesInPart, SpendsInPart, TermsInPart, UsersArePart, UsersInPart, ViewsInPart, ViewsStay};

/// Tells that the response routes of a set of exporters, and the last numbers that they gave, go by the routes that are opened and
/// ended of these exporters alone, by the moment, and by the rows that another policy has again. What others open changes nothing.
pub fn routes_by_part()
    ensures has { HasInPart }
    ensures opens { OpensInPart }
    ensures spends { SpendsInPart }
    ensures prunes { PrunesInPart }
    ensures keeps { KeepsInPart }
{}

/// Tells that the part of a set of accounts is what applies to them and nothing else, so that neither the version nor
/// other accounts change it. Tells of a closed set that the views of its messages, the terms of its service rows and its
/// users go by its own part of the policy alone, and that its messages are seen in its own accounts alone.
pub fn policy_by_part()
    ensures applies { IsWhatApplies }
    ensures views { ViewsInPart }
    ensures stay { ViewsStay }
    ensures terms { TermsInPart }
    ensures again { AgainInPart }
    ensures filtered { UsersArePart }
    ensures users { UsersInPart }
    ensures logins { LoginsInPart }
{}

/// Tells that import rows of one service stand for each other: the row that another policy has again is the same for a row and for
/// the least of its service, and a policy has each of its own rows again, on the terms that the row has.
pub fn rows_of_one_service()
    ensures again { AgainByLeast }
    ensures itself { HasItself }
    ensures part { LeastInPart }
{}
