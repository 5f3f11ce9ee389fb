//! What holds of the definitions alone.
ghost use Rattle.tenant_laws.specs.worlds.Laws.{OthersLeavePart, OwnCommandsAgree, SessionsStayApart};

/// Tells of a closed set of accounts and their connections, in a world whose policy, sessions, subscriptions and response routes
/// keep it apart from others: a command of theirs comes to the same as in a world that holds their part alone; a command of
/// others leaves that part as it is; and each session stays on its side. The policy in force must be one that would change nothing if
/// it came into force again.
pub fn commands_stay_within()
    ensures own { OwnCommandsAgree }
    ensures others { OthersLeavePart }
    ensures sessions { SessionsStayApart }
{}
