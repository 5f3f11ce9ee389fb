//! Laws of mappings, for whoever proves something of one.
ghost use Rattle.mapping.specs.Laws.{OneToOne, PairsAreSubjects, ForwardIsPairs, BackIsPairs, BackUndoesForward};

/// The pairs of a mapping are one to one.
pub fn one_to_one()
    ensures { OneToOne }
{}

/// Both sides of a pair are subjects of any length, each one of its pattern's.
pub fn pairs_are_subjects()
    ensures { PairsAreSubjects }
{}

/// `forward` and `back` are the two directions of the pairs, and each undoes the other.
pub fn back_undoes_forward()
    ensures forward { ForwardIsPairs }
    ensures back { BackIsPairs }
    ensures undoes { BackUndoesForward }
{}
