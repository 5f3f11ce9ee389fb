//! Laws of explanations, for whoever proves something of one.
ghost use Rattle.explain.specs.Laws.{ShowsEach, ShowsOutside};

/// The allow entries that are shown for a subscription are those that were looked at and don't have all subjects of its
/// pattern; the subject beside each is the pattern's, and not the entry's.
#[tactic(auto, using(crate::proofs::Shown::shows_outside, crate::proofs::Shown::shows_each))]
pub fn shows_what_entries_lack()
    ensures outside { ShowsOutside }
    ensures each { ShowsEach }
{}
