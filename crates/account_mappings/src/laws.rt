//! A law of the drawing, for whoever relies on the weights.
ghost use Rattle.account_mappings.specs.Laws.{FairDraws};

/// Of weights that add up to a hundred at most, each destination has as many of the hundred draws as its weight.
pub fn fair_draws()
    ensures { FairDraws }
{}
