//! Why a few samples suffice.
ghost use Rattle.pattern_sets.specs.Laws.{LengthsSuffice, SamplesSuffice};

/// Whatever two patterns both cover, the sample of their parts of its length stands for it: a pattern that has no fresh token covers
/// the sample only if it covers the question. And a question longer than all patterns is judged like one that is one token longer.
#[tactic(auto, using(crate::proofs::Sampling::samples_suffice, crate::proofs::Sampling::lengths_suffice))]
pub fn samples_suffice()
    ensures samples { SamplesSuffice }
    ensures lengths { LengthsSuffice }
{}
