//! What holds of the definitions alone.
ghost use Rattle.permissions.specs.deny_marks.Marks.{JudgedByMarks};

/// A delivery to a subscription is judged by its marks alone (docs/POLICY.md, "Delivery"): a deny entry that has the subject
/// overlaps the pattern, since the subject is of both. It does nothing when it runs.
#[tactic(auto, using(crate::proofs::deny_marks::Judged::judged_by_marks))]
pub fn judged_by_marks()
    ensures { JudgedByMarks }
{}
