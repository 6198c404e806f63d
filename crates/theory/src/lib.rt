// The theory of the checker: each function stands for the theorem in its contract, and does nothing.

#![tactic(auto)]

ghost use Rattle.rules.specs.Law.{LawOfHistories};
ghost use Rattle.theory.specs.Soundness.{ResolventsFollow, SubsumedFollow, BlockedRepairs, EliminationKeeps, EliminationRestores};

// A resolvent is met wherever its parents are.
pub fn resolvents_follow()
    ensures { ResolventsFollow }
{}

// A clause is met wherever one that subsumes it is.
pub fn subsumed_follow()
    ensures { SubsumedFollow }
{}

// The repair of a blocked clause by its pivot meets it and harms no other.
pub fn blocked_repairs()
    ensures { BlockedRepairs }
{}

// The elimination of a covered variable keeps satisfiability, both ways.
pub fn elimination_keeps()
    ensures { EliminationKeeps }
{}

// The clauses of a covered variable can be restored, whatever their order.
pub fn elimination_restores()
    ensures { EliminationRestores }
{}

// The law of histories.
pub fn law_of_histories()
    ensures { LawOfHistories }
{}
