//! What is proved of differences. The functions do nothing: a law is a contract.
ghost use Rattle.std.specs.Prelude.{ℕ, List};
ghost use Rattle.std.specs.List.{AllByRecursion};
ghost use Rattle.circ_theory.specs.Theory.{Theory};
ghost use Rattle.circ_theory.specs.WellFormed.{IsWellFormed};
ghost use Rattle.circ_theory.specs.Goal.{Goal};
ghost use Rattle.circ_plain_search.specs.PlainSearch.{IsSearchable};
ghost use Rattle.circ_refute.specs.PlainRefutation.{refutation, refutations};
ghost use Rattle.circ_refute.specs.Difference.{IsRight, IsRightDecision};

/// Where the sides of a goal are told apart, the experiment fits the goal, and leads them to two
/// different constants of one case list, by derivations from the theory.
pub fn differences_are_right()
    ensures { (th : Theory) → IsWellFormed th → (g : Goal) → IsSearchable th g →
        (derives rewrites : ℕ) → IsRight th g (refutation th derives rewrites g).refuted }
{}

/// Where several goals are tried, the goal that is told apart is the one whose number is given.
pub fn decisions_are_right()
    ensures { (th : Theory) → IsWellFormed th → (goals : List Goal) →
        AllByRecursion (IsSearchable th) goals → (derives rewrites : ℕ) →
        IsRightDecision th goals (refutations th 1 derives rewrites goals) }
{}
