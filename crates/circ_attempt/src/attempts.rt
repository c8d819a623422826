//! What is proved of a single attempt, and of what is taken in it.
ghost use Rattle.std.specs.Prelude.{◌≡◌, ◌≤◌, ℕ, Bool, List, true};
ghost use Rattle.circ_term.specs.Limits.{Limit};
ghost use Rattle.circ_term.specs.Tree.{Tree};
ghost use Rattle.circ_theory.specs.Theory.{Theory, Pair};
ghost use Rattle.circ_theory.specs.Goal.{Goal};
ghost use Rattle.circ_special.specs.declared.place.Place.{Place};
ghost use Rattle.circ_conditional_norm.specs.Work.{Out, Past, LeavesAtMost};
ghost use Rattle.circ_attempt.specs.Attempt.{attempt, attempt_limit};
ghost use Rattle.circ_attempt.specs.Rules.{HypothesisRule, may_take};

/// An attempt leaves no more of the budget than there was. No limit ends the search in one, and the
/// search is spent in one only where the attempt may take all steps that are left.
pub fn an_attempt_ends_itself()
    ensures left { (th : Theory) (G : List Place) (earlier hypotheses : List Goal)
        (of_script : List Bool) (conds : List Pair) (s t : Tree) (budget : ℕ) →
        LeavesAtMost budget (attempt th G earlier hypotheses of_script conds s t budget) }
    ensures limit { (th : Theory) (G : List Place) (earlier hypotheses : List Goal)
        (of_script : List Bool) (conds : List Pair) (s t : Tree) (budget : ℕ) (l : Limit) (n : ℕ) →
        attempt th G earlier hypotheses of_script conds s t budget ≡ Past l n → ⊥ }
    ensures spent { (th : Theory) (G : List Place) (earlier hypotheses : List Goal)
        (of_script : List Bool) (conds : List Pair) (s t : Tree) (budget : ℕ) →
        attempt th G earlier hypotheses of_script conds s t budget ≡ Out →
        budget ≤ attempt_limit }
{}

/// No lemma and no rule of the block's own is taken whose new term is the old one.
pub fn a_use_changes_its_term()
    ensures { (r : HypothesisRule) (new old : Tree) → may_take r new old ≡ true → new ≡ old → ⊥ }
{}
