//! What is proved of Join up to content. The functions do nothing: a law is a contract.
ghost use Rattle.std.specs.Prelude.{◌≡◌, ℕ, List, Some};
ghost use Rattle.circ_term.specs.Tree.{Tree};
ghost use Rattle.circ_theory.specs.Signature.{Signature};
ghost use Rattle.circ_theory.specs.Goal.{Goal};
ghost use Rattle.circ_special.specs.declared.place.Place.{Place};
ghost use Rattle.circ_conditional_norm.specs.Tries.{Normaliser};
ghost use Rattle.circ_plain_search.specs.BlockRules.{HaveNoConditions};
ghost use Rattle.circ_plain_search.specs.Joining.{HypothesisUse, joined};
ghost use Rattle.circ_content_join.specs.Joining.{joined_by_content, IsFoundOrPast};

/// What Join finds without contents is not lost: where the hypotheses have no conditions, Join up to
/// content finds something too, unless a term passes a limit.
pub fn no_join_is_lost()
    ensures { (normal : Normaliser) (sig : Signature) (G : List Place) (H : List Goal) →
        HaveNoConditions H → (path : List ℕ) (a b : Tree) (uses : List HypothesisUse) →
        joined G H path a b ≡ Some uses → (budget : ℕ) →
        IsFoundOrPast (joined_by_content normal sig G H path a b budget) }
{}
