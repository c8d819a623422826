//! What is proved of the search with conditions. The functions do nothing: a law is a contract.
//! What is proved of the greatest special set, by which it goes, is among the laws of
//! circ_plain_search.
ghost use Rattle.std.specs.Prelude.{◌≡◌, ◌↔◌, ◌<◌, ◌+◌, ◌-◌, List, ◌∷◌, Ok, false};
ghost use Rattle.circ_theory.specs.Theory.{Theory, goal};
ghost use Rattle.circ_theory.specs.WellFormed.{IsWellFormed};
ghost use Rattle.circ_theory.specs.Goal.{Goal};
ghost use Rattle.circ_special.specs.declared.place.Place.{Place};
ghost use Rattle.circ_proof.specs.Proof.{Proof, step_limit};
ghost use Rattle.circ_plain_search.specs.Numbering.{Found, Proved};
ghost use Rattle.circ_plain_search.specs.PlainSearch.{PlainSearch, AreSearchable, IsProofOf};
ghost use Rattle.circ_plain_search.specs.BlockRules.{block_rules};
ghost use Rattle.circ_plain_search.specs.Search.{Limits, Standing, Ending, Sides, start};
ghost use Rattle.circ_conditional_search.specs.ConditionalSearch.{ConditionalSearch};
ghost use Rattle.circ_conditional_search.specs.ConditionalSearch.{CanAllBeSearched};
ghost use Rattle.circ_conditional_search.specs.Coming.{ComesTrying, IsSmallTrying};
ghost use Rattle.circ_conditional_search.specs.Coming.{IsReadyTrying};
ghost use Rattle.circ_conditional_search.specs.Search.{Manner, turn_trying, Finishes};
ghost use Rattle.circ_conditional_search.specs.Search.{normal_sides_trying};

/// A search finds one thing.
pub fn one_answer()
    ensures { (th : Theory) (blocks : List (List Goal)) (manner : Manner) (f g : Found) →
        ConditionalSearch th blocks manner f → ConditionalSearch th blocks manner g → f ≡ g }
{}

/// It cannot be that a search finds nothing.
pub fn some_answer()
    ensures { (th : Theory) (blocks : List (List Goal)) (manner : Manner) →
        ((f : Found) → ConditionalSearch th blocks manner f → ⊥) → ⊥ }
{}

/// What a search in a well-formed theory proves fits the theory and is accepted, with exactly the
/// given goals and their conditions, whether or not hidden goals are split.
pub fn proved_is_accepted()
    ensures { (th : Theory) → IsWellFormed th →
        (blocks : List (List Goal)) → CanAllBeSearched th blocks → (manner : Manner) (p : Proof) →
        ConditionalSearch th blocks manner (Proved p) → IsProofOf th blocks p }
{}

/// What a search of such blocks comes to is small.
pub fn standings_are_small()
    ensures { (th : Theory) → IsWellFormed th → (G : List Place) (manner : Manner)
        (blocks : List (List Goal)) → CanAllBeSearched th blocks → (st : Standing) →
        ComesTrying th G manner (start manner.limits blocks) st → IsSmallTrying st }
{}

/// The derivatives of a goal in hand can be made, once its sides are in normal form under its
/// conditions.
pub fn normal_goals_are_ready()
    ensures { (th : Theory) → IsWellFormed th → (G : List Place) (manner : Manner)
        (blocks : List (List Goal)) → CanAllBeSearched th blocks → (st : Standing) →
        ComesTrying th G manner (start manner.limits blocks) st →
        (g : Goal) (rest : List Goal) → st.queue ≡ g ∷ rest → (n : Sides) →
        normal_sides_trying th (block_rules th st.earlier) g.conds g.left g.right st.budget
        ≡ Ok n → IsReadyTrying th (goal g.conds n.left n.right) }
{}

/// How a search ends from where it comes to is how it ends.
pub fn what_comes_finishes()
    ensures { (th : Theory) (G : List Place) (manner : Manner)
        (first st : Standing) (e : Ending) → ComesTrying th G manner first st →
        Finishes th G manner st e → Finishes th G manner first e }
{}

/// Each turn that goes on lowers the rewrite steps that are left or raises the steps made, so a
/// search ends.
pub fn turns_end()
    ensures { (th : Theory) (G : List Place) (manner : Manner) (st next : Standing) →
        turn_trying th G manner st ≡ Ok next →
        next.budget + (step_limit - next.made) < st.budget + (step_limit - st.made) }
{}

/// Without conditions, and without a split of hidden goals, a search finds what the plain search
/// finds: in a well-formed theory without conditions, for goals without conditions.
pub fn without_conditions_as_the_plain_search()
    ensures { (th : Theory) → IsWellFormed th →
        (blocks : List (List Goal)) → AreSearchable th blocks → (limits : Limits) (f : Found) →
        ConditionalSearch th blocks (record { limits = limits; split = false }) f
        ↔ PlainSearch th blocks limits f }
{}
