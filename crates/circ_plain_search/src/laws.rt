//! What is proved of the plain search and of the greatest special set. The functions do nothing: a
//! law is a contract.
ghost use Rattle.std.specs.Prelude.{◌≡◌, ◌<◌, ◌+◌, ◌-◌, ℕ, List, [], ◌∷◌, map, Some, Ok};
ghost use Rattle.std.specs.List.{slice_get, Contains};
ghost use Rattle.circ_theory.specs.Signature.{Operator, IsWellSorted};
ghost use Rattle.circ_theory.specs.Theory.{Theory, Derivative, goal};
ghost use Rattle.circ_theory.specs.WellFormed.{IsWellFormed};
ghost use Rattle.circ_theory.specs.Goal.{Goal};
ghost use Rattle.circ_special.specs.declared.place.Place.{Place};
ghost use Rattle.circ_special.specs.Special.{IsSet};
ghost use Rattle.circ_rewrite.specs.Replacement.{Traced};
ghost use Rattle.circ_rewrite.specs.Links.{link_of};
ghost use Rattle.circ_proof.specs.Certified.{due, derivatives_at, start_term, AreCertified};
ghost use Rattle.circ_proof.specs.Proof.{Proof, step_limit};
ghost use Rattle.circ_plain_search.specs.Greatest.{GreatestSpecialSet};
ghost use Rattle.circ_plain_search.specs.BlockRules.{block_rules};
ghost use Rattle.circ_plain_search.specs.Search.{Limits, Standing, Ending, Sides, normal_sides};
ghost use Rattle.circ_plain_search.specs.Search.{turn, Reaches, start};
ghost use Rattle.circ_plain_search.specs.Coming.{Comes, IsSmall, IsReady};
ghost use Rattle.circ_plain_search.specs.Numbering.{Found, Proved};
ghost use Rattle.circ_plain_search.specs.PlainSearch.{PlainSearch, AreSearchable, IsProofOf};

/// A search finds one thing.
pub fn one_answer()
    ensures { (th : Theory) (blocks : List (List Goal)) (limits : Limits) (f g : Found) →
        PlainSearch th blocks limits f → PlainSearch th blocks limits g → f ≡ g }
{}

/// It cannot be that a search finds nothing.
pub fn some_answer()
    ensures { (th : Theory) (blocks : List (List Goal)) (limits : Limits) →
        ((f : Found) → PlainSearch th blocks limits f → ⊥) → ⊥ }
{}

/// What a search in a well-formed theory proves fits the theory and is accepted, with exactly the
/// given goals.
pub fn proved_is_accepted()
    ensures { (th : Theory) → IsWellFormed th →
        (blocks : List (List Goal)) → AreSearchable th blocks → (limits : Limits) (p : Proof) →
        PlainSearch th blocks limits (Proved p) → IsProofOf th blocks p }
{}

/// What a search of such blocks comes to is small.
pub fn standings_are_small()
    ensures { (th : Theory) → IsWellFormed th → (G : List Place) (limits : Limits)
        (blocks : List (List Goal)) → AreSearchable th blocks → (st : Standing) →
        Comes th G limits (start limits blocks) st → IsSmall st }
{}

/// The derivatives of a goal in hand can be made, once its sides are in normal form.
pub fn normal_goals_are_ready()
    ensures { (th : Theory) → IsWellFormed th → (G : List Place) (limits : Limits)
        (blocks : List (List Goal)) → AreSearchable th blocks → (st : Standing) →
        Comes th G limits (start limits blocks) st →
        (g : Goal) (rest : List Goal) → st.queue ≡ g ∷ rest → (n : Sides) →
        normal_sides th (block_rules th st.earlier) [] g.left g.right st.budget ≡ Ok n →
        IsReady th (goal [] n.left n.right) }
{}

/// How a search ends from where it comes to is how it ends.
pub fn what_comes_reaches()
    ensures { (th : Theory) (G : List Place) (limits : Limits) (first st : Standing) (e : Ending) →
        Comes th G limits first st → Reaches th G limits st e → Reaches th G limits first e }
{}

/// Each turn that goes on lowers the rewrite steps that are left or raises the steps made, so a
/// search ends.
pub fn turns_end()
    ensures { (th : Theory) (G : List Place) (limits : Limits) (st next : Standing) →
        turn th G limits st ≡ Ok next →
        next.budget + (step_limit - next.made) < st.budget + (step_limit - st.made) }
{}

/// A theory has one greatest special set with each budget, and one list of traces goes with it.
pub fn one_set()
    ensures { (th : Theory) (budget : ℕ) (G F : List Place) (tss rss : List (List Traced)) →
        GreatestSpecialSet th budget G tss → GreatestSpecialSet th budget F rss →
        (G ≡ F) × (tss ≡ rss) }
{}

/// It cannot be that a theory has no greatest special set.
pub fn some_set()
    ensures { (th : Theory) (budget : ℕ) →
        ((G : List Place) (tss : List (List Traced)) → GreatestSpecialSet th budget G tss → ⊥)
        → ⊥ }
{}

/// In a well-formed theory the greatest special set is a special set, whose places the traces
/// certify as links.
pub fn set_is_certified()
    ensures { (th : Theory) → IsWellFormed th → (budget : ℕ) (G : List Place) (tss : List (List Traced)) →
        GreatestSpecialSet th budget G tss →
        IsSet th G × AreCertified th G (due th G) (map (map link_of) tss) }
{}

/// The start terms of a well-formed theory are well-sorted.
pub fn start_terms_are_sorted()
    ensures { (th : Theory) → IsWellFormed th → (g : Place) (o : Operator) (d : Derivative) →
        slice_get th.signature.ops g.op ≡ Some o → Contains (derivatives_at th g) d →
        IsWellSorted th.signature (start_term o g d) }
{}
