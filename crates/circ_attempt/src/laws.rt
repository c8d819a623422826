//! What is proved of the search with `--rewrite`. The functions do nothing: a law is a contract.
ghost use Rattle.std.specs.Prelude.{◌≡◌, ◌↔◌, ◌<◌, ◌≤◌, ◌+◌, ◌-◌, ℕ, List, [], ◌∷◌, ◌++◌};
ghost use Rattle.std.specs.Prelude.{length, drop, Ok, None, Bool, false, true};
ghost use Rattle.circ_term.specs.Tree.{Tree};
ghost use Rattle.circ_theory.specs.Theory.{Theory, goal};
ghost use Rattle.circ_theory.specs.WellFormed.{IsWellFormed};
ghost use Rattle.circ_theory.specs.Goal.{Goal};
ghost use Rattle.circ_special.specs.declared.place.Place.{Place};
ghost use Rattle.circ_proof.specs.Proof.{Proof, step_limit};
ghost use Rattle.circ_proof.specs.Rules.{ProofStep};
ghost use Rattle.circ_conditional_norm.specs.Work.{Made};
ghost use Rattle.circ_plain_search.specs.BlockRules.{block_rules};
ghost use Rattle.circ_plain_search.specs.Numbering.{Found, Proved};
ghost use Rattle.circ_plain_search.specs.PlainSearch.{IsProofOf};
ghost use Rattle.circ_plain_search.specs.Search.{Standing, Ending, Sides};
ghost use Rattle.circ_conditional_search.specs.Coming.{IsSmallTrying, IsReadyTrying};
ghost use Rattle.circ_conditional_search.specs.ConditionalSearch.{ConditionalSearch};
ghost use Rattle.circ_conditional_search.specs.ConditionalSearch.{CanAllBeSearched};
ghost use Rattle.circ_conditional_search.specs.Search.{Manner, Finishes, open_turn_trying};
ghost use Rattle.circ_conditional_search.specs.Search.{turn_trying, normal_sides_trying};
ghost use Rattle.circ_attempt.specs.Attempt.{derived_rules};
ghost use Rattle.circ_attempt.specs.Following.{derives_in, script_left, left_of_script};
ghost use Rattle.circ_attempt.specs.Following.{GoesOn, Begins, Follows, HasDerived};
ghost use Rattle.circ_attempt.specs.RewritingSearch.{RewritingSearch, ComesRewriting};
ghost use Rattle.circ_attempt.specs.RewritingSearch.{first_going};
ghost use Rattle.circ_attempt.specs.Rules.{own_rules, derived_of_script, lemmas_of};
ghost use Rattle.circ_attempt.specs.Search.{Conduct, Going, going, afresh, of_script, is_attempted};
ghost use Rattle.circ_attempt.specs.Search.{attempt_here};
ghost use Rattle.circ_attempt.specs.Search.{attempt_turn, turn_rewriting, FinishesRewriting};

/// A search finds one thing.
pub fn one_answer()
    ensures { (th : Theory) (blocks : List (List Goal)) (conduct : Conduct) (f g : Found) →
        RewritingSearch th blocks conduct f → RewritingSearch th blocks conduct g → f ≡ g }
{}

/// It cannot be that a search finds nothing.
pub fn some_answer()
    ensures { (th : Theory) (blocks : List (List Goal)) (conduct : Conduct) →
        ((f : Found) → RewritingSearch th blocks conduct f → ⊥) → ⊥ }
{}

/// What a search in a well-formed theory proves fits the theory and is accepted, with exactly the
/// given goals and their conditions.
pub fn proved_is_accepted()
    ensures { (th : Theory) → IsWellFormed th →
        (blocks : List (List Goal)) → CanAllBeSearched th blocks → (conduct : Conduct) (p : Proof) →
        RewritingSearch th blocks conduct (Proved p) → IsProofOf th blocks p }
{}

/// What a search of such blocks comes to is small.
pub fn standings_are_small()
    ensures { (th : Theory) → IsWellFormed th → (G : List Place) (conduct : Conduct)
        (blocks : List (List Goal)) → CanAllBeSearched th blocks → (x : Going) →
        ComesRewriting th G conduct (first_going conduct blocks) x → IsSmallTrying x.standing }
{}

/// The derivatives of a goal in hand can be made, once its sides are in normal form under its
/// conditions.
pub fn normal_goals_are_ready()
    ensures { (th : Theory) → IsWellFormed th → (G : List Place) (conduct : Conduct)
        (blocks : List (List Goal)) → CanAllBeSearched th blocks → (x : Going) →
        ComesRewriting th G conduct (first_going conduct blocks) x →
        (g : Goal) (rest : List Goal) → x.standing.queue ≡ g ∷ rest → (n : Sides) →
        normal_sides_trying th (block_rules th x.standing.earlier) g.conds g.left g.right
        x.standing.budget ≡ Ok n → IsReadyTrying th (goal g.conds n.left n.right) }
{}

/// While a block has goals, a turn puts steps behind the block's, and behind the hypotheses one for
/// each Derive step; when it has none, a turn begins the next block.
pub fn steps_follow()
    ensures turns { (th : Theory) (G : List Place) (conduct : Conduct) (x next : Going) →
        turn_rewriting th G conduct x ≡ Ok next → Follows x.standing next.standing }
    ensures goal { (th : Theory) (G : List Place) (conduct : Conduct) (x next : Going) →
        turn_rewriting th G conduct x ≡ Ok next → (g : Goal) (rest : List Goal) →
        x.standing.queue ≡ g ∷ rest → GoesOn x.standing next.standing }
    ensures done { (th : Theory) (G : List Place) (conduct : Conduct) (x next : Going) →
        turn_rewriting th G conduct x ≡ Ok next → x.standing.queue ≡ [] →
        Begins x.standing next.standing }
{}

/// What a search comes to has a hypothesis for each Derive step of its block, behind the goals of
/// earlier blocks.
pub fn derives_are_hypotheses()
    ensures { (th : Theory) (G : List Place) (conduct : Conduct) (blocks : List (List Goal))
        (x : Going) → ComesRewriting th G conduct (first_going conduct blocks) x →
        HasDerived th x.standing }
{}

/// What is told of steps that stand behind others, and the rules of what stands behind other
/// hypotheses, stand behind what is told of those, and behind their rules.
pub fn rules_stand_behind()
    ensures script { (th : Theory) (goals : ℕ) (xs ys : List (ProofStep Tree)) →
        derived_of_script th goals (xs ++ ys)
        ≡ derived_of_script th goals xs ++ derived_of_script th (script_left th goals xs) ys }
    ensures left { (th : Theory) (goals : ℕ) (xs ys : List (ProofStep Tree)) →
        script_left th goals (xs ++ ys) ≡ script_left th (script_left th goals xs) ys }
    ensures derives { (th : Theory) (goals : ℕ) (xs : List (ProofStep Tree)) →
        length (derived_of_script th goals xs) ≡ derives_in xs }
    ensures own { (number : ℕ) (bs cs : List Bool) (hs gs : List Goal) → length bs ≡ length hs →
        own_rules number (bs ++ cs) (hs ++ gs)
        ≡ own_rules number bs hs ++ own_rules (number + length hs) cs gs }
    ensures derived { (earlier hs gs : List Goal) (bs cs : List Bool) →
        length earlier ≤ length hs → length bs ≡ length (drop (length earlier) hs) →
        derived_rules earlier (hs ++ gs) (bs ++ cs)
        ≡ derived_rules earlier hs bs ++ own_rules (length hs) cs gs }
    ensures lemmas { (th : Theory) (number : ℕ) (xs ys : List Goal) →
        lemmas_of th number (xs ++ ys)
        ≡ lemmas_of th number xs ++ lemmas_of th (number + length xs) ys }
{}

/// There are no more rules than hypotheses, and no more lemmas than goals.
pub fn rules_are_few()
    ensures own { (earlier hs : List Goal) (bs : List Bool) →
        length (derived_rules earlier hs bs) ≤ length hs }
    ensures lemmas { (th : Theory) (number : ℕ) (gs : List Goal) →
        length (lemmas_of th number gs) ≤ length gs }
{}

/// How a block's own rules grow where it goes on: those of its new hypotheses stand behind the
/// others.
pub fn own_rules_grow()
    ensures script { (th : Theory) (st next : Standing) (more : GoesOn st next) →
        of_script th next
        ≡ of_script th st ++ derived_of_script th (left_of_script th st) more.more_steps }
    ensures left { (th : Theory) (st next : Standing) (more : GoesOn st next) →
        left_of_script th next ≡ script_left th (left_of_script th st) more.more_steps }
    ensures rules { (th : Theory) (st next : Standing) (more : GoesOn st next) →
        HasDerived th st → derived_rules next.earlier next.hypotheses (of_script th next)
        ≡ derived_rules st.earlier st.hypotheses (of_script th st)
        ++ own_rules (length st.hypotheses)
        (derived_of_script th (left_of_script th st) more.more_steps) more.more_hypotheses }
{}

/// A block begins without rules of its own, with its whole script left; the lemmas of the goals of
/// the block before stand behind the others then.
pub fn lemmas_grow()
    ensures script { (th : Theory) (st next : Standing) → Begins st next →
        of_script th next ≡ [] }
    ensures left { (th : Theory) (st next : Standing) → Begins st next →
        left_of_script th next ≡ length next.goals }
    ensures rules { (th : Theory) (st next : Standing) → Begins st next →
        derived_rules next.earlier next.hypotheses (of_script th next) ≡ [] }
    ensures lemmas { (th : Theory) (st next : Standing) → Begins st next →
        lemmas_of th 0 next.earlier
        ≡ lemmas_of th 0 st.earlier ++ lemmas_of th (length st.earlier) st.goals }
{}

/// How a search ends from where it comes to is how it ends.
pub fn what_comes_finishes()
    ensures { (th : Theory) (G : List Place) (conduct : Conduct)
        (first x : Going) (e : Ending) → ComesRewriting th G conduct first x →
        FinishesRewriting th G conduct x e → FinishesRewriting th G conduct first e }
{}

/// Each turn that goes on lowers the rewrite steps that are left or raises the steps made, so a
/// search ends.
pub fn turns_end()
    ensures { (th : Theory) (G : List Place) (conduct : Conduct) (x next : Going) →
        turn_rewriting th G conduct x ≡ Ok next →
        next.standing.budget + (step_limit - next.standing.made)
        < x.standing.budget + (step_limit - x.standing.made) }
{}

/// Without the flag each turn is that of the search with conditions, and so is what is found.
pub fn without_the_flag()
    ensures turns { (th : Theory) (G : List Place) (conduct : Conduct) → conduct.rewrite ≡ false →
        (x : Going) →
        turn_rewriting th G conduct x ≡ afresh (turn_trying th G conduct.manner x.standing) }
    ensures found { (th : Theory) (blocks : List (List Goal)) (conduct : Conduct) (f : Found) →
        conduct.rewrite ≡ false →
        RewritingSearch th blocks conduct f ↔ ConditionalSearch th blocks conduct.manner f }
    ensures ends { (th : Theory) (G : List Place) (conduct : Conduct) → conduct.rewrite ≡ false →
        (st : Standing) (e : Ending) → Finishes th G conduct.manner st e →
        FinishesRewriting th G conduct (going st []) e }
{}

/// An attempt that closes nothing is forgotten but for its steps: the turn is the one that is made
/// without it, with what it left of the budget.
pub fn an_attempt_is_forgotten()
    ensures { (th : Theory) (G : List Place) (manner : Manner) (st : Standing) (g : Goal)
        (rest : List Goal) (left : ℕ) → is_attempted th st g ≡ true →
        attempt_here th G st g ≡ Made None left →
        attempt_turn th G manner st g rest
        ≡ open_turn_trying th manner (record st { budget = left }) g rest }
{}
