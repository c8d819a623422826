//! What is proved of normal forms under rules with conditions. The functions do nothing: a law is a
//! contract.
ghost use Rattle.std.specs.Prelude.{◌≡◌, ◌+◌, ◌-◌, ◌≤◌, ◌++◌, ℕ, List, [], length, map, Some};
ghost use Rattle.std.specs.List.{AllByRecursion};
ghost use Rattle.circ_term.specs.Tree.{Tree, at, replaced, size_of, depth_of};
ghost use Rattle.circ_term.specs.Limits.{node_limit, depth_limit, IsWithinLimits};
ghost use Rattle.circ_theory.specs.Signature.{Signature, IsWellSorted};
ghost use Rattle.circ_theory.specs.Theory.{Pair, IsWellSortedPair};
ghost use Rattle.circ_theory.specs.WellFormed.{IsWellFormed};
ghost use Rattle.circ_proof.specs.Link.{Setting};
ghost use Rattle.circ_rewrite.specs.declared.parts.Rule.{Rule};
ghost use Rattle.circ_rewrite.specs.Replacement.{Traced};
ghost use Rattle.circ_rewrite.specs.Due.{AreUnconditional};
ghost use Rattle.circ_rewrite.specs.Norm.{Normal_form, norm};
ghost use Rattle.circ_rewrite.specs.Links.{IsRuleOf, AreLinks};
ghost use Rattle.circ_chain.specs.Chain.{under};
ghost use Rattle.circ_conditional_norm.specs.Tries.{due_trying};
ghost use Rattle.circ_conditional_norm.specs.Norm.{conditional_norm, inner_norm, run_from};
ghost use Rattle.circ_conditional_norm.specs.Sure.{IsSureForm, run_behind};
ghost use Rattle.circ_conditional_norm.specs.Within.{Room, run_in, go_on, whole_form};

/// In a setting of links let the rules be equations of the theory and visible hypotheses, with
/// their conditions, and the assumptions those of the setting, well-sorted. Then, however many
/// tries stand around, the traces from a well-sorted term are links that lead to its normal form,
/// which is well-sorted, and of the term's sort.
pub fn conditional_traces_are_links()
    ensures { (c : Setting) → IsWellFormed c.theory → (rules : List Rule)
        → AllByRecursion (IsRuleOf c.theory c.hypotheses) rules
        → AllByRecursion (IsWellSortedPair c.theory.signature) c.assumptions
        → (tries budget left : ℕ) (t u : Tree) (traces : List Traced)
        → IsWellSorted c.theory.signature t
        → conditional_norm tries c.theory.signature rules c.assumptions budget t
        ≡ Normal_form u traces left
        → AreLinks c traces t u }
{}

/// Where no rule has conditions, each normal form is as it is without tries, however many stand
/// around.
pub fn without_conditions_as_before()
    ensures { (sig : Signature) (rules : List Rule) (assumptions : List Pair) (tries k : ℕ)
        (t : Tree) → AreUnconditional rules
        → conditional_norm tries sig rules assumptions k t ≡ norm sig rules assumptions k t }
{}

/// A normal form on the way to which no rule with conditions was reached is the normal form however
/// many tries stand around the term, and its steps are its traces.
pub fn sure_forms_answer()
    ensures { (sig : Signature) (rules : List Rule) (assumptions : List Pair) (tries k : ℕ)
        (t v : Tree) (ts : List Traced)
        → IsSureForm sig rules assumptions t v ts node_limit depth_limit
        → IsWithinLimits t → length ts ≤ k
        → conditional_norm tries sig rules assumptions k t ≡ Normal_form v ts (k - length ts) }
{}

/// The same of a subterm, whatever stands before it in the whole term and however many tries stand
/// around: where the bounds fit, a run that comes to it goes on behind it.
pub fn sure_forms_stand_in_terms()
    ensures { (sig : Signature) (rules : List Rule) (assumptions : List Pair)
        (room big deep most k : ℕ) (p : List ℕ) (w t v x : Tree) (before ts : List Traced)
        → IsSureForm sig rules assumptions t v ts big deep
        → at w p ≡ Some t → replaced w p v ≡ Some x
        → size_of w + big ≤ node_limit + size_of t
        → depth_of w ≤ depth_limit → length p + deep ≤ depth_limit
        → length ts ≤ k → k ≤ most
        → run_from (due_trying (inner_norm room sig rules assumptions) sig rules assumptions)
        most p w before k
        ≡ run_behind
        (due_trying (inner_norm room sig rules assumptions) sig rules assumptions)
        (most - length ts) p x (before ++ map (under p) ts) (k - length ts) }
{}

/// A whole term is normalised as a term by itself whose bounds are the limits: it never outgrows
/// them.
pub fn whole_terms_are_within()
    ensures { (sig : Signature) (rules : List Rule) (assumptions : List Pair) (room k : ℕ)
        (t : Tree)
        → whole_form (run_in
        (due_trying (inner_norm room sig rules assumptions) sig rules assumptions)
        (record { big = node_limit; deep = depth_limit }) k [] t [] k)
        ≡ run_from (due_trying (inner_norm room sig rules assumptions) sig rules assumptions)
        k [] t [] k }
{}

/// What comes of a subterm by itself, within the bounds that the rest leaves it, says what comes of
/// the term in which it stands, tries, faults and what is left of the budget included.
pub fn subterms_go_by_themselves()
    ensures { (sig : Signature) (rules : List Rule) (assumptions : List Pair) (room most k : ℕ)
        (B b : Room) (p r : List ℕ) (w t : Tree) (before us : List Traced)
        → B.big ≤ node_limit → B.deep ≤ depth_limit → length p + b.deep ≡ B.deep
        → at w p ≡ Some t → size_of w + b.big ≡ B.big + size_of t
        → size_of w ≤ B.big → depth_of w ≤ B.deep → k ≤ most
        → run_in (due_trying (inner_norm room sig rules assumptions) sig rules assumptions)
        B most (p ++ r) w (before ++ map (under p) us) k
        ≡ go_on (due_trying (inner_norm room sig rules assumptions) sig rules assumptions)
        B p w before
        (run_in (due_trying (inner_norm room sig rules assumptions) sig rules assumptions)
        b most r t us k) }
{}
