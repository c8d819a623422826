//! What is proved of normal forms, and examples that try their definition. The functions do
//! nothing: a law is a contract.
ghost use Rattle.std.specs.Prelude.{◌≡◌, ℕ, List, [], ◌∷◌};
ghost use Rattle.std.specs.List.{AllByRecursion};
ghost use Rattle.circ_term.specs.Tree.{Tree};
ghost use Rattle.circ_theory.specs.Signature.{Signature, IsWellSorted};
ghost use Rattle.circ_theory.specs.Theory.{Theory, Pair, IsWellSortedPair, HasNoConditions};
ghost use Rattle.circ_theory.specs.WellFormed.{IsWellFormed};
ghost use Rattle.circ_theory.specs.Goal.{Goal};
ghost use Rattle.circ_proof.specs.Link.{Setting};
ghost use Rattle.circ_rewrite.specs.declared.parts.Rule.{Rule};
ghost use Rattle.circ_rewrite.specs.declared.parts.RuleName.TheVariants.{Equation};
ghost use Rattle.circ_rewrite.specs.Replacement.{Traced, By_rule, By_assumption, By_content};
ghost use Rattle.circ_rewrite.specs.Replacement.{no_pass};
ghost use Rattle.circ_rewrite.specs.Matching.{MatchingDecides};
ghost use Rattle.circ_rewrite.specs.Due.{due_under, AreUnconditional};
ghost use Rattle.circ_rewrite.specs.Norm.{Normal_form, Budget_spent, norm};
ghost use Rattle.circ_rewrite.specs.Reductions.{IsReduction};
ghost use Rattle.circ_rewrite.specs.Links.{IsRuleOf, AreLinks};
ghost use Rattle.circ_rewrite.specs.TheoryRules.{theory_rules};
ghost use Rattle.circ_rewrite.specs.Examples.{sums, a, b, plus, f, g, h, f_is, g_is, sum_is};
ghost use Rattle.circ_rewrite.specs.Examples.{first_is, b_is};
ghost use Rattle.circ_rewrite.specs.Examples.{languages, acc, union, letter_a, letter_b, no, yes};
ghost use Rattle.circ_rewrite.specs.Examples.{empty_words, b_has};

/// Matching, as normal forms are defined by it, is that there is a substitution, and only one.
pub fn matching_decides()
    ensures { (pattern term : Tree) → MatchingDecides pattern term }
{}

/// The traces of a normal form lead to it, each by what is due where it is made, and nothing is due
/// in it. The budget pays for each.
pub fn traces_lead()
    ensures { (sig : Signature) (rules : List Rule) (assumptions : List Pair) (budget left : ℕ)
        (t u : Tree) (traces : List Traced)
        → norm sig rules assumptions budget t ≡ Normal_form u traces left
        → IsReduction (due_under sig rules assumptions) budget t u traces left }
{}

/// In a setting of links let the rules be equations of the theory and visible hypotheses, without
/// conditions, and the assumptions those of the setting, well-sorted. Then the traces from a
/// well-sorted term are links that lead to its normal form, which is well-sorted, and of the term's
/// sort.
pub fn traces_are_links()
    ensures { (c : Setting) → IsWellFormed c.theory → (rules : List Rule)
        → AllByRecursion (IsRuleOf c.theory c.hypotheses) rules
        → AreUnconditional rules
        → AllByRecursion (IsWellSortedPair c.theory.signature) c.assumptions
        → (budget left : ℕ) (t u : Tree) (traces : List Traced)
        → IsWellSorted c.theory.signature t
        → norm c.theory.signature rules c.assumptions budget t ≡ Normal_form u traces left
        → AreLinks c traces t u }
{}

/// `b + (b + a)`: the inner sum becomes canonical, then the whole sum. No rule is tried before, so
/// that `x + x = b` is not used.
pub fn sums_are_sorted()
    ensures { norm sums (sum_is ∷ []) [] 10 (plus b (plus b a))
        ≡ Normal_form (plus a b) (
        record { path = 1 ∷ []; reason = By_content 2 (plus a b) } ∷
        record { path = []; reason = By_content 2 (plus a b) } ∷ []) 8 }
{}

/// `b + a` becomes `a + b` before the rule `x + y = x` is tried, so that it comes to `a`.
pub fn rules_come_after_the_canonical_form()
    ensures { norm sums (first_is ∷ []) [] 10 (plus b a)
        ≡ Normal_form a (
        record { path = []; reason = By_content 2 (plus a b) } ∷
        record { path = []; reason = By_rule (Equation 2) (a ∷ b ∷ []) no_pass } ∷ []) 8 }
{}

/// With an operator that is idempotent alone, `h(h(a, b), h(a, b))` becomes `h(a, b)` at once.
pub fn same_arguments_are_one()
    ensures { norm sums [] [] 10 (h (h a b) (h a b))
        ≡ Normal_form (h a b) (record { path = []; reason = By_content 5 (h a b) } ∷ []) 9 }
{}

/// Under the assumption `b = f(a)` the term `f(f(b))` becomes `f(f(f(a)))`, and then `a` by the
/// rule `f(x) = x`, the inner applications first.
pub fn assumptions_come_first()
    ensures { norm sums (f_is ∷ []) (b_is ∷ []) 10 (f (f b))
        ≡ Normal_form a (
        record { path = 0 ∷ 0 ∷ []; reason = By_assumption 0 } ∷
        record { path = 0 ∷ 0 ∷ []; reason = By_rule (Equation 0) (a ∷ []) no_pass } ∷
        record { path = 0 ∷ []; reason = By_rule (Equation 0) (a ∷ []) no_pass } ∷
        record { path = []; reason = By_rule (Equation 0) (a ∷ []) no_pass } ∷ []) 6 }
{}

/// A rule that gives back its left side spends each budget.
pub fn a_budget_is_spent()
    ensures { norm sums (g_is ∷ []) [] 5 (g a) ≡ Budget_spent }
{}

/// A budget can be just enough, and with none a term in which nothing is due has its normal form.
pub fn a_budget_is_enough()
    ensures just { norm sums (f_is ∷ []) [] 1 (f a)
        ≡ Normal_form a (
        record { path = []; reason = By_rule (Equation 0) (a ∷ []) no_pass } ∷ []) 0 }
    ensures nothing { norm sums (f_is ∷ []) [] 0 (g a) ≡ Normal_form (g a) [] 0 }
{}

/// `acc(b + a)` becomes `acc(a + b)`, which is taken apart, and each part from the left. The terms
/// of a trace are those of the rule's variables in their order.
pub fn parts_go_from_the_left()
    ensures done { norm languages empty_words [] 100 (acc (union letter_b letter_a))
        ≡ Normal_form no (
        record { path = 0 ∷ []; reason = By_content 6 (union letter_a letter_b) } ∷
        record { path = []; reason = By_rule (Equation 20) (letter_a ∷ letter_b ∷ []) no_pass } ∷
        record { path = 0 ∷ []; reason = By_rule (Equation 18) [] no_pass } ∷
        record { path = 1 ∷ []; reason = By_rule (Equation 19) [] no_pass } ∷
        record { path = []; reason = By_rule (Equation 0) (no ∷ []) no_pass } ∷ []) 95 }
    ensures spent { norm languages empty_words [] 4 (acc (union letter_b letter_a))
        ≡ Budget_spent }
{}

/// The same under the assumption `acc(b) = 1`.
pub fn an_assumption_before_a_rule()
    ensures { norm languages empty_words (b_has ∷ []) 100 (acc (union letter_b letter_a))
        ≡ Normal_form yes (
        record { path = 0 ∷ []; reason = By_content 6 (union letter_a letter_b) } ∷
        record { path = []; reason = By_rule (Equation 20) (letter_a ∷ letter_b ∷ []) no_pass } ∷
        record { path = 0 ∷ []; reason = By_rule (Equation 18) [] no_pass } ∷
        record { path = 1 ∷ []; reason = By_assumption 0 } ∷
        record { path = []; reason = By_rule (Equation 0) (yes ∷ []) no_pass } ∷ []) 95 }
{}

/// The rules of a well-formed theory are rules of it, whatever goals were proved before.
pub fn theory_rules_are_rules()
    ensures { (th : Theory) → IsWellFormed th → (goals : List Goal)
        → AllByRecursion (IsRuleOf th goals) (theory_rules th) }
{}

/// A theory without conditions has rules without conditions.
pub fn theory_rules_are_unconditional()
    ensures { (th : Theory) → HasNoConditions th → AreUnconditional (theory_rules th) }
{}
