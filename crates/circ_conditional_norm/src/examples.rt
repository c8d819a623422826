//! Examples that try the definition of normal forms under rules with conditions. The functions do
//! nothing: each contract is computed.
ghost use Rattle.std.specs.Prelude.{◌≡◌, [], ◌∷◌};
ghost use Rattle.circ_theory.specs.Theory.{pair_with};
ghost use Rattle.circ_rewrite.specs.Examples.{sums, a, b, f, g, h, x};
ghost use Rattle.circ_rewrite.specs.declared.parts.RuleName.TheVariants.{Equation};
ghost use Rattle.circ_rewrite.specs.Replacement.{By_rule, By_assumption, no_pass, more_passes};
ghost use Rattle.circ_rewrite.specs.Replacement.{no_trace, more_traces};
ghost use Rattle.circ_rewrite.specs.Norm.{Normal_form, Budget_spent};
ghost use Rattle.circ_conditional_norm.specs.Norm.{conditional_norm};
ghost use Rattle.circ_conditional_norm.specs.Examples.{two_cases, g_is_b, by_g, by_itself};

/// `f(a)`: the try of `x = b` fails, that of `x = a` holds, and each took a step, as the
/// replacement did. With eight tries around the term no try is made.
pub fn a_failed_try_stays_spent()
    ensures done { conditional_norm 0 sums two_cases [] 3 (f a)
        ≡ Normal_form b (record {
          path = [];
          reason = By_rule (Equation 11) (a ∷ []) (more_passes no_trace no_trace no_pass);
        } ∷ []) 0 }
    ensures spent { conditional_norm 0 sums two_cases [] 2 (f a) ≡ Budget_spent }
    ensures untried { conditional_norm 8 sums two_cases [] 0 (f a) ≡ Normal_form (f a) [] 0 }
{}

/// `h(f(x), g(a))`: two tries fail at the first argument, and are not made again when the second
/// has become `b`.
pub fn tries_before_the_new_subterm_are_not_made_again()
    ensures done { conditional_norm 0 sums (g_is_b ∷ two_cases) [] 3 (h (f x) (g a))
        ≡ Normal_form (h (f x) b) (record {
          path = 1 ∷ [];
          reason = By_rule (Equation 12) (a ∷ []) no_pass;
        } ∷ []) 0 }
    ensures spent { conditional_norm 0 sums (g_is_b ∷ two_cases) [] 2 (h (f x) (g a))
        ≡ Budget_spent }
{}

/// An assumption that is used in a condition takes a step, and is in the trace of the rule.
pub fn an_assumption_in_a_condition()
    ensures { conditional_norm 0 sums (by_g ∷ []) (pair_with (g a) b ∷ []) 3 (f a)
        ≡ Normal_form a (record {
          path = [];
          reason = By_rule (Equation 13) (a ∷ []) (more_passes
              (more_traces [] (By_assumption 0) no_trace) no_trace no_pass);
        } ∷ []) 0 }
{}

/// A rule whose condition asks for the rule again: eight tries inside one another, and the ninth is
/// not made.
pub fn eight_tries_inside_one_another()
    ensures done { conditional_norm 0 sums (by_itself ∷ []) [] 8 (f a) ≡ Normal_form (f a) [] 0 }
    ensures spent { conditional_norm 0 sums (by_itself ∷ []) [] 7 (f a) ≡ Budget_spent }
    ensures around { conditional_norm 5 sums (by_itself ∷ []) [] 3 (f a)
        ≡ Normal_form (f a) [] 0 }
{}
