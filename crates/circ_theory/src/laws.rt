//! What is proved of derivations, experiments and limits, and examples that try the definitions.
//! The functions do nothing: a law is a contract.
ghost use Rattle.std.specs.Prelude.{◌≡◌, ℕ, List, [], ◌∷◌, codes, Some, None, map};
ghost use Rattle.circ_term.specs.Tree.{Tree, Var, App, none, more, sort_of};
ghost use Rattle.circ_term.specs.Substitution.{Substitution, instance};
ghost use Rattle.circ_form.specs.declared.forms.Piece.TheVariants.{Hole, Word};
ghost use Rattle.circ_form.specs.declared.forms.FormFault.TheVariants.{NoWord, BadWord};
ghost use Rattle.circ_theory.specs.declared.TheConstants.{MOST_SORTS, MOST_VARS, MOST_OPS};
ghost use Rattle.circ_theory.specs.declared.TheConstants.{MOST_EQUATIONS, MOST_DERIVATIVES};
ghost use Rattle.circ_theory.specs.declared.TheConstants.{MOST_ARGS, MOST_PARAMS, MOST_CASES};
ghost use Rattle.circ_theory.specs.declared.TheConstants.{MOST_CONDITIONS};
ghost use Rattle.circ_theory.specs.Limits.{sort_limit, variable_limit, operator_limit};
ghost use Rattle.circ_theory.specs.Limits.{equation_limit, derivative_limit};
ghost use Rattle.circ_theory.specs.Limits.{argument_limit, parameter_limit, constant_limit};
ghost use Rattle.circ_theory.specs.Limits.{condition_limit};
ghost use Rattle.circ_form.specs.Form.{pieces_of, form_fault};
ghost use Rattle.circ_theory.specs.Signature.{IsWellSorted, IsSubstitution};
ghost use Rattle.circ_pairs.specs.Pair.{Pair, Within, instance_pair};
ghost use Rattle.circ_theory.specs.Theory.{Theory};
ghost use Rattle.circ_pairs.specs.Variables.{IsInOrder};
ghost use Rattle.circ_theory.specs.Derivable.{Derivable, Gives};
ghost use Rattle.circ_theory.specs.Experiment.{Fits, on, BehavesFrom};
ghost use Rattle.circ_theory.specs.WellFormed.{IsWellFormed};
ghost use Rattle.circ_theory.specs.Examples.{bits, zero_bit, negation, streams, head};
ghost use Rattle.circ_theory.specs.Examples.{swapped, on_variables, plain_goal};

/// An instance of what is derivable is derivable from the instances of the premises.
pub fn derivable_instances()
    ensures { (th : Theory) (H : List Pair) (s t : Tree) (σ : Substitution)
        → IsSubstitution th.signature σ → Derivable th H s t
        → Derivable th (map (instance_pair σ) H) (instance σ s) (instance σ t) }
{}

/// What is derivable stays so under more premises.
pub fn more_premises()
    ensures { (th : Theory) (H K : List Pair) (s t : Tree)
        → Within H K → Derivable th H s t → Derivable th K s t }
{}

/// Premises that follow from others may be cut.
pub fn premises_cut()
    ensures { (th : Theory) (H K : List Pair) (s t : Tree)
        → Gives th H K → Derivable th H s t → Derivable th K s t }
{}

/// Well-sorted terms of one sort that are derivable from one another behave alike, whatever their
/// sort, under the same premises.
pub fn derivable_pairs_behave()
    ensures { (th : Theory) → IsWellFormed th → (H : List Pair) (s t : Tree)
        → IsWellSorted th.signature s → IsWellSorted th.signature t → sort_of t ≡ sort_of s
        → Derivable th H s t → BehavesFrom th H s t }
{}

/// With `not(0) = 1` and `not(1) = 0`, `not(not(0)) = 0` is derivable.
pub fn double_negation()
    ensures { Derivable bits [] (negation (negation zero_bit)) zero_bit }
{}

/// The experiment that takes the head fits streams, and gives the head of a term.
pub fn head_of_a_stream()
    ensures fits { Fits streams (head ∷ []) 1 }
    ensures result { (t : Tree) → on (head ∷ []) t ≡ App 0 0 (more t none) }
{}

/// A substitution acts at all places at once.
pub fn swap_at_once()
    ensures { instance swapped (on_variables 0 1) ≡ on_variables 1 0 }
{}

/// Variables are numbered by first occurrence, the left side first.
pub fn numbered_left_first()
    ensures in_order { IsInOrder (plain_goal (on_variables 0 1) (on_variables 1 0)) }
    ensures out_of_order { IsInOrder (plain_goal (on_variables 1 0) (on_variables 0 1)) → ⊥ }
{}

/// The limits of the code are those that the definitions state.
pub fn limits_are_stated()
    ensures sorts { MOST_SORTS ≡ sort_limit }
    ensures variables { MOST_VARS ≡ variable_limit }
    ensures operators { MOST_OPS ≡ operator_limit }
    ensures equations { MOST_EQUATIONS ≡ equation_limit }
    ensures derivatives { MOST_DERIVATIVES ≡ derivative_limit }
    ensures arguments { MOST_ARGS ≡ argument_limit }
    ensures parameters { MOST_PARAMS ≡ parameter_limit }
    ensures constants { MOST_CASES ≡ constant_limit }
    ensures conditions { MOST_CONDITIONS ≡ condition_limit }
{}
