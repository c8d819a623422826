//! What is proved of LANG and of expressions. The functions do nothing: a law is a contract.
ghost use Rattle.std.specs.Prelude.{◌≡◌, ◌↔◌, ℕ, List, [], ◌∷◌, true, false, ◌&&◌, ◌||◌};
ghost use Rattle.std.specs.Prelude.{codes};
ghost use Rattle.circ_term.specs.Tree.{Tree, sort_of};
ghost use Rattle.circ_term.specs.Limits.{IsWithinLimits};
ghost use Rattle.circ_term.specs.Substitution.{Substitution, instance};
ghost use Rattle.circ_theory.specs.Goal.{Goal};
ghost use Rattle.circ_theory.specs.Signature.{IsSubstitution, IsWellSorted};
ghost use Rattle.circ_theory.specs.Theory.{IsEquation, HasNoConditions, goal};
ghost use Rattle.circ_theory.specs.Derivable.{Derivable};
ghost use Rattle.circ_theory.specs.Experiment.{Behaves};
ghost use Rattle.circ_regex.specs.Matches.{Letter, a_letter, b_letter, Expression, Matches};
ghost use Rattle.circ_regex.specs.Matches.{Cut, Repeats, no_word, empty_word, one_letter};
ghost use Rattle.circ_regex.specs.Matches.{either_of, in_turn, any_number};
ghost use Rattle.circ_regex.specs.Grammar.{IsTextOfRegex, byte_limit};
ghost use Rattle.circ_regex.specs.Lang.{LANG, lang_sort, or_term, and_term, acc_term, da_term};
ghost use Rattle.circ_regex.specs.Lang.{db_term, star_term, product_term, sum_term, when_term};
ghost use Rattle.circ_regex.specs.Member.{member, value, HasWord, expression_term};

use crate::MOST_BYTES;

/// Bytes spell one expression at most.
pub fn read_in_one_way()
    ensures { (bytes : List ℕ) (e f : Expression) →
        IsTextOfRegex bytes e → IsTextOfRegex bytes f → e ≡ f }
{}

/// Examples: what some bytes spell. Sums and products nest to the right, and a star binds tightest.
pub fn texts_as_examples()
    ensures sum { IsTextOfRegex (codes "a+b+1")
        (either_of (one_letter a_letter) (either_of (one_letter b_letter) empty_word)) }
    ensures product { IsTextOfRegex (codes "ab0")
        (in_turn (one_letter a_letter) (in_turn (one_letter b_letter) no_word)) }
    ensures star { IsTextOfRegex (codes "ab*") (in_turn (one_letter a_letter)
        (any_number (one_letter b_letter))) }
    ensures group { IsTextOfRegex (codes "(ab)*") (any_number
        (in_turn (one_letter a_letter) (one_letter b_letter))) }
    ensures blank { (e : Expression) → IsTextOfRegex (codes "a b") e → ⊥ }
    ensures empty { (e : Expression) → IsTextOfRegex [] e → ⊥ }
{}

/// Examples: which words `a*` and `a*b` match.
pub fn words_as_examples()
    ensures star { Matches (any_number (one_letter a_letter)) (a_letter ∷ a_letter ∷ []) }
    ensures empty { Matches (any_number (one_letter a_letter)) [] }
    ensures product { Matches (in_turn (any_number (one_letter a_letter)) (one_letter b_letter))
        (a_letter ∷ b_letter ∷ []) }
    ensures other { Matches (any_number (one_letter a_letter)) (a_letter ∷ b_letter ∷ []) → ⊥ }
{}

/// The term of an expression is well-sorted in LANG.
pub fn terms_are_sorted()
    ensures sorted { (e : Expression) → IsWellSorted LANG.signature (expression_term e) }
    ensures sort { (e : Expression) → sort_of (expression_term e) ≡ lang_sort }
{}

/// The term of an expression that was read is within the limits.
pub fn terms_are_within_limits()
    ensures { (bytes : List ℕ) (e : Expression) → IsTextOfRegex bytes e →
        IsWithinLimits (expression_term e) }
{}

/// No equation of LANG has conditions.
pub fn lang_has_no_conditions()
    ensures { HasNoConditions LANG }
{}

/// What the operators on languages mean, on terms of any kind: the words of a sum, of a product, of
/// a star, behind a letter and under a test.
pub fn words_by_operators()
    ensures sum { (t u : Tree) (w : List Letter) →
        member (sum_term t u) w ≡ (member t w || member u w) }
    ensures product { (t u : Tree) (w : List Letter) →
        (HasWord (product_term t u) w ↔ Cut (HasWord t) (HasWord u) w) }
    ensures star { (t : Tree) (w : List Letter) →
        (HasWord (star_term t) w ↔ Repeats (HasWord t) w) }
    ensures behind_a { (t : Tree) (w : List Letter) →
        member (da_term t) w ≡ member t (a_letter ∷ w) }
    ensures behind_b { (t : Tree) (w : List Letter) →
        member (db_term t) w ≡ member t (b_letter ∷ w) }
    ensures under { (x t : Tree) (w : List Letter) →
        member (when_term x t) w ≡ (value x && member t w) }
{}

/// What the operators on bits mean.
pub fn values_by_operators()
    ensures or { (x y : Tree) → value (or_term x y) ≡ (value x || value y) }
    ensures and { (x y : Tree) → value (and_term x y) ≡ (value x && value y) }
    ensures acc { (t : Tree) → value (acc_term t) ≡ member t [] }
{}

/// Each equation of LANG is true: under each substitution, its variables ground or not, both sides
/// have the same words and the same value.
pub fn equations_are_true()
    ensures words { (e : Goal) (σ : Substitution) → IsEquation LANG e →
        IsSubstitution LANG.signature σ → (w : List Letter) →
        member (instance σ e.left) w ≡ member (instance σ e.right) w }
    ensures values { (e : Goal) (σ : Substitution) → IsEquation LANG e →
        IsSubstitution LANG.signature σ → value (instance σ e.left) ≡ value (instance σ e.right) }
{}

/// What follows by LANG has the same words and the same value.
pub fn derivations_keep_words()
    ensures words { (s t : Tree) → Derivable LANG [] s t → (w : List Letter) →
        member s w ≡ member t w }
    ensures values { (s t : Tree) → Derivable LANG [] s t → value s ≡ value t }
{}

/// The term of an expression has the words that the expression matches.
pub fn members_are_matches()
    ensures { (e : Expression) (w : List Letter) →
        (HasWord (expression_term e) w ↔ Matches e w) }
{}

/// Where the terms of two expressions behave alike, each word is matched by both or by neither.
pub fn expressions_that_behave_match()
    ensures { (e f : Expression) →
        Behaves LANG (goal [] (expression_term e) (expression_term f)) →
        (w : List Letter) → (Matches e w ↔ Matches f w) }
{}

/// Where each word is matched by both or by neither, the terms of two expressions behave alike: the
/// equations of LANG leave out no equality of expressions.
pub fn expressions_that_match_behave()
    ensures { (e f : Expression) → ((w : List Letter) → (Matches e w ↔ Matches f w)) →
        Behaves LANG (goal [] (expression_term e) (expression_term f)) }
{}

/// The limit of the code is the one that the definitions state.
pub fn limit_is_stated()
    ensures { MOST_BYTES ≡ byte_limit }
{}
