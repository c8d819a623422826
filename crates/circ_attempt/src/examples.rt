//! Examples that try the definition of the search: what is found is computed.
ghost use Rattle.std.specs.Prelude.{◌≡◌, [], ◌∷◌, Some, None, true, false};
ghost use Rattle.circ_theory.specs.Theory.{goal};
ghost use Rattle.circ_theory.specs.declared.way.Way.TheVariants.{Forth, Back};
ghost use Rattle.circ_plain_search.specs.Numbering.{Spent};
ghost use Rattle.circ_conditional_search.specs.Examples.{step_counts};
ghost use Rattle.circ_attempt.specs.Examples.{in_words, no_word, p, vanishing, vanishing_turned};
ghost use Rattle.circ_attempt.specs.Examples.{spread, spread_wide, spread_beside};
ghost use Rattle.circ_attempt.specs.Examples.{turned_words, spread_turned};
ghost use Rattle.circ_attempt.specs.Examples.{growing, one_word, many_words, circling, two_derived};
ghost use Rattle.circ_attempt.specs.Rules.{own_rule, read_as};

/// How hypotheses are read: one whose sides match each other in order, one that grows back unless
/// it was a goal of the script, and else forth where this can be.
pub fn how_hypotheses_are_read()
    ensures forth { own_rule 5 true vanishing ≡ Some (read_as 5 Forth vanishing false) }
    ensures back { own_rule 5 true vanishing_turned ≡ Some (read_as 5 Back vanishing_turned false) }
    ensures even { own_rule 5 true turned_words ≡ Some (read_as 5 Forth turned_words true) }
    ensures of_script { own_rule 5 true growing ≡ Some (read_as 5 Forth growing false) }
    ensures derived { own_rule 5 false growing ≡ Some (read_as 5 Back growing false) }
    ensures never { own_rule 5 false (goal [] p no_word) ≡ None }
{}

/// The derived goal closes in the first round of an attempt, by the goal itself in both summands.
pub fn closed_in_the_first_round()
    ensures on { step_counts (in_words true 6 1 ((vanishing ∷ []) ∷ [])) ≡ Some (3, 1) }
    ensures spent { in_words true 5 1 ((vanishing ∷ []) ∷ []) ≡ Some (Spent 5 1 1) }
    ensures off { in_words false 6 1 ((vanishing ∷ []) ∷ []) ≡ Some (Spent 3 1 1) }
{}

/// The same hypothesis the other way about, which is read from right to left.
pub fn a_hypothesis_that_is_read_back()
    ensures { step_counts (in_words true 6 1 ((vanishing_turned ∷ []) ∷ [])) ≡ Some (3, 1) }
{}

/// The second goal Joins up to content in the first round, before it is derived.
pub fn closed_before_it_is_derived()
    ensures { step_counts (in_words true 14 1 ((spread ∷ spread_wide ∷ []) ∷ [])) ≡ Some (4, 1) }
{}

/// The second goal Joins up to content: `S` is set aside, and the hypothesis joins the rests. Its
/// one rewrite brings the right side in order.
pub fn joined_by_what_the_sums_leave()
    ensures on { step_counts (in_words true 13 1 ((spread ∷ spread_beside ∷ []) ∷ [])) ≡ Some (4, 1) }
    ensures spent { in_words true 12 1 ((spread ∷ spread_beside ∷ []) ∷ []) ≡ Some (Spent 12 1 2) }
{}

/// An attempt of eight rounds, a step in each, which is forgotten.
pub fn an_attempt_of_eight_rounds()
    ensures off { in_words false 100 1 ((growing ∷ one_word ∷ []) ∷ []) ≡ Some (Spent 0 1 1) }
    ensures on { in_words true 100 1 ((growing ∷ one_word ∷ []) ∷ []) ≡ Some (Spent 8 1 1) }
{}

/// An attempt takes a hundred steps at most: with twelve words eight rounds take ninety-six, and
/// with thirteen the attempt ends in the eighth round.
pub fn an_attempt_of_a_hundred_steps()
    ensures twelve { in_words true 150 1 ((growing ∷ many_words 11 ∷ []) ∷ [])
        ≡ Some (Spent 96 1 1) }
    ensures thirteen { in_words true 150 1 ((growing ∷ many_words 12 ∷ []) ∷ [])
        ≡ Some (Spent 100 1 1) }
{}

/// An attempt ends where the sides have stood before: behind two rounds.
pub fn an_attempt_in_a_circle()
    ensures { in_words true 100 1 ((circling ∷ two_derived ∷ []) ∷ []) ≡ Some (Spent 2 1 1) }
{}

/// And so do the lemma passes: the first block takes seven steps, and two passes one each.
pub fn lemma_passes_in_a_circle()
    ensures { in_words true 100 1
        ((turned_words ∷ []) ∷ (circling ∷ []) ∷ (two_derived ∷ []) ∷ []) ≡ Some (Spent 9 1 5) }
{}

/// A lemma whose sides match each other is taken in order: after `P ; Q = Q ; P` the sum goes
/// behind, before the goal is derived.
pub fn an_ordered_lemma()
    ensures { step_counts (in_words true 29 2 ((turned_words ∷ []) ∷ (spread_turned ∷ []) ∷ []))
        ≡ Some (7, 2) }
{}
