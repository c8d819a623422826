//! Examples that try the definition of the search: what is found is computed.
ghost use Rattle.std.specs.Prelude.{◌≡◌, List, [], ◌∷◌, Option, Some};
ghost use Rattle.circ_theory.specs.declared.way.Way.TheVariants.{Forth};
ghost use Rattle.circ_theory.specs.Theory.{goal, pair_with};
ghost use Rattle.circ_proof.specs.Plain.{Equation_link, Hypothesis_link, no_chain};
ghost use Rattle.circ_proof.specs.Plain.{Assumption_link, Same_why, Split_why};
ghost use Rattle.circ_proof.specs.Plain.{no_why, more_whys};
ghost use Rattle.circ_proof.specs.Rules.{Reduce, Derive, Done};
ghost use Rattle.circ_plain_search.specs.Numbering.{Proved, Stuck, Spent};
ghost use Rattle.circ_special.specs.Special.{place};
ghost use Rattle.circ_plain_search.specs.Numbering.{special};
ghost use Rattle.circ_plain_search.specs.Examples.{search, limits, bits, bits_set, zero_bit};
ghost use Rattle.circ_plain_search.specs.Examples.{one_bit, zeros, ones, x, s, t, tl, odd, zip};
ghost use Rattle.circ_plain_search.specs.Examples.{plus, f, g, parts_goal, odd_zip, plain_name};
ghost use Rattle.circ_plain_search.specs.Examples.{adders, adders_set, adders_goal};
ghost use Rattle.circ_plain_search.specs.Examples.{numbers, from_zero};

/// Equal sides are reduced at once.
pub fn equal_sides()
    ensures { search bits bits_set (limits 0 0) ((goal [] zeros zeros ∷ []) ∷ [])
        ≡ Some (Proved (record {
          version = 1;
          table = zeros ∷ [];
          places = [];
          certificates = [];
          blocks = record {
            goals = goal [] zeros zeros ∷ [];
            names = plain_name 0 0 ∷ [];
            steps = Reduce (Same_why (record { left = []; right = [] })) ∷ Done ∷ [];
          } ∷ [];
        })) }
{}

/// A stream in its odd and even parts: the goal is derived once, and is a hypothesis for its tail.
/// Each term is in the table once, behind its subterms.
pub fn odd_and_even_parts()
    ensures { search bits bits_set (limits 100 5) ((parts_goal ∷ []) ∷ [])
        ≡ Some (Proved (record {
          version = 1;
          table = s ∷ odd s ∷ tl s ∷ odd (tl s) ∷ parts_goal.left ∷ [];
          places = [];
          certificates = [];
          blocks = record {
            goals = parts_goal ∷ [];
            names = plain_name 4 0 ∷ [];
            steps = Derive
                ∷ Reduce (Same_why (record {
                  left = Equation_link 9 Forth [] (1 ∷ 3 ∷ []) no_chain
                      ∷ Equation_link 7 Forth [] (0 ∷ []) no_chain ∷ [];
                  right = [];
                }))
                ∷ Reduce (Same_why (record {
                  left = Equation_link 10 Forth [] (1 ∷ 3 ∷ []) no_chain
                      ∷ Equation_link 8 Forth (1 ∷ []) (0 ∷ []) no_chain
                      ∷ Hypothesis_link 0 Forth [] (2 ∷ []) no_chain ∷ [];
                  right = [];
                }))
                ∷ Done ∷ [];
          } ∷ [];
        })) }
{}

/// Without a Derive step the budget is spent before a step is made.
pub fn no_derive_step()
    ensures { search bits bits_set (limits 100 0) ((parts_goal ∷ []) ∷ []) ≡ Some (Spent 0 0 0) }
{}

/// The heads of `zeros` and `ones` differ, and hold nothing to split on.
pub fn heads_differ()
    ensures { search bits bits_set (limits 100 5) ((goal [] zeros ones ∷ []) ∷ [])
        ≡ Some (Stuck 1 2 zero_bit one_bit []) }
{}

/// `x + x = 0` is split on `x`, and holds in both cases.
pub fn a_split()
    ensures { search bits bits_set (limits 100 5) ((goal [] (plus x x) zero_bit ∷ []) ∷ [])
        ≡ Some (Proved (record {
          version = 1;
          table = x ∷ plus x x ∷ zero_bit ∷ [];
          places = [];
          certificates = [];
          blocks = record {
            goals = goal [] (plus x x) zero_bit ∷ [];
            names = plain_name 1 2 ∷ [];
            steps = Reduce (Split_why (record { left = []; right = [] }) 0
                (more_whys (Same_why (record {
                  left = Assumption_link 0 Forth (0 ∷ [])
                      ∷ Assumption_link 0 Forth (1 ∷ [])
                      ∷ Equation_link 0 Forth [] (2 ∷ []) no_chain ∷ [];
                  right = [];
                }))
                (more_whys (Same_why (record {
                  left = Assumption_link 0 Forth (0 ∷ [])
                      ∷ Assumption_link 0 Forth (1 ∷ [])
                      ∷ Equation_link 2 Forth [] [] no_chain ∷ [];
                  right = [];
                })) no_why))) ∷ Done ∷ [];
          } ∷ [];
        })) }
{}

/// `x + x = x` is stuck in the case `x = 1`.
pub fn a_stuck_case()
    ensures { search bits bits_set (limits 100 5) ((goal [] (plus x x) x ∷ []) ∷ [])
        ≡ Some (Stuck 1 1 zero_bit one_bit (pair_with x one_bit ∷ [])) }
{}

/// A goal that stays a sum with itself inside is a hypothesis below the sum, so the proof carries
/// the places.
pub fn a_place_is_used()
    ensures { search adders adders_set (limits 100 5) ((adders_goal ∷ []) ∷ [])
        ≡ Some (Proved (record {
          version = 1;
          table = s ∷ f s ∷ g s ∷ t ∷ [];
          places = place 9 1 ∷ [];
          certificates = (Equation_link 11 Forth [] (3 ∷ 0 ∷ []) no_chain ∷ [])
              ∷ (Equation_link 12 Forth [] (3 ∷ 0 ∷ []) no_chain ∷ []) ∷ [];
          blocks = record {
            goals = adders_goal ∷ [];
            names = plain_name 1 2 ∷ [];
            steps = Derive
                ∷ Reduce (Same_why (record {
                  left = Equation_link 13 Forth [] (0 ∷ []) no_chain ∷ [];
                  right = Equation_link 15 Forth [] (0 ∷ []) no_chain ∷ [];
                }))
                ∷ Reduce (Same_why (record {
                  left = Equation_link 14 Forth [] (0 ∷ []) no_chain
                      ∷ Hypothesis_link 0 Forth (1 ∷ []) (0 ∷ []) no_chain ∷ [];
                  right = Equation_link 16 Forth [] (0 ∷ []) no_chain ∷ [];
                }))
                ∷ Done ∷ [];
          } ∷ [];
        })) }
{}

/// Without the place, Join fails and so the goal of the tails is derived, and so on.
pub fn without_the_place()
    ensures { search adders (special [] []) (limits 100 1) ((adders_goal ∷ []) ∷ [])
        ≡ Some (Spent 4 1 2) }
{}

/// The goal of the first block is a lemma for the second: a pass replaces the whole left side, and
/// then Join uses it once more.
pub fn a_lemma_pass()
    ensures { search bits bits_set (limits 100 5)
        ((goal [] odd_zip s ∷ []) ∷ (goal [] (odd (zip odd_zip t)) s ∷ []) ∷ [])
        ≡ Some (Proved (record {
          version = 1;
          table = s ∷ t ∷ zip s t ∷ odd_zip ∷ tl s ∷ tl t
              ∷ zip odd_zip t ∷ odd (zip odd_zip t) ∷ [];
          places = [];
          certificates = [];
          blocks = record {
            goals = goal [] odd_zip s ∷ [];
            names = plain_name 3 0 ∷ [];
            steps = Derive
                ∷ Reduce (Same_why (record {
                  left = Equation_link 7 Forth [] (2 ∷ []) no_chain
                      ∷ Equation_link 9 Forth [] (0 ∷ 1 ∷ []) no_chain ∷ [];
                  right = [];
                }))
                ∷ Reduce (Same_why (record {
                  left = Equation_link 8 Forth [] (2 ∷ []) no_chain
                      ∷ Equation_link 10 Forth (0 ∷ 0 ∷ []) (0 ∷ 1 ∷ []) no_chain
                      ∷ Equation_link 10 Forth (0 ∷ []) (1 ∷ 4 ∷ []) no_chain
                      ∷ Hypothesis_link 0 Forth [] (4 ∷ 5 ∷ []) no_chain ∷ [];
                  right = [];
                }))
                ∷ Done ∷ [];
          } ∷ record {
            goals = goal [] (odd (zip odd_zip t)) s ∷ [];
            names = plain_name 7 0 ∷ [];
            steps = Reduce (Same_why (record {
              left = Hypothesis_link 0 Forth [] (3 ∷ 1 ∷ []) no_chain
                  ∷ Hypothesis_link 0 Forth [] (0 ∷ 1 ∷ []) no_chain ∷ [];
              right = [];
            })) ∷ Done ∷ [];
          } ∷ [];
        })) }
{}

/// The streams of numbers from zero never meet a hypothesis: three Derive steps, two of which
/// follow a Simplify step, and three Reduce steps.
pub fn derive_steps_are_spent()
    ensures { search numbers (special [] []) (limits 100 3) ((from_zero ∷ []) ∷ [])
        ≡ Some (Spent 12 3 8) }
{}

/// Two rewrite steps are due, and one is there.
pub fn rewrite_steps_are_spent()
    ensures { search bits bits_set (limits 1 5)
        ((goal [] (plus zero_bit (plus zero_bit x)) x ∷ []) ∷ [])
        ≡ Some (Spent 1 0 0) }
{}
