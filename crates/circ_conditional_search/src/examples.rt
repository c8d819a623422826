//! Examples that try the definition of the search: what is found is computed.
ghost use Rattle.std.specs.Prelude.{◌≡◌, [], ◌∷◌, Some, true, false};
ghost use Rattle.circ_theory.specs.Theory.{pair_with, goal};
ghost use Rattle.circ_theory.specs.declared.way.Way.TheVariants.{Forth};
ghost use Rattle.circ_proof.specs.Plain.{Equation_link, Hypothesis_link};
ghost use Rattle.circ_proof.specs.Plain.{Assumption_link, Same_why};
ghost use Rattle.circ_proof.specs.Plain.{no_link, more_links, no_chain, more_chains};
ghost use Rattle.circ_proof.specs.Rules.{Simplify, Reduce, Derive, Done};
ghost use Rattle.circ_plain_search.specs.Examples.{zero_bit, one_bit, hd, tl, zeros, x, s};
ghost use Rattle.circ_plain_search.specs.Numbering.{Proved, Stuck};
ghost use Rattle.circ_conditional_search.specs.Examples.{search_trying, manner, step_counts};
ghost use Rattle.circ_conditional_search.specs.Examples.{gates, gate, no_places};

/// The stored file of a goal with a condition: a gate that is open lets its stream through.
pub fn a_gate_lets_through()
    ensures { search_trying gates no_places (manner 1000000 10000 false)
        ((goal (pair_with x one_bit ∷ []) (gate x s) s ∷ []) ∷ [])
        ≡ Some (Proved (record {
          version = 2;
          table = x ∷ s ∷ gate x s ∷ one_bit ∷ tl s ∷ [];
          places = [];
          certificates = [];
          blocks = record {
            goals = goal (pair_with x one_bit ∷ []) (gate x s) s ∷ [];
            names = record { conds = (0, 3) ∷ []; left = 2; right = 1 } ∷ [];
            steps = Simplify (record {
              left = Assumption_link 0 Forth (0 ∷ []) ∷ [];
              right = [];
            })
                ∷ Derive
                ∷ Reduce (Same_why (record {
                  left = Equation_link 13 Forth [] (3 ∷ 1 ∷ [])
                      (more_chains no_link no_link no_chain) ∷ [];
                  right = [];
                }))
                ∷ Reduce (Same_why (record {
                  left = Equation_link 15 Forth [] (3 ∷ 1 ∷ []) no_chain
                      ∷ Hypothesis_link 0 Forth [] (0 ∷ 4 ∷ [])
                      (more_chains (more_links (Assumption_link 0 Forth []) no_link) no_link
                      no_chain) ∷ [];
                  right = [];
                }))
                ∷ Done ∷ [];
          } ∷ [];
        })) }
{}

/// Without the condition the search is stuck in the case in which the gate is shut.
pub fn a_gate_is_stuck()
    ensures { search_trying gates no_places (manner 1000000 10000 false)
        ((goal [] (gate x s) s ∷ []) ∷ [])
        ≡ Some (Stuck 1 2 zero_bit one_bit
        (pair_with x zero_bit ∷ pair_with (hd s) one_bit ∷ [])) }
{}

/// A gate before `zeros`, without a split of the hidden goal, and with one.
pub fn a_gate_of_zeros()
    ensures plain { step_counts (search_trying gates no_places (manner 1000000 10000 false)
        ((goal [] (gate x zeros) zeros ∷ []) ∷ [])) ≡ Some (4, 1) }
    ensures split { step_counts (search_trying gates no_places (manner 1000000 10000 true)
        ((goal [] (gate x zeros) zeros ∷ []) ∷ [])) ≡ Some (10, 2) }
{}

/// A lemma with a condition: a pass uses it where its condition holds, and then Join uses it once
/// more. Where its condition fails it is not used, and the goal is stuck.
pub fn a_lemma_with_a_condition()
    ensures used { step_counts (search_trying gates no_places (manner 1000000 10000 false)
        ((goal (pair_with x one_bit ∷ []) (gate x s) s ∷ [])
        ∷ (goal [] (gate one_bit (gate one_bit s)) s ∷ []) ∷ [])) ≡ Some (7, 1) }
    ensures unused { search_trying gates no_places (manner 1000000 10000 false)
        ((goal (pair_with x one_bit ∷ []) (gate x s) s ∷ [])
        ∷ (goal [] (gate zero_bit s) s ∷ []) ∷ [])
        ≡ Some (Stuck 2 2 zero_bit one_bit (pair_with (hd s) one_bit ∷ [])) }
{}

/// Stuck behind a split of a hidden goal: the split is the first goal that was taken, its two cases
/// the next, and the head of the first case is stuck.
pub fn a_stuck_case_of_a_hidden_goal()
    ensures { search_trying gates no_places (manner 1000000 10000 true)
        ((goal [] (gate x s) s ∷ []) ∷ [])
        ≡ Some (Stuck 1 4 zero_bit one_bit
        (pair_with x zero_bit ∷ pair_with (hd s) one_bit ∷ [])) }
{}
