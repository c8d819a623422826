//! What accepted proofs show. The functions do nothing: a law is a contract.
ghost use Rattle.std.specs.Prelude.{◌≡◌, ℕ, List, [], ◌∷◌};
ghost use Rattle.std.specs.List.{Contains};
ghost use Rattle.circ_theory.specs.Theory.{Theory, goal};
ghost use Rattle.circ_theory.specs.WellFormed.{IsWellFormed};
ghost use Rattle.circ_theory.specs.Experiment.{Behaves};
ghost use Rattle.circ_theory.specs.Goal.{Goal};
ghost use Rattle.circ_proof.specs.Proof.{Block, Proof, ProofFor};
ghost use Rattle.circ_proof.specs.Accepted.{Accepted, Derives, FirstFail};
ghost use Rattle.circ_theory.specs.Rewriting.{named};
ghost use Rattle.circ_proof.specs.Plain.{no_link};
ghost use Rattle.circ_proof.specs.Rules.{State, state, map_step, StepOf};
ghost use Rattle.circ_soundness.specs.GateExample.{gates, lets_through, through, gate_table};
ghost use Rattle.circ_soundness.specs.GateExample.{first_step, tails_step, if_x, on, gate, tl};
ghost use Rattle.circ_soundness.specs.GateExample.{x, s};
ghost use Rattle.circ_soundness.specs.Example.{twins, twins_alike, twins_bare, first, second};

/// Where a proof that fits a well-formed theory is accepted, each goal of each block behaves: each
/// fitting experiment gives on its two sides results that are derivable from the goal's
/// conditions.
pub fn goals_behave()
    ensures { (th : Theory) → IsWellFormed th → (p : Proof) → ProofFor th p → Accepted th p →
        (b : Block) → Contains p.blocks b → (g : Goal) → Contains b.goals g →
        Behaves th g }
{}

/// So does each goal that a Derive step of it appended to the hypotheses.
pub fn derived_behave()
    ensures { (th : Theory) → IsWellFormed th → (p : Proof) → ProofFor th p →
        (dss : List (List Goal)) → Derives th p dss →
        (ds : List Goal) → Contains dss ds → (g : Goal) → Contains ds g →
        Behaves th g }
{}

/// No proof is both accepted and refused, a refused one is refused at one number, and an accepted
/// one derives one relation.
pub fn one_verdict()
    ensures not_both { (th : Theory) (p : Proof) (n : ℕ) → Accepted th p → FirstFail th p n → ⊥ }
    ensures one_failure { (th : Theory) (p : Proof) (n m : ℕ) →
        FirstFail th p n → FirstFail th p m → n ≡ m }
    ensures one_relation { (th : Theory) (p : Proof) (dss ess : List (List Goal)) →
        Derives th p dss → Derives th p ess → dss ≡ ess }
{}

/// It cannot be that a proof which fits its theory fails nowhere and is not accepted.
pub fn nothing_left_out()
    ensures { (th : Theory) (p : Proof) → ProofFor th p →
        ((n : ℕ) → FirstFail th p n → ⊥) → (Accepted th p → ⊥) → ⊥ }
{}

/// An accepted proof whose hypothesis is used at a place of its special set, below an operator, so
/// that the laws speak of something. Without the place it fails at that step.
pub fn a_place_is_used()
    ensures theory { IsWellFormed twins }
    ensures fits { ProofFor twins twins_alike }
    ensures accepted { Accepted twins twins_alike }
    ensures so { Behaves twins (goal [] first second) }
    ensures needed { FirstFail twins twins_bare 3 }
{}

/// An accepted proof of a goal with a condition, which uses an equation and a hypothesis with
/// conditions. Without the goal's condition its first step fails, and without the link of the
/// hypothesis's condition its last but one.
pub fn conditions_are_used()
    ensures theory { IsWellFormed gates }
    ensures fits { ProofFor gates lets_through }
    ensures accepted { Accepted gates lets_through }
    ensures so { Behaves gates through }
    ensures given { (b : State) → StepOf gates [] (map_step (named gate_table) first_step)
        (state [] (goal [] (gate x s) s ∷ [])) b → ⊥ }
    ensures followed { (b : State) → StepOf gates []
        (map_step (named gate_table) (tails_step no_link))
        (state (goal (if_x on) (gate on s) s ∷ [])
        (goal (if_x on) (tl (gate on s)) (tl s) ∷ [])) b → ⊥ }
{}
