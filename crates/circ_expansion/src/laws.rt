//! What a derivation shows that is written out. The functions do nothing: a law is a contract.
ghost use Rattle.std.specs.Prelude.{◌≡◌, ℕ, List, [], ◌∷◌, Some};
ghost use Rattle.std.specs.List.{slice_get};
ghost use Rattle.circ_term.specs.Tree.{sort_of};
ghost use Rattle.circ_theory.specs.Theory.{Theory};
ghost use Rattle.circ_theory.specs.WellFormed.{IsWellFormed};
ghost use Rattle.circ_theory.specs.Goal.{Goal};
ghost use Rattle.circ_proof.specs.Proof.{Proof, ProofFor, IsPlain};
ghost use Rattle.circ_proof.specs.Accepted.{Accepted};
ghost use Rattle.circ_entry.specs.Entries.{Written, FitsWritten};
ghost use Rattle.circ_expansion.specs.Pieces.{Pieces};
ghost use Rattle.circ_expansion.specs.Expand.{Yields, Stopped, Background, continued, expansion};
ghost use Rattle.circ_expansion.specs.Machine.{Value, Task, pending, task_step, all_uses, rest_done};
ghost use Rattle.circ_expansion.specs.Machine.{worked_off, tasks_weight, CountsDown};
ghost use Rattle.circ_expansion.specs.Answers.{LeadsOnGoal};
ghost use Rattle.circ_expansion.specs.Goals.{all_goals};

/// What is written out from an accepted proof, for one of its goals and a fitting experiment, leads
/// from the experiment on the goal's left side to that on its right side, with no hypothesis.
pub fn expansion_leads()
    ensures leads { (th : Theory) → IsWellFormed th → (p : Proof) → ProofFor th p → IsPlain p → Accepted th p →
        (n : ℕ) (g : Goal) → slice_get (all_goals p.blocks) n ≡ Some g →
        (ws : List Written) → FitsWritten th ws (sort_of g.left) → (units left : ℕ) (xs : Pieces) →
        expansion units th p n ws ≡ Yields xs left → LeadsOnGoal th xs ws g }
    ensures never_stops { (th : Theory) → IsWellFormed th →
        (p : Proof) → ProofFor th p → IsPlain p → Accepted th p →
        (n : ℕ) (g : Goal) → slice_get (all_goals p.blocks) n ≡ Some g →
        (ws : List Written) → FitsWritten th ws (sort_of g.left) → (units : ℕ) →
        expansion units th p n ws ≡ Stopped → ⊥ }
{}

/// The same is worked off a stack of tasks: it begins with one, a step does a part of the first
/// task or puts tasks before the others, each step counts a unit or leaves less to do, and it ends
/// when no task is left. So no use has to stand inside another.
pub fn expansion_is_worked_off()
    ensures begins { (units : ℕ) (th : Theory) (p : Proof) (n : ℕ) (ws : List Written) →
        expansion units th p n ws ≡ worked_off units th p n ws }
    ensures goes_on { (f : Background) (j : Task) (js : List Task) (vs : List Value) (n : ℕ) →
        rest_done f (pending (j ∷ js) vs) n ≡
        continued (task_step (all_uses f) f j js vs n) (rest_done f) }
    ensures counts_down { (f : Background) (j : Task) (js : List Task) (vs : List Value) (n : ℕ) →
        CountsDown n (tasks_weight (j ∷ js)) (task_step (all_uses f) f j js vs n) }
    ensures ends { (f : Background) (vs : List Value) (n : ℕ) →
        rest_done f (pending [] vs) n ≡ Yields vs n }
{}
