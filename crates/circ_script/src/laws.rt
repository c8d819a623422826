//! What is proved of scripts. The functions do nothing: a law is a contract.
ghost use Rattle.std.specs.Prelude.{◌≡◌, ℕ, List, Err};
ghost use Rattle.circ_theory.specs.Theory.{Theory};
ghost use Rattle.circ_theory.specs.WellFormed.{IsWellFormed};
ghost use Rattle.circ_read.specs.declared.cause.Cause.{Cause};
ghost use Rattle.circ_read.specs.Causes.{AreAlike};
ghost use Rattle.circ_script.specs.declared.job.Job.{Job};
ghost use Rattle.circ_script.specs.Script.{Script};
ghost use Rattle.circ_script.specs.Fit.{IsFit, IsScriptFor};
ghost use Rattle.circ_script.specs.Refusing.{FirstScriptCause};
ghost use Rattle.circ_script.specs.ReadsAsScript.{ReadsAsScript, ScriptOrCause};

/// In a theory and for a job, bytes read as one script at most, or else have one first cause, but
/// that any two of several readings may be shown.
pub fn read_in_one_way()
    ensures script { (th : Theory) (job : Job) (bytes : List ℕ) (s t : Script) →
        ReadsAsScript th job bytes s → ReadsAsScript th job bytes t → t ≡ s }
    ensures either { (th : Theory) (job : Job) (bytes : List ℕ) (s : Script) (n : ℕ)
        (c : Cause) → ReadsAsScript th job bytes s → FirstScriptCause th job bytes n c → ⊥ }
    ensures number { (th : Theory) (job : Job) (bytes : List ℕ) (n m : ℕ) (c d : Cause) →
        FirstScriptCause th job bytes n c → FirstScriptCause th job bytes m d → m ≡ n }
    ensures cause { (th : Theory) (job : Job) (bytes : List ℕ) (n m : ℕ) (c d : Cause) →
        FirstScriptCause th job bytes n c → FirstScriptCause th job bytes m d →
        AreAlike {A = Script} (Err c) (Err d) }
{
    circ_lexer::laws::cut_in_one_way();
    circ_statement::laws::said_in_one_way();
}

/// Bytes that read as no script have a first cause: it cannot be that they have neither.
pub fn read_or_refused()
    ensures { (th : Theory) (job : Job) (bytes : List ℕ) → ScriptOrCause th job bytes }
{
    circ_lexer::laws::cut_in_one_way();
}

/// What is read is fit for its job: goals and terms are well-sorted, with low numbers of variables,
/// conditions are few and of visible sorts, no block is empty, and there is what the job is done on.
pub fn scripts_are_fit()
    ensures fit { (th : Theory) (job : Job) (bytes : List ℕ) (s : Script) → IsWellFormed th →
        ReadsAsScript th job bytes s → IsFit th s }
    ensures is_for { (th : Theory) (job : Job) (bytes : List ℕ) (s : Script) →
        ReadsAsScript th job bytes s → IsScriptFor job s }
{}
