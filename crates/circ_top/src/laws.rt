//! Laws on the definitions behind the clause of `circ`.
ghost use Rattle.std.specs.Prelude.{◌≡◌, ◌≤◌, ◌↔◌, ℕ, List, [], ◌∷◌, length, Option, Some, codes};
ghost use Rattle.circ_outer.specs.Shelf.{ShelfState};
ghost use Rattle.circ_term.specs.declared.TheConstants.{MOST_NODES, MOST_DEPTH};
ghost use Rattle.circ_term.specs.declared.TheConstants.{MOST_ARGS as MOST_TERM_ARGS};
ghost use Rattle.circ_theory.specs.declared.TheConstants.{MOST_SORTS, MOST_VARS, MOST_OPS};
ghost use Rattle.circ_theory.specs.declared.TheConstants.{MOST_EQUATIONS, MOST_ARGS};
ghost use Rattle.circ_theory.specs.declared.TheConstants.{MOST_DERIVATIVES, MOST_PARAMS};
ghost use Rattle.circ_theory.specs.declared.TheConstants.{MOST_CASES};
ghost use Rattle.circ_chart.specs.declared.TheConstants.{MOST_TOKENS};
ghost use Rattle.circ_theory.specs.Theory.{Theory};
ghost use Rattle.circ_theory.specs.WellFormed.{IsWellFormed};
ghost use Rattle.circ_proof.specs.Proof.{Proof, ProofFor};
ghost use Rattle.circ_proof.specs.Accepted.{Accepted};
ghost use Rattle.circ_proof_text.specs.ProofText.{proof_text};
ghost use Rattle.circ_files.specs.TheoryFile.{ReadsTheory};
ghost use Rattle.circ_status.specs.declared.status.Status.{Status};
ghost use Rattle.circ_status.specs.declared.status.Status.TheVariants.{Ok};
ghost use Rattle.circ_status.specs.Ending.{Stored};
ghost use Rattle.circ_top.specs.Outcome.{Outcome};
ghost use Rattle.circ_reports.specs.declared.report.Report.{Report};
ghost use Rattle.circ_top.specs.Command.{Command, Check, IsCommand, Asks, IsNoCommand};
ghost use Rattle.circ_top.specs.Command.{IsNotStored};
ghost use Rattle.circ_top.specs.Causes.{IsNotPut};
ghost use Rattle.circ_top.specs.Run.{Run};
ghost use Rattle.circ_top.specs.SecondProve.{AsksAgain};
ghost use Rattle.circ_reports.specs.Upgrade.{upgraded};
ghost use Rattle.circ_top.specs.Upgraded.{DifferInVersion, AsksOfUpgraded};
ghost use Rattle.circ_top.specs.Complete.{HasOutcome};
ghost use Rattle.circ_files.specs.Files.{Held};
ghost use Rattle.circ_top.specs.InMemory.{HoldsFiles};
ghost use Rattle.circ_top.specs.PlainWords.{IsPlainWord, usual_limits};
ghost use Rattle.circ_files.specs.declared.files.TheConstants.{MOST_BYTES, PIECE};

use circ_attempt::laws::some_answer;
use circ_auto::laws::read_or_refused as automata_read_or_refused;
use circ_proof_text::laws::{
    nothing_left_out as nothing_left_out_of_texts, one_answer, text_reads_back,
};
use circ_read::laws::{read_in_one_way, read_or_refused};
use circ_script::laws::read_or_refused as scripts_read_or_refused;
use circ_soundness::{nothing_left_out as nothing_left_out_of_proofs, one_verdict};

/// The limits in numbers: bytes of a file and of a piece, nodes, levels and arguments of a term,
/// sorts, variables, operators, their arguments, equations and derivatives of a theory, parameters
/// of a derivative, constants of a case list, tokens of a term.
pub fn limits()
    ensures bytes { MOST_BYTES ≡ 67108864 }
    ensures piece { PIECE ≡ 65536 }
    ensures nodes { MOST_NODES ≡ 1000000 }
    ensures depth { MOST_DEPTH ≡ 1000 }
    ensures term_args { MOST_TERM_ARGS ≡ 65536 }
    ensures sorts { MOST_SORTS ≡ 4096 }
    ensures variables { MOST_VARS ≡ 65536 }
    ensures operators { MOST_OPS ≡ 65536 }
    ensures args { MOST_ARGS ≡ 16 }
    ensures equations { MOST_EQUATIONS ≡ 65536 }
    ensures derivatives { MOST_DERIVATIVES ≡ 256 }
    ensures params { MOST_PARAMS ≡ 8 }
    ensures cases { MOST_CASES ≡ 64 }
    ensures tokens { MOST_TOKENS ≡ 256 }
{}

/// Nothing is left out: where a command's files hold something there is an outcome.
pub fn nothing_left_out()
    ensures { (words : List (List ℕ)) (held : Held) →
        HoldsFiles words held → HasOutcome words held }
{
    read_or_refused();
    scripts_read_or_refused();
    automata_read_or_refused();
    nothing_left_out_of_texts();
    nothing_left_out_of_proofs();
    some_answer();
}

/// What `check` comes to on a proof that was stored: over the theory and the proof's text no
/// outcome is another than 0.
pub fn stored_proofs_are_accepted()
    ensures { (words : List (List ℕ)) (held : Held) (report : Report) (theory proof : List ℕ) →
        Asks words (Check report theory proof) → (th : Theory) (p : Proof) →
        ReadsTheory held theory th → IsWellFormed th → ProofFor th p → Accepted th p →
        length (proof_text p) ≤ 67108864 → held proof ≡ Some (proof_text p) →
        (s : Status) (text : List ℕ) (stored : Option Stored) →
        Outcome words held s text stored → s ≡ Ok }
{
    read_in_one_way();
    one_answer();
    one_verdict();
    text_reads_back();
}

/// The text of a proof in version 2 is that of the proof that was read, but for one byte: the
/// version.
pub fn upgraded_texts_differ_in_version()
    ensures { (th : Theory) (p : Proof) → ProofFor th p →
        DifferInVersion (proof_text p) (proof_text (upgraded p)) }
{}

/// What `check` and `relation` come to on a proof in version 2, over a theory of the same bytes:
/// what they come to on the proof that was read.
pub fn upgraded_proofs_check_alike()
    ensures { (words second : List (List ℕ)) (held later : Held) →
        AsksOfUpgraded words second held later →
        (s : Status) (text : List ℕ) (stored : Option Stored) →
        Outcome words held s text stored ↔ Outcome second later s text stored }
{
    read_in_one_way();
    one_answer();
    one_verdict();
}

/// What a second `prove` on the same shelf comes to, from a theory and a script of the same bytes
/// under names other than that of the proof: what the first came to. So it is behind a first whose
/// proof the outside failed to store (`IsNotPut` of the promise `write_fault` of `circ`), and
/// behind any other, as the promise `holds` says what the files hold then.
pub fn second_proves_come_to_the_same()
    ensures not_put { (second : List (List ℕ)) (run : Run) →
        AsksAgain run.words second run.before.holds → (n : ℕ) → IsNotPut run n →
        (s : Status) (text : List ℕ) (stored : Option Stored) →
        Outcome run.words run.before.holds s text stored
        ↔ Outcome second run.after.holds s text stored }
    ensures any { (words second : List (List ℕ)) (before after : ShelfState) →
        AsksAgain words second before.holds →
        ((n : List ℕ) → IsNotStored words n → after.holds n ≡ before.holds n) →
        (s : Status) (text : List ℕ) (stored : Option Stored) →
        Outcome words before.holds s text stored ↔ Outcome second after.holds s text stored }
{}

/// Words that do not begin with `-` are taken as they stand, and behind `--` so is every word. No
/// words ask for nothing.
pub fn words_as_they_stand()
    ensures none { IsNoCommand [] }
    ensures one { (program name word : List ℕ) → IsPlainWord name → IsPlainWord word →
        (c : Command) → IsCommand usual_limits name (word ∷ []) c →
        Asks (program ∷ name ∷ word ∷ []) c }
    ensures two { (program name first second : List ℕ) →
        IsPlainWord name → IsPlainWord first → IsPlainWord second →
        (c : Command) → IsCommand usual_limits name (first ∷ second ∷ []) c →
        Asks (program ∷ name ∷ first ∷ second ∷ []) c }
    ensures behind_minuses { (program name first second : List ℕ) →
        (c : Command) → IsCommand usual_limits name (first ∷ second ∷ []) c →
        Asks (program ∷ codes "--" ∷ name ∷ first ∷ second ∷ []) c }
{}
