//! What is proved of the text of proofs. The functions do nothing: a law is a contract.
ghost use Rattle.std.specs.Prelude.{◌≡◌, ◌↔◌, ℕ, List, [], ◌∷◌, ◌++◌, true, Some};
ghost use Rattle.std.specs.List.{AllByRecursion};
ghost use Rattle.circ_term.specs.Tree.{Tree};
ghost use Rattle.circ_theory.specs.Signature.{Signature, IsWellSorted};
ghost use Rattle.circ_theory.specs.Theory.{Theory};
ghost use Rattle.circ_theory.specs.WellFormed.{IsWellFormed};
ghost use Rattle.circ_special.specs.declared.place.Place.{Place};
ghost use Rattle.circ_special.specs.Special.{IsPlace, IsIncreasing};
ghost use Rattle.circ_proof.specs.Proof.{IsEntry, Proof, ProofFor};
ghost use Rattle.circ_line.specs.Line.{TableLine};
ghost use Rattle.circ_grammar.specs.Grammar.{NumberedProof};
ghost use Rattle.circ_grammar.specs.FirstBad.{IsTextOf, LineFault};
ghost use Rattle.circ_proof_text.specs.TableText.{term_for, entry_of};
ghost use Rattle.circ_proof_text.specs.Checks.{is_place, is_next};
ghost use Rattle.circ_proof_text.specs.ProofText.{numbers_of, proof_text, line_tests};
ghost use Rattle.circ_proof_text.specs.ProofText.{ReadsAsProof, FirstCause};

/// Bytes read as a proof exactly where they are the text of a proof's numbers whose lines pass all
/// checks and no limit.
pub fn reads_as_proof()
    ensures text { (th : Theory) (bytes : List ℕ) (p : Proof) → IsWellFormed th →
        ReadsAsProof th bytes p → IsTextOf (line_tests th) (numbers_of p) bytes }
    ensures proof { (th : Theory) (bytes : List ℕ) (q : NumberedProof) →
        IsTextOf (line_tests th) q bytes →
        (p : Proof) × ReadsAsProof th bytes p × (numbers_of p ≡ q) }
{}

/// Bytes read as one proof at most, and as none where they have a first cause.
pub fn one_answer()
    ensures proof { (th : Theory) (bytes : List ℕ) (p q : Proof) → IsWellFormed th →
        ReadsAsProof th bytes p → ReadsAsProof th bytes q → p ≡ q }
    ensures cause { (th : Theory) (bytes : List ℕ) (f g : LineFault) →
        FirstCause th bytes f → FirstCause th bytes g → f ≡ g }
    ensures not_both { (th : Theory) (bytes : List ℕ) (p : Proof) (fault : LineFault) →
        IsWellFormed th → ReadsAsProof th bytes p → FirstCause th bytes fault → ⊥ }
{}

/// Bytes that read as no proof have a first cause.
pub fn nothing_left_out()
    ensures { (th : Theory) (bytes : List ℕ) →
        ((p : Proof) → ReadsAsProof th bytes p → ⊥) →
        ((fault : LineFault) → FirstCause th bytes fault → ⊥) → ⊥ }
{}

/// A proof that fits the theory is what its text reads as.
pub fn text_reads_back()
    ensures { (th : Theory) (p : Proof) → ProofFor th p → ReadsAsProof th (proof_text p) p }
{}

/// The line of a term of the table has this term, and a line that has a term is that term's line.
pub fn a_line_and_its_term()
    ensures term { (sig : Signature) (table : List Tree) (t : Tree) → IsEntry table t →
        IsWellSorted sig t → term_for sig table (entry_of table t) ≡ Some t }
    ensures line { (sig : Signature) (table : List Tree) (l : TableLine) (t : Tree) →
        AllByRecursion (IsWellSorted sig) table → term_for sig table l ≡ Some t →
        (entry_of table t ≡ l) × IsWellSorted sig t }
{}

/// The checks of a place tell whether it is one, and whether it keeps places increasing.
pub fn places_are_told()
    ensures place { (th : Theory) (g : Place) → (is_place th g ≡ true) ↔ IsPlace th g }
    ensures next { (gs : List Place) (g : Place) → IsIncreasing gs →
        (is_next gs g ≡ true) ↔ IsIncreasing (gs ++ g ∷ []) }
{}
