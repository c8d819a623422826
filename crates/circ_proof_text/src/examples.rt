//! The definitions, tried on examples. The functions do nothing: a law is a contract.
ghost use Rattle.std.specs.Prelude.{◌≡◌, ℕ, List, [], ◌∷◌, ◌++◌, codes, true, false, Some, None};
ghost use Rattle.circ_theory.specs.Examples.{streams};
ghost use Rattle.circ_special.specs.Special.{place};
ghost use Rattle.circ_proof.specs.Proof.{ProofFor};
ghost use Rattle.circ_line.specs.Line.{split_line, derive_line, certificate_line, block_line};
ghost use Rattle.circ_line.specs.Line.{given_line, cases_line, if_line};
ghost use Rattle.circ_grammar.specs.FirstBad.{Line_fault};
ghost use Rattle.circ_proof_text.specs.TableText.{first_at};
ghost use Rattle.circ_proof_text.specs.Checks.{nothing, wanting, is_next, passes_at, limit_at};
ghost use Rattle.circ_proof_text.specs.ProofText.{proof_text, FirstCause};
ghost use Rattle.circ_proof_text.specs.Examples.{stream, zips, zips_text, sums, sums_text, itself};
ghost use Rattle.circ_proof_text.specs.Examples.{bit, given_bit, given_bit_text, itself_given};
ghost use Rattle.circ_proof_text.specs.Examples.{seven_open};

/// Three proofs and their texts, and two that fit a theory. The last of each have conditions.
pub fn texts_of_examples()
    ensures zips { proof_text zips ≡ zips_text }
    ensures sums { proof_text sums ≡ sums_text }
    ensures given { proof_text given_bit ≡ given_bit_text }
    ensures fits { ProofFor streams itself }
    ensures fits_given { ProofFor streams itself_given }
{}

/// A term goes by its first number, and places increase. There is a certificate for each that is
/// due when a block begins, and no further one.
pub fn checks_of_examples()
    ensures first { first_at (stream ∷ stream ∷ []) 0 ≡ Some stream }
    ensures second { first_at (stream ∷ stream ∷ []) 1 ≡ None }
    ensures same_place { is_next (place 9 1 ∷ []) (place 9 1) ≡ false }
    ensures next_place { is_next (place 9 1 ∷ []) (place 10 0) ≡ true }
    ensures one_too_many { passes_at streams nothing certificate_line ≡ false }
    ensures none_missing { passes_at streams nothing block_line ≡ true }
    ensures no_sort { (later : List ℕ) →
        FirstCause streams (codes "circproof 1\nv 0 2\n" ++ later) (Line_fault 2) }
{}

/// Only version 2 has conditions and Cases, and the sides of a condition are of visible sort.
pub fn checks_of_version_2()
    ensures no_given { passes_at streams (record nothing { version = 1; terms = bit ∷ [] })
        (given_line 0 0) ≡ false }
    ensures no_if { passes_at streams (record nothing { version = 1 }) if_line ≡ false }
    ensures no_cases { passes_at streams (record nothing { version = 1; terms = bit ∷ [] })
        (cases_line 0) ≡ false }
    ensures visible { passes_at streams (record nothing { version = 2; terms = bit ∷ [] })
        (given_line 0 0) ≡ true }
    ensures hidden { passes_at streams (record nothing { version = 2; terms = stream ∷ [] })
        (given_line 0 0) ≡ false }
{}

/// Eight splits may stand inside one another, and there may be 100,000 steps.
pub fn limits_of_examples()
    ensures eighth { limit_at streams (wanting nothing seven_open) (split_line 0 1) ≡ false }
    ensures ninth { limit_at streams (wanting nothing (2 ∷ seven_open)) (split_line 0 1) ≡ true }
    ensures last_step { limit_at streams (record nothing { steps = 99999 }) derive_line ≡ false }
    ensures one_more { limit_at streams (record nothing { steps = 100000 }) derive_line ≡ true }
{}

/// A goal may have eight conditions, and eight conditions of links may stand inside one another.
pub fn limits_of_version_2()
    ensures eighth { limit_at streams (record nothing { givens = 7 }) (given_line 0 0) ≡ false }
    ensures ninth { limit_at streams (record nothing { givens = 8 }) (given_line 0 0) ≡ true }
    ensures eighth_if { limit_at streams (record nothing { ifs = 7 }) if_line ≡ false }
    ensures ninth_if { limit_at streams (record nothing { ifs = 8 }) if_line ≡ true }
{}
