//! What is proved of a reader that is fed a proof's text in pieces. The functions do nothing: a law
//! is a contract.
ghost use Rattle.std.specs.Prelude.{◌≡◌, ◌⊎◌, ℕ, ◌+◌, true, false, List, [], ◌∷◌, ◌++◌};
ghost use Rattle.std.specs.Prelude.{length, map, Some, None};
ghost use Rattle.circ_theory.specs.Theory.{Theory};
ghost use Rattle.circ_theory.specs.WellFormed.{IsWellFormed};
ghost use Rattle.circ_proof.specs.Plain.{ChainOf};
ghost use Rattle.circ_proof.specs.Proof.{Proof, IsPlain, ProofFor};
ghost use Rattle.circ_proof.specs.Rules.{Done};
ghost use Rattle.circ_line.specs.Line.{Line};
ghost use Rattle.circ_line.specs.Text.{line_text, IsInRange};
ghost use Rattle.circ_line.specs.Plain.{NoFeed, ReadsLine};
ghost use Rattle.circ_grammar.specs.FirstBad.{Line_fault, Limit_fault};
ghost use Rattle.circ_grammar.specs.Machine.{OpenSplit};
ghost use Rattle.circ_grammar.specs.Parts.{shown_by};
ghost use Rattle.circ_grammar.specs.Parts as grammar;
ghost use Rattle.circ_grammar.specs.Now.{Now, Reducing, Ended, next_now};
ghost use Rattle.circ_proof_text.specs.Checks.{passes_at, limit_at};
ghost use Rattle.circ_proof_text.specs.ProofText.{numbers_of, ReadsAsProof, FirstCause};
ghost use Rattle.circ_proof_text.specs.Parts.{Part, Step, part_with, parts_of, gathered};
ghost use Rattle.circ_proof_text.specs.Parts.{nothing_gathered, gather_all};
ghost use Rattle.circ_proof.specs.Fitting.{Fit};
ghost use Rattle.circ_proof_text.specs.Reading.{Reading, kept, nothing_read, StandsFor};
ghost use Rattle.circ_proof_text.specs.Reading.{after_line};

/// The parts of a proof are those that its lines show, with the terms of its table. They fit, end
/// with a Done, and give the proof back. Where parts fit and end so, their
/// proof fits, in version 2, or in version 1 where it is as that asks.
pub fn parts_make_the_proof()
    ensures shown { (th : Theory) (p : Proof) → ProofFor th p →
        map (part_with p.table) (grammar.parts_of (numbers_of p)) ≡ parts_of p }
    ensures gathered { (th : Theory) (p : Proof) → ProofFor th p →
        gather_all nothing_gathered (parts_of p) ≡ gathered p }
    ensures fit { (th : Theory) (p : Proof) → IsWellFormed th →
        ProofFor th p → Fit th (parts_of p) }
    ensures last { (th : Theory) (p : Proof) → ProofFor th p →
        (xs : List Part) × (parts_of p ≡ xs ++ Step Done ∷ []) }
    ensures whole { (th : Theory) (p : Proof) (xs : List Part) →
        ((p.version ≡ 1) × IsPlain p) ⊎ (p.version ≡ 2) →
        Fit th (parts_of p) → parts_of p ≡ xs ++ Step Done ∷ [] → ProofFor th p }
{}

/// A reader begins with nothing, keeps bytes up to a line feed, takes a line, and hands out a part.
pub fn reading_goes_on()
    ensures nothing { (th : Theory) → StandsFor th [] [] nothing_read }
    ensures bytes { (th : Theory) (bytes piece : List ℕ) (handed : List Part) (k : Reading) →
        NoFeed piece → StandsFor th bytes handed k →
        StandsFor th (bytes ++ piece) handed (record k { rest = k.rest ++ piece }) }
    ensures line { (th : Theory) (bytes piece : List ℕ) (handed : List Part) (k : Reading)
        (l : Line) (n : Now) → StandsFor th bytes handed k →
        IsInRange l → k.rest ++ piece ≡ line_text l → next_now k.under_way l ≡ Some n →
        passes_at th k.seen l ≡ true → limit_at th k.seen l ≡ false →
        StandsFor th (bytes ++ (piece ++ (10 ∷ []))) handed (after_line th k l n) }
    ensures part { (th : Theory) (bytes : List ℕ) (handed : List Part) (k : Reading) (x : Part)
        (xs : List Part) → k.waiting ≡ x ∷ xs → StandsFor th bytes handed k →
        StandsFor th bytes (handed ++ x ∷ []) (record k { waiting = xs }) }
{}

/// A line that is whole is at fault whatever comes later: it has no form, may not stand here, does
/// not pass the checks, or passes a limit.
pub fn line_is_at_fault()
    ensures form { (th : Theory) (bytes piece later : List ℕ) (handed : List Part)
        (k : Reading) → StandsFor th bytes handed k →
        NoFeed piece → ReadsLine (k.rest ++ piece) None →
        FirstCause th ((bytes ++ (piece ++ (10 ∷ []))) ++ later) (Line_fault (k.lines + 1)) }
    ensures order { (th : Theory) (bytes piece later : List ℕ) (handed : List Part) (k : Reading)
        (l : Line) → StandsFor th bytes handed k →
        IsInRange l → k.rest ++ piece ≡ line_text l → next_now k.under_way l ≡ None →
        FirstCause th ((bytes ++ (piece ++ (10 ∷ []))) ++ later) (Line_fault (k.lines + 1)) }
    ensures check { (th : Theory) (bytes piece later : List ℕ) (handed : List Part) (k : Reading)
        (l : Line) → StandsFor th bytes handed k →
        IsInRange l → k.rest ++ piece ≡ line_text l → passes_at th k.seen l ≡ false →
        FirstCause th ((bytes ++ (piece ++ (10 ∷ []))) ++ later) (Line_fault (k.lines + 1)) }
    ensures limit { (th : Theory) (bytes piece later : List ℕ) (handed : List Part) (k : Reading)
        (l : Line) (n : Now) → StandsFor th bytes handed k →
        IsInRange l → k.rest ++ piece ≡ line_text l → next_now k.under_way l ≡ Some n →
        passes_at th k.seen l ≡ true → limit_at th k.seen l ≡ true →
        FirstCause th ((bytes ++ (piece ++ (10 ∷ []))) ++ later) (Limit_fault (k.lines + 1)) }
{}

/// At the end of the bytes they read as a proof of the version seen, of which the parts are all, or
/// the next line is at fault.
pub fn reading_ends()
    ensures whole { (th : Theory) (bytes : List ℕ) (handed : List Part) (k : Reading) →
        StandsFor th bytes handed k → k.rest ≡ [] → k.under_way ≡ Ended →
        (p : Proof) × ReadsAsProof th bytes p × (handed ++ k.waiting ≡ parts_of p)
        × (p.version ≡ k.seen.version) }
    ensures broken_off { (th : Theory) (bytes : List ℕ) (handed : List Part) (k : Reading) →
        StandsFor th bytes handed k → (k.rest ≡ [] → k.under_way ≡ Ended → ⊥) →
        FirstCause th bytes (Line_fault (k.lines + 1)) }
{}

/// The parts that are handed out fit the theory. With those that wait they are the first parts of
/// each proof whose text begins with the bytes, just those that so many lines show. All that a
/// reader keeps and hands out depends on the bytes alone, whatever the pieces were.
pub fn parts_come_in_order()
    ensures fit { (th : Theory) (bytes : List ℕ) (handed : List Part) (k : Reading) →
        StandsFor th bytes handed k → Fit th handed }
    ensures first { (th : Theory) (bytes later : List ℕ) (handed : List Part) (k : Reading)
        (p : Proof) → IsWellFormed th → StandsFor th bytes handed k →
        ReadsAsProof th (bytes ++ later) p →
        (xs : List Part) × (parts_of p ≡ (handed ++ k.waiting) ++ xs) }
    ensures counted { (th : Theory) (bytes later : List ℕ) (handed : List Part) (k : Reading)
        (p : Proof) → IsWellFormed th → StandsFor th bytes handed k →
        ReadsAsProof th (bytes ++ later) p → handed ++ k.waiting
        ≡ map (part_with p.table) (shown_by k.lines (grammar.parts_of (numbers_of p))) }
    ensures one { (th : Theory) (bytes : List ℕ) (xs ys : List Part) (k j : Reading) →
        StandsFor th bytes xs k → StandsFor th bytes ys j →
        (kept k ≡ kept j) × (k.seen ≡ j.seen) × (xs ++ k.waiting ≡ ys ++ j.waiting) }
{}

/// As many splits are open as the part under way has.
pub fn splits_are_open()
    ensures { (th : Theory) (bytes : List ℕ) (handed : List Part) (k : Reading) →
        StandsFor th bytes handed k → (fs : List OpenSplit) (c : ChainOf ℕ) →
        k.under_way ≡ Reducing fs c → length k.seen.wanted ≡ length fs }
{}
