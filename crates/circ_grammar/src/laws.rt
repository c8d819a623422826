//! What is proved of the grammar. The functions do nothing: a law is a contract.
ghost use Rattle.std.specs.Prelude.{◌≡◌, ℕ, ◌+◌, List, ◌∷◌, ◌++◌, length, map, Some};
ghost use Rattle.std.specs.Option.{option_map};
ghost use Rattle.circ_line.specs.Line.{Line};
ghost use Rattle.circ_line.specs.Plain.{NoFeed};
ghost use Rattle.circ_grammar.specs.Grammar.{NumberedTable, NumberedProof, HasParts, BeginsProof, proof_lines};
ghost use Rattle.circ_grammar.specs.FirstBad.{LineTests, file_text, IsTextOf, LineFault};
ghost use Rattle.circ_grammar.specs.FirstBad.{Line_fault, IsFirstFault};
ghost use Rattle.circ_grammar.specs.Machine.{State, begin, next, run};
ghost use Rattle.circ_grammar.specs.Feeding.{Kept, IsFed};
ghost use Rattle.circ_grammar.specs.Parts.{NumberedPart, parts_of, shown_by};
ghost use Rattle.circ_grammar.specs.Shown.{shown, brings};
ghost use Rattle.circ_grammar.specs.Now.{now, next_now, line_part, with_table};

/// Bytes are the text of one proof at most, or have one first line at fault at most, and never
/// both.
pub fn one_answer()
    ensures proof { (r : LineTests) (bytes : List ℕ) (p q : NumberedProof) →
        IsTextOf r p bytes → IsTextOf r q bytes → p ≡ q }
    ensures fault { (r : LineTests) (bytes : List ℕ) (f g : LineFault) →
        IsFirstFault r bytes f → IsFirstFault r bytes g → f ≡ g }
    ensures not_both { (r : LineTests) (bytes : List ℕ) (p : NumberedProof) →
        IsTextOf r p bytes → (f : LineFault) → IsFirstFault r bytes f → ⊥ }
{}

/// Bytes that are no proof's text have a first line at fault.
pub fn nothing_left_out()
    ensures { (r : LineTests) (bytes : List ℕ) →
        ((p : NumberedProof) → IsTextOf r p bytes → ⊥) →
        ((f : LineFault) → IsFirstFault r bytes f → ⊥) → ⊥ }
{}

/// Where a proof's text breaks off, the next line is the first at fault, with or without bytes
/// after the last line feed. So it is where bytes come after the end of a proof's text.
pub fn whole_texts_only()
    ensures broken_off { (r : LineTests) (p : NumberedProof) (bytes : List ℕ) →
        IsTextOf r p bytes → (ls : List Line) (l : Line) (later : List Line) (rest : List ℕ) →
        proof_lines p ≡ ls ++ (l ∷ later) → NoFeed rest →
        IsFirstFault r (file_text ls ++ rest) (Line_fault (length ls + 1)) }
    ensures goes_on { (r : LineTests) (p : NumberedProof) (bytes : List ℕ) →
        IsTextOf r p bytes → (b : ℕ) (more : List ℕ) →
        IsFirstFault r (bytes ++ (b ∷ more)) (Line_fault (length (proof_lines p) + 1)) }
{}

/// The machine runs through a list of lines exactly where the list begins a proof.
pub fn good_is_alive()
    ensures alive { (ls : List Line) (m : State) → run begin ls ≡ Some m → BeginsProof ls }
    ensures begins { (ls : List Line) → BeginsProof ls → (m : State) × (run begin ls ≡ Some m) }
{}

/// Each line shows its parts and takes none back. What lines show are the first parts of each proof
/// that begins with them, just those that so many lines show.
pub fn shown_parts()
    ensures line { (m n : State) (l : Line) →
        next m l ≡ Some n → shown n ≡ shown m ++ brings m l }
    ensures first { (ls later : List Line) (m : State) (p : NumberedProof) →
        run begin ls ≡ Some m → HasParts p → proof_lines p ≡ ls ++ later →
        (xs : List NumberedPart) × (parts_of p ≡ shown m ++ xs) }
    ensures counted { (ls later : List Line) (m : State) (p : NumberedProof) →
        run begin ls ≡ Some m → HasParts p → proof_lines p ≡ ls ++ later →
        shown m ≡ shown_by (length ls) (parts_of p) }
{}

/// The part under way goes on as the state does, and tells what parts a line shows.
pub fn part_under_way()
    ensures goes_on { (m : State) (l : Line) → option_map now (next m l) ≡ next_now (now m) l }
    ensures shows { (table : NumberedTable) (m : State) (l : Line) →
        map (with_table table) (brings m l) ≡ line_part table (now m) l }
{}

/// What a reader keeps that is fed in pieces depends on the bytes alone, whatever the pieces were.
pub fn fed_in_pieces()
    ensures { (r : LineTests) (bytes : List ℕ) (ls bs : List Line) (m n : State) (k j : Kept) →
        IsFed r bytes ls m k → IsFed r bytes bs n j → (ls ≡ bs) × (m ≡ n) × (k ≡ j) }
{}
