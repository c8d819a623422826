//! What is proved of printed text, and examples that try its definitions. The functions do nothing:
//! a law is a contract.
ghost use Rattle.std.specs.Prelude.{◌≡◌, ℕ, List, Bool, codes, true, false};
ghost use Rattle.std.specs.List.{AllByRecursion};
ghost use Rattle.circ_lexer.specs.TokenList.{AreTokens};
ghost use Rattle.circ_term.specs.Tree.{Tree, sort_of};
ghost use Rattle.circ_theory.specs.Signature.{Signature, IsWellSorted};
ghost use Rattle.circ_theory.specs.Theory.{Declared, Pair, pair_with, sides};
ghost use Rattle.circ_theory.specs.Goal.{Goal};
ghost use Rattle.circ_mixfix.specs.Named.{Named};
ghost use Rattle.circ_mixfix.specs.OwnWords.{IsReadBack, AreNoWords, IsNumbered};
ghost use Rattle.circ_mixfix.specs.OwnWords.{IsNumberedPair};
ghost use Rattle.circ_mixfix.specs.Printing.{text_of_term, text_of_pair, text_of_goal};
ghost use Rattle.circ_mixfix.specs.Printed.{IsPrintable, named_term};
ghost use Rattle.circ_mixfix.specs.Spells.{Spells};
ghost use Rattle.circ_mixfix.specs.PrintedExamples.{sums, on_two};

/// Where operators have words of their own, what is printed is the text of one term: its tokens
/// spell this term alone, at whatever bound, and terms, pairs and goals of one text are the same.
pub fn printed_terms_are_read_back()
    ensures one_spelling { (sig : Signature) (vars : List Declared) (hole : Bool) (t : Tree)
        (ws : List (List ℕ)) (b s : ℕ) (q : Named) →
        IsReadBack sig → AreNoWords sig vars → IsWellSorted sig t →
        AreTokens (text_of_term sig hole t) ws → Spells sig vars hole b s ws q →
        (s ≡ sort_of t) × (q ≡ named_term hole t) }
    ensures one_term { (sig : Signature) (hole : Bool) (t u : Tree) →
        IsReadBack sig → IsWellSorted sig t → IsWellSorted sig u → IsNumbered t → IsNumbered u →
        text_of_term sig hole t ≡ text_of_term sig hole u → t ≡ u }
    ensures one_pair { (sig : Signature) (p q : Pair) →
        IsReadBack sig → IsNumberedPair sig p → IsNumberedPair sig q →
        text_of_pair sig p ≡ text_of_pair sig q → p ≡ q }
    ensures one_goal { (sig : Signature) (g h : Goal) → IsReadBack sig →
        IsNumberedPair sig (sides g) → AllByRecursion (IsNumberedPair sig) g.conds →
        IsNumberedPair sig (sides h) → AllByRecursion (IsNumberedPair sig) h.conds →
        text_of_goal sig g ≡ text_of_goal sig h → g ≡ h }
{}

/// The texts of `_+_` and of `f` on two variables, with a hole and without, and of a pair.
pub fn printed_sums()
    ensures with_holes { text_of_term sums false (on_two 0) ≡ codes "(V0:X + V1:X)" }
    ensures without_holes { text_of_term sums false (on_two 1) ≡ codes "f(V0:X, V1:X)" }
    ensures derivative { text_of_term sums true (on_two 0) ≡ codes "(*:X + V1:X)" }
    ensures pair { text_of_pair sums (pair_with (on_two 0) (on_two 1)) ≡ codes
        "(V0:X + V1:X) = f(V0:X, V1:X)" }
{}

/// What is printed over this signature can be read.
pub fn sums_are_printable()
    ensures { IsPrintable sums }
{}

/// And it is the text of one term.
pub fn sums_are_read_back()
    ensures { IsReadBack sums }
{}
