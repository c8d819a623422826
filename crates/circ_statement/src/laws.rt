//! What is proved of statements. The functions do nothing: a law is a contract.
ghost use Rattle.std.specs.Prelude.{◌≡◌, List, [], ◌∷◌, false, codes};
ghost use Rattle.circ_statement.specs.Words.{Word};
ghost use Rattle.circ_statement.specs.Said.{Said, equation};
ghost use Rattle.circ_statement.specs.Statement.{nonexec, IsStatement, IsLeftOut};
ghost use Rattle.circ_statement.specs.Examples.{plus_words, plus, foreign_words};

/// A statement says one thing, and is left out by one word.
pub fn said_in_one_way()
    ensures said { (ws : List Word) (a b : Said) → IsStatement ws a → IsStatement ws b → a ≡ b }
    ensures left_out { (ws : List Word) (v w : Word) → IsLeftOut ws v → IsLeftOut ws w → v ≡ w }
{}

/// Three statements, and what they say.
pub fn what_statements_say()
    ensures operator { IsStatement plus_words plus }
    ensures equation { IsStatement (codes "eq" ∷ (codes "a" ∷ (codes "=" ∷ nonexec)))
        (equation (codes "a" ∷ []) [] [] false) }
    ensures left_out { IsLeftOut foreign_words (codes "ctor") }
{}
