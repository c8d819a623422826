//! What is proved of printed texts. The function does nothing: a law is a contract.
ghost use Rattle.std.specs.Prelude.{◌≡◌, ℕ, List};
ghost use Rattle.circ_theory.specs.Theory.{Theory};
ghost use Rattle.circ_show.specs.TheoryText.{IsTheoryText};

/// A theory has one text.
pub fn printed_in_one_way()
    ensures { (th : Theory) (text other : List ℕ) →
        IsTheoryText th text → IsTheoryText th other → text ≡ other }
{}
