//! What is proved of texts. The functions do nothing: a law is a contract.
ghost use Rattle.std.specs.Prelude.{◌≡◌, ℕ, List, Err};
ghost use Rattle.circ_theory.specs.Theory.{Theory};
ghost use Rattle.circ_read.specs.Includes.{Scope};
ghost use Rattle.circ_read.specs.declared.cause.Cause.{Cause};
ghost use Rattle.circ_read.specs.Causes.{AreAlike};
ghost use Rattle.circ_read.specs.ReadsAs.{ReadsAs, FirstCause, ReadOrRefused};

/// Bytes read as one theory at most, or else have one first cause, but that any two of several
/// readings may be shown.
pub fn read_in_one_way()
    ensures theory { (bytes : List ℕ) (th u : Theory) →
        ReadsAs bytes th → ReadsAs bytes u → u ≡ th }
    ensures either { (bytes : List ℕ) (th : Theory) (n : ℕ) (c : Cause) →
        ReadsAs bytes th → FirstCause bytes n c → ⊥ }
    ensures number { (bytes : List ℕ) (n m : ℕ) (c d : Cause) →
        FirstCause bytes n c → FirstCause bytes m d → m ≡ n }
    ensures cause { (bytes : List ℕ) (n m : ℕ) (c d : Cause) →
        FirstCause bytes n c → FirstCause bytes m d → AreAlike {A = Scope} (Err c) (Err d) }
{
    circ_lexer::laws::cut_in_one_way();
    circ_statement::laws::said_in_one_way();
}

/// Bytes that read as no theory have a first cause: it cannot be that they have neither.
pub fn read_or_refused()
    ensures { (bytes : List ℕ) → ReadOrRefused bytes }
{
    circ_lexer::laws::cut_in_one_way();
}
