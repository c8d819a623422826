//! What is proved of automata and their texts. The functions do nothing: a law is a contract.
ghost use Rattle.std.specs.Prelude.{◌≡◌, ℕ, List};
ghost use Rattle.circ_auto.specs.declared.fault.AutoCause.{AutoCause};
ghost use Rattle.circ_auto.specs.Machine.{Machine};
ghost use Rattle.circ_auto.specs.Text.{ReadsAsAutomaton, FirstAutoCause};

/// Bytes read as one automaton at most, or else have one first cause.
pub fn read_in_one_way()
    ensures automaton { (bytes : List ℕ) (m n : Machine) →
        ReadsAsAutomaton bytes m → ReadsAsAutomaton bytes n → n ≡ m }
    ensures either { (bytes : List ℕ) (m : Machine) (k : ℕ) (c : AutoCause) →
        ReadsAsAutomaton bytes m → FirstAutoCause bytes k c → ⊥ }
    ensures number { (bytes : List ℕ) (j k : ℕ) (c d : AutoCause) →
        FirstAutoCause bytes j c → FirstAutoCause bytes k d → k ≡ j }
    ensures cause { (bytes : List ℕ) (j k : ℕ) (c d : AutoCause) →
        FirstAutoCause bytes j c → FirstAutoCause bytes k d → d ≡ c }
{
    circ_lexer::laws::cut_in_one_way();
}

/// Bytes that read as no automaton have a first cause: it cannot be that they have neither.
pub fn read_or_refused()
    ensures { (bytes : List ℕ) → ((m : Machine) → ReadsAsAutomaton bytes m → ⊥) →
        ((k : ℕ) (c : AutoCause) → FirstAutoCause bytes k c → ⊥) → ⊥ }
{
    circ_lexer::laws::cut_in_one_way();
}
