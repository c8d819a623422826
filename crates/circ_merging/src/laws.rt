//! What is proved of merged contents. The functions do nothing: a law is a contract.
ghost use Rattle.std.specs.Prelude.{◌≡◌, ◌↔◌, ℕ, List, [], ◌∷◌, ◌++◌, None, true, false};
ghost use Rattle.circ_term.specs.Tree.{Tree};
ghost use Rattle.circ_theory.specs.Signature.{Operator};
ghost use Rattle.circ_theory.specs.Theory.{twice};
ghost use Rattle.circ_theory.specs.Operators.{has_mark};
ghost use Rattle.circ_aci.specs.Content.{settled, content, leaves};
ghost use Rattle.circ_aci.specs.Canonical.{join, canonical};
ghost use Rattle.circ_aci.specs.Operands.{operands};
ghost use Rattle.circ_aci.specs.Row.{may_follow, first_in};
ghost use Rattle.circ_merging.specs.Put.{put_in, put_row, merged};

/// One more entry costs one walk of a settled list, and no sort.
pub fn one_more_entry()
    ensures { (o : Operator) (x : Tree) (xs : List Tree)
        → settled o (x ∷ xs) ≡ put_in o x (settled o xs) }
{}

/// The same for an entry at the end, where the operator is commutative.
pub fn one_more_entry_at_the_end()
    ensures { (o : Operator) (x : Tree) (xs : List Tree) → o.comm ≡ true
        → settled o (xs ++ x ∷ []) ≡ put_in o x (settled o xs) }
{}

/// Two settled lists are settled as one by one walk of both, and no sort.
pub fn two_settled_lists()
    ensures { (o : Operator) (x y : Tree) (xs ys : List Tree) → settled o (x ∷ xs) ≡ x ∷ xs
        → settled o (y ∷ ys) ≡ y ∷ ys
        → settled o ((x ∷ xs) ++ (y ∷ ys)) ≡ merged o (x ∷ xs) (y ∷ ys) }
{}

/// The canonical form of an associative operator on an entry and a canonical term is the second
/// with the entry put in.
pub fn one_more_summand()
    ensures { (o : Operator) (f k : ℕ) (a b : Tree) → has_mark o ≡ true → o.assoc ≡ true
        → operands f a ≡ None → canonical o f b ≡ b
        → canonical o f (twice f k a b) ≡ put_row o f a b }
{}

/// The mirror, where the operator is commutative.
pub fn one_more_summand_at_the_end()
    ensures { (o : Operator) (f k : ℕ) (a b : Tree) → has_mark o ≡ true → o.assoc ≡ true
        → o.comm ≡ true → canonical o f a ≡ a → operands f b ≡ None
        → canonical o f (twice f k a b) ≡ put_row o f b a }
{}

/// The canonical form of an associative operator on two canonical terms is what both join, merged.
pub fn two_sums()
    ensures { (o : Operator) (f k : ℕ) (a b : Tree) → has_mark o ≡ true → o.assoc ≡ true
        → canonical o f a ≡ a → canonical o f b ≡ b
        → canonical o f (twice f k a b)
        ≡ join f o.result (merged o (leaves f a) (leaves f b)) }
{}

/// Whether an associative operator's term is its own canonical form, by four tests.
pub fn own_under_assoc()
    ensures { (o : Operator) (f k : ℕ) (a b : Tree) → has_mark o ≡ true → o.assoc ≡ true
        → ((k ≡ o.result) × (operands f a ≡ None) × (may_follow o a (first_in f b) ≡ true)
        × (canonical o f b ≡ b)) ↔ (canonical o f (twice f k a b) ≡ twice f k a b) }
{}

/// The same where the operator is not associative.
pub fn own_without_assoc()
    ensures { (o : Operator) (f k : ℕ) (a b : Tree) → has_mark o ≡ true → o.assoc ≡ false
        → ((k ≡ o.result) × (may_follow o a b ≡ true))
        ↔ (canonical o f (twice f k a b) ≡ twice f k a b) }
{}
