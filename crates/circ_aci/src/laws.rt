//! What is proved of contents, and examples that try the definitions. The functions do nothing: a
//! law is a contract.
ghost use Rattle.std.specs.Prelude.{◌≡◌, ℕ, List, [], ◌∷◌, Some, true, false};
ghost use Rattle.std.specs.List.{slice_get};
ghost use Rattle.circ_term.specs.Tree.{Tree, sort_of};
ghost use Rattle.circ_theory.specs.Signature.{Operator, IsWellSorted};
ghost use Rattle.circ_theory.specs.Theory.{Theory, Pair};
ghost use Rattle.circ_theory.specs.WellFormed.{IsWellFormed};
ghost use Rattle.circ_theory.specs.Derivable.{Derivable};
ghost use Rattle.circ_aci.specs.Content.{content, HasContentOf};
ghost use Rattle.circ_aci.specs.Canonical.{canonical, IsCanonicalFormOf};
ghost use Rattle.circ_aci.specs.Examples.{marked, a, b, f};

/// Well-sorted terms of the same content are derivable from one another.
pub fn equal_content()
    ensures { (th : Theory) → IsWellFormed th → (H : List Pair) (f : ℕ) (o : Operator)
        → slice_get th.signature.ops f ≡ Some o → (a b : Tree)
        → IsWellSorted th.signature a → IsWellSorted th.signature b
        → content o f a ≡ content o f b → Derivable th H a b }
{}

/// Well-sorted terms of the same content have the same sort.
pub fn content_keeps_sort()
    ensures { (th : Theory) → IsWellFormed th → (f : ℕ) (o : Operator)
        → slice_get th.signature.ops f ≡ Some o → (a b : Tree)
        → IsWellSorted th.signature a → IsWellSorted th.signature b
        → content o f a ≡ content o f b → sort_of b ≡ sort_of a }
{}

/// A well-sorted term is derivable from each well-sorted term whose content it has.
pub fn content_is_derivable()
    ensures { (th : Theory) → IsWellFormed th → (H : List Pair) (f : ℕ) (old new : Tree)
        → IsWellSorted th.signature old → IsWellSorted th.signature new
        → HasContentOf th.signature f old new → Derivable th H old new }
{}

/// The canonical form of a well-sorted term has the term's content, is its own canonical form, is
/// well-sorted and of the term's sort, and is derivable from the term.
pub fn canonical_form()
    ensures { (th : Theory) → IsWellFormed th → (f : ℕ) (o : Operator)
        → slice_get th.signature.ops f ≡ Some o → (t : Tree) → IsWellSorted th.signature t
        → IsCanonicalFormOf th o f t (canonical o f t) }
{}

/// An operator without marks joins nothing, and no operator joins what another one does.
pub fn nothing_joined()
    ensures no_mark { content (marked false false false) 9 (f b a) ≡ f b a ∷ [] }
    ensures other { content (marked true true true) 8 (f b a) ≡ f b a ∷ [] }
{}

/// An associative operator joins the leaves, and keeps their order.
pub fn leaves_are_joined()
    ensures assoc { content (marked true false false) 9 (f (f b a) b) ≡ b ∷ a ∷ b ∷ [] }
    ensures comm { content (marked true true false) 9 (f (f b a) b) ≡ a ∷ b ∷ b ∷ [] }
    ensures idem { content (marked true false true) 9 (f (f a b) (f b a)) ≡ a ∷ b ∷ a ∷ [] }
    ensures all { content (marked true true true) 9 (f (f b a) b) ≡ a ∷ b ∷ [] }
{}

/// An operator that is not associative joins its two arguments alone.
pub fn arguments_are_joined()
    ensures comm { content (marked false true false) 9 (f (f b a) a) ≡ a ∷ f b a ∷ [] }
    ensures idem { content (marked false false true) 9 (f (f a a) a) ≡ f a a ∷ a ∷ [] }
    ensures once { content (marked false false true) 9 (f (f a b) (f a b)) ≡ a ∷ b ∷ [] }
    ensures twice { content (marked false false true) 9 (f (f a a) (f a a)) ≡ a ∷ [] }
{}

/// The content is sorted where the order is free, and joined again from the right.
pub fn forms_are_canonical()
    ensures assoc { canonical (marked true false false) 9 (f (f b a) b) ≡ f b (f a b) }
    ensures comm { canonical (marked true true false) 9 (f (f b b) a) ≡ f a (f b b) }
    ensures all { canonical (marked true true true) 9 (f (f b b) a) ≡ f a b }
    ensures swapped { canonical (marked false true false) 9 (f (f b a) a) ≡ f a (f b a) }
    ensures once { canonical (marked false false true) 9 (f (f a b) (f a b)) ≡ f a b }
{}
