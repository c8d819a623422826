//! What is proved of chains of replacements. The functions do nothing: a law is a contract.
ghost use Rattle.std.specs.Prelude.{◌≡◌, ◌+◌, ◌-◌, ◌≤◌, ℕ, List, []};
ghost use Rattle.std.specs.Prelude.{length, map, Option, Some};
ghost use Rattle.circ_term.specs.Tree.{Tree, size_of, depth_of, replaced};
ghost use Rattle.circ_term.specs.Limits.{node_limit, depth_limit, Limit};
ghost use Rattle.circ_term.specs.Limits.{first_limit, IsWithinLimits};
ghost use Rattle.circ_rewrite.specs.Replacement.{Replacement, Traced};
ghost use Rattle.circ_rewrite.specs.Norm.{Normal_form, Budget_spent, Limit_passed, run};
ghost use Rattle.circ_rewrite.specs.Standing.{Stands};
ghost use Rattle.circ_chain.specs.Chain.{under, Chain, Reduces, RunsOut, Breaks, Outgrows};

/// What is known of a whole term by itself, within the limits, says what comes of normalising it.
pub fn kept_forms_answer()
    ensures form { (due : Tree → Option Replacement) (ts : List Traced) (k : ℕ) (t v : Tree)
        → Reduces due node_limit depth_limit t ts v → length ts ≤ k
        → run due k t [] ≡ Normal_form v ts (k - length ts) }
    ensures spent { (due : Tree → Option Replacement) (k : ℕ) (t : Tree)
        → RunsOut due node_limit depth_limit k t → run due k t [] ≡ Budget_spent }
    ensures past { (due : Tree → Option Replacement) (k left : ℕ) (t : Tree) (l : Limit)
        → Breaks due node_limit depth_limit k left t l
        → run due k t [] ≡ Limit_passed l left }
    ensures within { (due : Tree → Option Replacement) (k left : ℕ) (t x : Tree)
        → Outgrows due node_limit depth_limit k left t x → ⊥ }
{}

/// What is known of a subterm, all to the left of which is settled, is known of the term in which
/// it stands, with the bounds that are left for the rest of the term: its replacements, that the
/// budget is spent, and that a limit is passed.
pub fn chains_stand_in_terms()
    ensures chain { (due : Tree → Option Replacement) (big deep most deepest : ℕ)
        (ts : List Traced) (p : List ℕ) (w t v x : Tree)
        → Stands due w p t → Chain due big deep t ts v
        → size_of w + big ≤ most + size_of t
        → depth_of w ≤ deepest → length p + deep ≤ deepest
        → replaced w p v ≡ Some x → Chain due most deepest w (map (under p) ts) x }
    ensures spent { (due : Tree → Option Replacement) (big deep most deepest k : ℕ)
        (p : List ℕ) (w t : Tree)
        → Stands due w p t → RunsOut due big deep k t
        → size_of w + big ≤ most + size_of t
        → depth_of w ≤ deepest → length p + deep ≤ deepest
        → RunsOut due most deepest k w }
    ensures past { (due : Tree → Option Replacement) (big deep most deepest k left : ℕ)
        (p : List ℕ) (w t : Tree) (l : Limit)
        → Stands due w p t → IsWithinLimits w → Breaks due big deep k left t l
        → size_of w + big ≤ most + size_of t
        → depth_of w ≤ deepest → length p + deep ≤ deepest
        → Breaks due most deepest k left w l }
{}

/// Where a subterm outgrows its bounds, the term made around the new one passes a limit, which is
/// then the first; or, if the subterm has just the bounds that are left for it, outgrows the bounds
/// of the whole.
pub fn outgrown_bounds_stand_in_terms()
    ensures past { (due : Tree → Option Replacement) (big deep most deepest k left : ℕ)
        (p : List ℕ) (w t x y : Tree) (l : Limit)
        → Stands due w p t → Outgrows due big deep k left t x
        → size_of w + big ≤ most + size_of t
        → depth_of w ≤ deepest → length p + deep ≤ deepest
        → replaced w p x ≡ Some y → first_limit y ≡ Some l
        → Breaks due most deepest k left w l }
    ensures within { (due : Tree → Option Replacement) (big deep most deepest k left : ℕ)
        (p : List ℕ) (w t x y : Tree)
        → Stands due w p t → Outgrows due big deep k left t x
        → size_of w + big ≡ most + size_of t
        → depth_of w ≤ deepest → length p + deep ≡ deepest
        → replaced w p x ≡ Some y → IsWithinLimits y
        → Outgrows due most deepest k left w y }
{}

/// The traces and the normal form of a term are determined by the term: however they are found,
/// they are those.
pub fn normal_forms_are_unique()
    ensures { (due : Tree → Option Replacement) (big deep most deepest : ℕ)
        (ts us : List Traced) (t v x : Tree)
        → Reduces due big deep t ts v → Reduces due most deepest t us x
        → (ts ≡ us) × (v ≡ x) }
{}
