//! Laws of traces.
ghost use Rattle.std.specs.Prelude.{◌≡◌, List, [], ℕ};
ghost use Rattle.circ_theory.specs.Theory.{Theory};
ghost use Rattle.circ_theory.specs.Goal.{Goal};
ghost use Rattle.circ_attempt.specs.Search.{Conduct};
ghost use Rattle.circ_found.specs.Answering.{SearchEnds};
ghost use Rattle.circ_status.specs.Ending.{Ending};
ghost use Rattle.circ_trace.specs.Tracing.{TraceEnds, after_lines};

/// What is traced ends as the search for a proof of the same goals does, with lines before.
pub fn traces_end_as_searches()
    ensures { (th : Theory) (conduct : Conduct) (blocks : List (List Goal)) (e : Ending) →
        TraceEnds th conduct blocks e → (f : Ending) × SearchEnds th conduct [] blocks f
        × (lines : List ℕ) × (e ≡ after_lines lines f) }
{}

/// A trace has one answer.
pub fn one_trace()
    ensures { (th : Theory) (conduct : Conduct) (blocks : List (List Goal)) (e f : Ending) →
        TraceEnds th conduct blocks e → TraceEnds th conduct blocks f → e ≡ f }
{}

/// It cannot be that a trace has no answer.
pub fn some_trace()
    ensures { (th : Theory) (conduct : Conduct) (blocks : List (List Goal)) →
        ((e : Ending) → TraceEnds th conduct blocks e → ⊥) → ⊥ }
{}
