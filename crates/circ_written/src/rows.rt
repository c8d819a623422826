//! Derivations that are written out, as rows.
use circ_term::{Path, Term};
use circ_theory::Way;

/// A variable with the term that it is given.
#[derive(Drop)]
pub struct Given {
    /// The variable's number.
    pub number: u32,
    /// Its sort.
    pub sort: u32,
    /// The term.
    pub term: Term,
}

/// A row of a derivation that is written out. The rows lead from a term to another, one after the
/// other.
#[derive(Drop)]
pub enum Row {
    /// One side of an equation of the theory, its variables given these terms in the order of their
    /// numbers and then their sorts, is replaced by the other.
    Equation {
        number: u32,
        way: Way,
        path: Path,
        terms: Vec<Term>,
    },
    /// A term is replaced by another of the same content under an operator, both with these terms
    /// for their variables.
    Content {
        op: u32,
        path: Path,
        old: Term,
        new: Term,
        by: Vec<Given>,
    },
    /// One side of an assumption is replaced by the other. The assumptions are those of the cases
    /// around the row, counted from 0 from the outermost.
    Assumption {
        number: u64,
        way: Way,
        path: Path,
    },
    /// Cases of this term begin. A part follows for each constant of the case list of its sort.
    Cases {
        term: Term,
    },
    /// A part of the innermost cases begins.
    Case,
    /// The innermost cases end.
    End,
}
