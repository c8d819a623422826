//! What a statement of a theory text says.
use circ_form::Form;
use circ_lexer::Span;
use circ_theory::Side;

/// A form with the precedence and the side that its statement gives it.
#[derive(Drop)]
pub struct Spelling {
    /// How the operator is written.
    pub form: Form,
    /// The precedence. A smaller one binds tighter.
    pub prec: u8,
    /// The side to which it groups.
    pub side: Side,
}

/// The two sides of an equals sign.
#[derive(Clone, Copy)]
pub struct Sides {
    /// The tokens before it.
    pub left: Span,
    /// The tokens behind it.
    pub right: Span,
}

/// Sides under conditions.
#[derive(Drop)]
pub struct Conditional {
    /// The sides before the `if`.
    pub sides: Sides,
    /// The sides of each condition.
    pub conds: Vec<Sides>,
}

/// A statement. Places and spans count tokens from 0.
#[derive(Drop)]
pub enum Statement {
    /// Another theory's statements are taken in.
    Inclusion {
        name: usize,
    },
    /// Sorts of these names.
    Sorts {
        names: Span,
    },
    /// An operator for each form, with argument sorts, a result sort and marks.
    Operators {
        forms: Vec<Spelling>,
        args: Span,
        result: usize,
        assoc: bool,
        comm: bool,
        idem: bool,
    },
    /// Variables of these names, of one sort.
    Variables {
        names: Span,
        sort: usize,
    },
    /// An equation between two terms, under conditions. One that is not `exec` is no rewrite rule.
    Equation {
        left: Span,
        right: Span,
        conds: Vec<Sides>,
        exec: bool,
    },
    /// A derivative, a term with a hole.
    Derivative {
        term: Span,
    },
    /// The constants that make up a sort.
    Cases {
        sort: usize,
        names: Span,
    },
}
