//! Grammars of mixfix terms.

/// A symbol of a rule.
#[derive(Clone, Copy)]
pub enum Symbol {
    /// This token.
    Word(u32),
    /// A term of this sort, of a precedence below `below`. Where that is 0, nothing fits.
    Hole { sort: u32, below: u8 },
}

/// How an operator is spelled: by its symbols in order, whose holes are its arguments. A smaller
/// precedence binds tighter.
#[derive(Drop)]
pub struct Rule {
    /// The operator's number.
    pub op: u32,
    /// The sort of its result.
    pub sort: u32,
    pub prec: u8,
    pub symbols: Vec<Symbol>,
}

/// A token that is a variable, with the variable's number and sort. Its precedence is 0, as that of
/// parentheses is.
#[derive(Clone, Copy)]
pub struct Variable {
    /// The token.
    pub word: u32,
    /// The variable's number.
    pub number: u32,
    pub sort: u32,
}

/// The rules and the variables of a language. The parentheses are the tokens
/// [`OPENING`](crate::OPENING) and [`CLOSING`](crate::CLOSING), in each grammar.
#[derive(Drop)]
pub struct Grammar {
    pub rules: Vec<Rule>,
    pub variables: Vec<Variable>,
}
