//! Operators.

use circ_form::Form;

/// Where an operator whose form begins and ends with a hole groups.
#[derive(Clone, Copy, PartialEq, Eq, Debug)]
pub enum Side {
    /// To neither side.
    Neither,
    /// To the left.
    Left,
    /// To the right.
    Right,
}

/// An operator as it is declared. Sorts go by their numbers.
#[derive(Drop)]
pub struct OpDecl {
    /// How the operator is written.
    pub form: Form,
    /// The sorts of the arguments.
    pub args: Vec<u32>,
    /// The sort of the result.
    pub result: u32,
    /// The precedence. A smaller one binds tighter.
    pub prec: u8,
    /// The side to which it groups.
    pub side: Side,
    /// Whether it is associative.
    pub assoc: bool,
    /// Whether it is commutative.
    pub comm: bool,
    /// Whether it is idempotent.
    pub idem: bool,
}
