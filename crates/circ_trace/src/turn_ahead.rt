//! What the next turn is made from.
use circ_rewriting_turn::{PassRules, Passed};
use circ_turn::{Search, State};

/// The turn that comes next: what the search goes by, the rules of its passes, the pairs of sides to
/// which a lemma pass was made, and where the search stands.
#[derive(Clone, Copy)]
pub(crate) struct TurnAhead<'a, 'b, 'c> {
    pub(crate) search: &'a Search<'b>,
    pub(crate) passes: &'a PassRules,
    pub(crate) passed: &'a Passed,
    pub(crate) state: &'a State<'c>,
}
